//! What is so of each layout.

ghost use Rattle.std.specs.Prelude.{◌≡◌, List, ℕ, Bool, length, All, flat_map};
ghost use Rattle.bc_ops.specs.Code.{spelling};
ghost use Rattle.bc_ops.specs.Listing.{IsListOf};
ghost use Rattle.bc_labels.specs.declared.labelled.Labelled.{Labelled};
ghost use Rattle.bc_labels.specs.Labels.{IsSound};
ghost use Rattle.bc_labels.specs.Places.{place};
ghost use Rattle.bc_labels.specs.Listed.{listed};
ghost use Rattle.bc_labels.specs.Choice.{IsFewest, IsLayout, IsTooFar, IsCode, instrs_to};

/// The bytes in front of an item are as many as its place says. There is one layout at most, and none where an offset fits
/// no form; its bytes are those of instructions that may be written, and are read as the items without the labels, each
/// jump at the position of its label.
pub fn layout_law()
    ensures places { (items : List Labelled) (widths : List Bool) (i : ℕ)
        → length (flat_map spelling (instrs_to items widths i)) ≡ place items widths i }
    ensures one_choice { (items : List Labelled) (a b : List Bool) → IsFewest items a → IsFewest items b → a ≡ b }
    ensures one_layout { (items : List Labelled) (a b : List ℕ) → IsLayout items a → IsLayout items b → a ≡ b }
    ensures never_both { (items : List Labelled) (bytes : List ℕ) → IsLayout items bytes → IsTooFar items → ⊥ }
    ensures read { (items : List Labelled) (bytes : List ℕ) → All (IsSound items) items → IsLayout items bytes → IsCode bytes }
    ensures list { (items : List Labelled) (bytes : List ℕ) → All (IsSound items) items → IsLayout items bytes
        → IsListOf bytes (listed items (length bytes)) }
{}
