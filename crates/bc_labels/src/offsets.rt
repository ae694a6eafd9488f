//! Offsets and positions name the same instructions.

ghost use Rattle.std.specs.Prelude.{◌≡◌, ◌<◌, ℕ, ℤ, List, Some, length, nat_le, slice_get};
ghost use Rattle.bc_ops.specs.declared.listing.Target.TheVariants.{Position};
ghost use Rattle.bc_ops.specs.Listing.{target};
ghost use Rattle.bc_labels.specs.Positions.{CodeList, Listed, position_in, Starts, Stands, Arrives};

/// What stands at an offset of a code is what its list has at the position; a jump that the list has by position goes to
/// that position's offset; and offsets are in the order of positions.
pub fn offsets_law()
    ensures each { (bytes : List ℕ) (l : CodeList) → Listed bytes l → length l.offsets ≡ length l.items }
    ensures first { (bytes : List ℕ) (l : CodeList) → Listed bytes l → position_in l.offsets 0 ≡ 0 }
    ensures begins { (bytes : List ℕ) (l : CodeList) → Listed bytes l → 0 < length bytes → Starts l.offsets 0 }
    ensures stands { (bytes : List ℕ) (l : CodeList) (position at : ℕ) → Listed bytes l
        → slice_get l.offsets position ≡ Some at → Stands bytes l position at }
    ensures one { (bytes : List ℕ) (l : CodeList) (position at : ℕ) → Listed bytes l
        → slice_get l.offsets position ≡ Some at → position_in l.offsets at ≡ position }
    ensures within { (bytes : List ℕ) (l : CodeList) (at : ℕ) → Listed bytes l
        → Starts l.offsets at → at < length bytes }
    ensures order { (bytes : List ℕ) (l : CodeList) (a b : ℕ) → Listed bytes l → Starts l.offsets a → Starts l.offsets b
        → nat_le (position_in l.offsets a) (position_in l.offsets b) ≡ nat_le a b }
    ensures arrives { (bytes : List ℕ) (l : CodeList) (z : ℤ) (position : ℕ) → Listed bytes l
        → target l.offsets 0 z ≡ Position position → Arrives l z position }
{}
