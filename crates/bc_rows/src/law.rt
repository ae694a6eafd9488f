//! What the machine runs for a row.

ghost use Rattle.std.specs.Prelude.{◌≡◌, ℕ, Some, length, slice_get};
ghost use Rattle.bc_machine.specs.mpy_tree.File.{IsModule};
ghost use Rattle.bc_machine.specs.mpy_tree.Raw as raw;
ghost use Rattle.bc_machine.specs.mpy_tree.Codes.{codes_of};
ghost use Rattle.bc_machine.specs.mpy_tree.Resolved.{ResolvedModule, Resolves};
ghost use Rattle.bc_library.specs.Shelf.{Shelf, module_at};
ghost use Rattle.bc_library.specs.Texts.{text_numbered};
ghost use Rattle.bc_machine.specs.Library.{Code, module_of};
ghost use Rattle.bc_rows.specs.declared.row.Row.{Row};
ghost use Rattle.bc_rows.specs.Rows.{IsRow};
ghost use Rattle.bc_rows.specs.Runs.{RunsAs};

/// For each row of a library the machine's module of the same tree has a code under the same number, and the row says of it
/// all that a run asks for; its source is the module's file; and there are as many codes.
pub fn rows_law()
    ensures runs { (shelf : Shelf) (i k : ℕ) (m : raw.Module) (tree : ResolvedModule) (row : Row) → IsModule m → module_at shelf i ≡ Some m
        → Resolves m tree → IsRow shelf i k row → (code : Code) × (slice_get (module_of tree).codes k ≡ Some code) × RunsAs shelf m row code }
    ensures file { (shelf : Shelf) (i k : ℕ) (m : raw.Module) (tree : ResolvedModule) (row : Row) → module_at shelf i ≡ Some m
        → Resolves m tree → IsRow shelf i k row → text_numbered shelf.pool row.source ≡ Some (module_of tree).file }
    ensures as_many { (m : raw.Module) (tree : ResolvedModule) → IsModule m → Resolves m tree
        → length (module_of tree).codes ≡ length (codes_of m) }
{}
