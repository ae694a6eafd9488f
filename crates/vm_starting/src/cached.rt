//! What is kept stays what was fetched, of each row of its code.

ghost use Rattle.std.specs.Prelude.{ℕ};
ghost use Rattle.vm_states.specs.bc_library.Shelf.{Shelf};
ghost use Rattle.vm_states.specs.bc_rows.declared.row.Row.{Row};
ghost use Rattle.vm_states.specs.bc_rows.Rows.{IsRow};
ghost use Rattle.vm_states.specs.vm_fetching.declared.instruction.Fetched.{Fetched};
ghost use Rattle.vm_states.specs.Ready.{IsFetched};
ghost use Rattle.vm_starting.specs.Kept.{Kept, IsFetchedOf, AreFetched, with_kept};

/// Where what was fetched of a code is kept at its place, all that is kept was fetched.
pub fn cache_law()
    ensures { (shelf : Shelf) (kept : Kept) (i k at : ℕ) (fetched : Fetched) → AreFetched shelf kept → IsFetchedOf shelf i k at fetched
        → AreFetched shelf (with_kept kept i k at fetched) }
{}

/// What is fetched of a code is fetched of each of its rows.
pub fn row_law()
    ensures { (shelf : Shelf) (i k at : ℕ) (fetched : Fetched) (row : Row) → IsFetchedOf shelf i k at fetched → IsRow shelf i k row
        → IsFetched shelf i row at fetched }
{}
