//! A library of files has a program.

ghost use Rattle.std.specs.Prelude.{◌≡◌, ℕ};
ghost use Rattle.vm_states.specs.bc_library.Shelf.{Shelf};
ghost use Rattle.vm_states.specs.bc_rows.declared.row.Row.{Row};
ghost use Rattle.vm_states.specs.bc_rows.Rows.{IsRow};
ghost use Rattle.vm_states.specs.Means.{Program, Means};
ghost use Rattle.vm_starting.specs.Codes.{IsCodeOf};
ghost use Rattle.vm_starting.specs.Programs.{IsRunnable, IsProgramOf, FindsAll};

use bc_labels::offsets_law;
use bc_library::{Library, modules_law};
use bc_ops::listing_law;
use bc_resolved::{module_law, stored_law};
use vm_states::rows_law;

/// A library of files, whose names differ and whose modules are verified, has a program: its machine's library is the one that
/// the files' modules have, and its plans have no more room than their codes take. The machine's library of any program finds by
/// a name what the library of files has.
pub fn program_law()
    ensures exists { (shelf : Shelf) → IsRunnable shelf → (p : Program) × IsProgramOf shelf p }
    ensures finds { (p : Program) → Means p → FindsAll p.shelf p.library }
{
    stored_law();
    module_law();
    listing_law();
}

/// Each library that there is can be run.
pub fn runnable_law(library: &Library)
    ensures { IsRunnable library.now }
{
    modules_law(library);
}

/// The row of a code says what the machine's code of its numbers is.
pub fn code_law()
    ensures { (p : Program) (i k : ℕ) (row : Row) → Means p → IsRow p.shelf i k row → IsCodeOf p i k row }
{
    offsets_law();
    rows_law();
}
