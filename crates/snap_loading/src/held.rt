//! What the types of a library, of its rows and of a machine keep.

ghost use Rattle.std.specs.Prelude.{◌≡◌};
ghost use Rattle.snap_loading.specs.Given.{IsTabled};
ghost use Rattle.snap_loading.specs.Saved.{IsHeld};

use bc_library::{Library, library_law, texts_law};
use vm_machine::{Rows, Vm};

/// What each library keeps that has rows.
pub fn tables_law(library: &Library, rows: &Rows<'_>)
    requires { rows.now ≡ library.now }
    ensures { IsTabled library.now }
{
    library_law(library);
    texts_law(library);
    rows.codes_law();
}

/// The objects of each machine are formed and have their rooms, and what is used of its room lies within it.
pub fn held_law(vm: &Vm)
    ensures { IsHeld vm.now }
{
    vm.arena.sound_law();
    vm.arena.room_law();
}
