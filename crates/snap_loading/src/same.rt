//! Machines of one snapshot are in one state.

ghost use Rattle.std.specs.Prelude.{◌≡◌};
ghost use Rattle.bc_library.specs.Shelf.{Shelf};
ghost use Rattle.vm_starting.specs.vm_states.Means.{Program};
ghost use Rattle.vm_starting.specs.Programs.{IsProgramOf};
ghost use Rattle.vm_starting.specs.declared.opening.Vm.{Vm};
ghost use Rattle.vm_machine.specs.Machine.{IsVm};
ghost use Rattle.snap_laws.specs.States.{OfFiles};
ghost use Rattle.snap_loading.specs.Resumed.{AreSame};
ghost use Rattle.snap_loading.specs.Saved.{IsSaved, snapshot_in};
ghost use Rattle.snap_grammar.specs.declared.parts.Snapshot.{Snapshot};
ghost use Rattle.snap_loading.specs.Given.{HasNames, IsTabled};
ghost use Rattle.snap_loading.specs.Same.{AreSameFrames, AreSameWorlds, BeginsFirst, StandsFor};

use crate::shown::shown_law;
use snap_laws::{constants_law, frames_law, rooms_law};
use vm_starting::{code_law, program_law};

/// The worlds of two machines that have one snapshot, their objects and registered modules, are the same, but for the
/// numbers of their objects.
pub fn same_law()
    ensures { (shelf : Shelf) (vm other : Vm) → HasNames shelf → IsVm shelf vm → IsVm shelf other → IsSaved shelf vm → IsSaved shelf other
        → BeginsFirst vm → BeginsFirst other → snapshot_in shelf vm ≡ snapshot_in shelf other → AreSameWorlds shelf vm other }
{
    program_law();
}

/// The machine's library of a program of files has the modules of files, so no constant of it is an object.
pub fn files_law()
    ensures { (shelf : Shelf) (p : Program) → IsProgramOf shelf p → OfFiles p.library }
{}

/// Machines whose worlds and frames are the same, but for the numbers of objects, are in the same state.
pub fn states_same_law()
    ensures { (shelf : Shelf) (vm other : Vm) → (same : AreSameWorlds shelf vm other) → AreSameFrames shelf same.renaming vm other
        → AreSame shelf vm other }
{
    files_law();
    constants_law();
}

/// A machine that is what the snapshot of another one stands for is in that one's state, but for the numbers of
/// objects.
pub fn loaded_law()
    ensures { (shelf : Shelf) (vm other : Vm) (s : Snapshot) → IsTabled shelf → HasNames shelf → IsVm shelf vm
        → IsSaved shelf vm → BeginsFirst vm → snapshot_in shelf vm ≡ s → StandsFor shelf s other
        → AreSame shelf vm other }
{
    program_law();
    code_law();
    rooms_law();
    frames_law();
    shown_law();
    files_law();
    constants_law();
}
