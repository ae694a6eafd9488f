//! Runs that were suspended, and that go on.

ghost use Rattle.std.specs.Prelude.{◌≡◌, ◌≢◌, ◌≤◌, ℕ, List, Ok, Option, Some};
ghost use Rattle.mpy_base.specs.declared.room.Room.{Room};
ghost use Rattle.mpy_io.specs.Files.{FileOf};
ghost use Rattle.mpy_io.specs.Ports.{PortView};
ghost use Rattle.port_set.specs.Calls.{Tell};
ghost use Rattle.port_set.specs.Counts.{AreAccounted};
ghost use Rattle.bc_library.specs.Shelf.{Shelf};
ghost use Rattle.library_runs.specs.vm_frames.bc_machine.Library.{Name};
ghost use Rattle.library_runs.specs.vm_starting.declared.opening.Vm.{Vm};
ghost use Rattle.library_runs.specs.declared.ending.RunEnd.{RunEnd};
ghost use Rattle.library_runs.specs.declared.ending.RunEnd.TheVariants as ends;
ghost use Rattle.library_runs.specs.Runs.{GoesOn, Sight};
ghost use Rattle.command_files.specs.Outside.{Outside};
ghost use Rattle.run_commands.specs.Ready.{RunLibrary};
ghost use Rattle.run_commands.specs.Resume.{HoldsState};
ghost use Rattle.run_commands.specs.Run.{FileLibrary};
ghost use Rattle.run_commands.specs.Save.{EndsRunTo};
ghost use Rattle.run_commands.specs.Suspended.{AreNamed, Front, IsRest, IsSuspendedRun, RefusesSnapshot, SavesRun};

use library_runs::accounted_law;
use snap_loading::{continues_law, loads_law};

/// What goes on from the snapshot of a suspended run is the rest of that run, over the ports as it left them. No such
/// snapshot is refused.
pub fn rest_law()
    ensures rest { (shelf : Shelf) (main : Name) (front : Front) (file : FileOf) (name snap : List ℕ) (vm : Vm)
        (steps : ℕ) (old new : Sight) (end : RunEnd) (said before : List ℕ) → IsSuspendedRun shelf main front snap
        → file name ≡ Some snap → HoldsState shelf (Some file) name vm → GoesOn shelf vm steps old new end said
        → end ≢ ends.NoMemory → AreAccounted old.ports new.ports → old.out ≡ Some before → Tell old.ports front.left
        → IsRest shelf main front steps old new end said }
    ensures accepted { (shelf : Shelf) (main : Name) (front : Front) (file : FileOf) (name snap : List ℕ)
        → IsSuspendedRun shelf main front snap → file name ≡ Some snap → RefusesSnapshot shelf file name → ⊥ }
{
    accounted_law();
    continues_law();
    loads_law();
}

/// A run that saves its state where it takes all its steps leaves the snapshot of a suspended run, where its room is
/// within the limits. No module that was loaded of files has an empty name.
pub fn leaves_law()
    ensures names { (files : FileOf) (name : List ℕ) (shelf : Shelf) → FileLibrary (Some files) name (Ok shelf)
        → AreNamed shelf }
    ensures leaves { (below : Shelf) (main : List ℕ) (saved : Option (List ℕ)) (room : Room) (steps : ℕ)
        (name : List ℕ) (old new : Outside) (ports_old ports_new : List PortView) (status : ℕ)
        → room.cells ≤ 4194304 → room.bytes ≤ 16777216
        → EndsRunTo saved (RunLibrary below main) room steps name old new ports_old ports_new status
        → SavesRun saved (RunLibrary below main) room steps name old new ports_old ports_new status }
{
    accounted_law();
}
