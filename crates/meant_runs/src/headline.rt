//! The run of a library of files prints and ends as its program means.

ghost use Rattle.std.specs.Prelude.{◌≡◌, ℕ, List, Some};
ghost use Rattle.library_runs.specs.mpy_base.declared.room.Room.{Room};
ghost use Rattle.library_runs.specs.mpy_base.World.{PortState};
ghost use Rattle.library_runs.specs.port_set.Calls.{Tell};
ghost use Rattle.library_runs.specs.port_set.Counts.{AreAccounted};
ghost use Rattle.library_runs.specs.bc_library.Shelf.{Shelf};
ghost use Rattle.trans_laws.specs.bc_scheme.py_meaning.Program.{Program};
ghost use Rattle.meant_runs.specs.Units.{AreUnits};
ghost use Rattle.library_runs.specs.declared.ending.RunEnd.{RunEnd};
ghost use Rattle.library_runs.specs.Runs.{Sight, RunsAs};
ghost use Rattle.meant_runs.specs.Meant.{EndsAsMeant};

use crate::runs::runs_law;
use library_runs::accounted_law;

/// The run of the main module of a library that has a program's units prints and ends as the program means, and stops earlier only at
/// its last step or where the sink of its output fails: in any room, for any number of steps, and with any ports of which each tells
/// its faults.
pub fn meant_law()
    ensures { (program : Program) (shelf : Shelf) (room : Room) (steps : ℕ) (old new : Sight) (end : RunEnd) (said : List ℕ)
        → AreUnits program shelf → RunsAs shelf program.main_name room steps old new end said → AreAccounted old.ports new.ports
        → (ports : List PortState) (printed : List ℕ) → old.out ≡ Some printed → Tell old.ports ports
        → EndsAsMeant program room steps ports old new end said }
{
    runs_law();
    accounted_law();
}
