//! A run that was suspended goes on as if it hadn't been.

ghost use Rattle.bc_library.specs.Shelf.{Shelf};
ghost use Rattle.bc_machine.specs.Library.{Library};
ghost use Rattle.bc_machine.specs.State.{State};
ghost use Rattle.vm_starting.specs.vm_states.Means.{Program};
ghost use Rattle.vm_starting.specs.Programs.{IsProgramOf};
ghost use Rattle.vm_starting.specs.declared.opening.Vm.{Vm};
ghost use Rattle.snap_laws.specs.Kept.{IsPaid};
ghost use Rattle.snap_laws.specs.Renamed.{Renaming};
ghost use Rattle.snap_laws.specs.States.{IsState, KeepsConstants};
ghost use Rattle.snap_loading.specs.Resumed.{AreSame, ResumesAs};

use bc_machine::{output_law, runs_law};
use snap_laws::{states_law, step_law};

/// Where a machine is in the state of another, but for the numbers of objects, its steps are the rest of the other's run: it prints,
/// tells the ports and ends as that one does behind as many steps more.
pub fn resumes_law()
    ensures { (shelf : Shelf) (vm other : Vm) → AreSame shelf vm other → (p : Program) → IsProgramOf shelf p → ResumesAs p vm other }
{
    runs_law();
    output_law();
    step_law();
    states_law();
}

/// What is paid in a state (`IsPaid`) is paid in each that differs from it by the numbers of its objects alone.
pub fn paid_too_law()
    ensures { (r : Renaming) (library : Library) (s t : State) → KeepsConstants r library → IsState r s t → IsPaid library s → IsPaid library t }
{
    step_law();
}
