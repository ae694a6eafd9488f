//! What a run's machine is saved as is a state of its library.

ghost use Rattle.std.specs.Prelude.{◌<◌, ◌≤◌, length};
ghost use Rattle.mpy_base.specs.declared.limits.TheConstants.{MAX_CALLS};
ghost use Rattle.bc_library.specs.Shelf.{Shelf};
ghost use Rattle.vm_starting.specs.declared.opening.Vm.{Vm};
ghost use Rattle.vm_machine.specs.Machine.{IsVm};
ghost use Rattle.snap_states.specs.States.{AreFineObjects, AreRegisteredParts, HasRoom};
ghost use Rattle.snap_loading.specs.Saved.{IsRoomy, IsSaved, snapshot_in};
ghost use Rattle.snap_loading.specs.Given.{HasNames, IsTabled};

use bc_rows::rows_law;
use vm_starting::{names_law, program_law};

/// In the snapshot of a machine that keeps what a run keeps, the objects fit the room and what is used of it, the
/// registered modules are modules whose names differ, and there are frames, but no more than may be.
pub fn saved_law()
    ensures room { (shelf : Shelf) (vm : Vm) → IsVm shelf vm → IsSaved shelf vm → HasRoom (snapshot_in shelf vm) }
    ensures registered { (shelf : Shelf) (vm : Vm) → IsVm shelf vm → IsSaved shelf vm → AreRegisteredParts (snapshot_in shelf vm) }
    ensures some_frames { (shelf : Shelf) (vm : Vm) → IsVm shelf vm → IsSaved shelf vm → 0 < length (snapshot_in shelf vm).frames }
    ensures few_frames { (shelf : Shelf) (vm : Vm) → IsSaved shelf vm → length (snapshot_in shelf vm).frames ≤ MAX_CALLS }
{
    program_law();
}

/// The objects of that snapshot are those of a state of the library.
pub fn objects_law()
    ensures { (shelf : Shelf) (vm : Vm) → IsTabled shelf → HasNames shelf → IsVm shelf vm → IsSaved shelf vm
        → IsRoomy vm.arena.objects → AreFineObjects shelf (snapshot_in shelf vm) }
{
    program_law();
    names_law();
    rows_law();
}
