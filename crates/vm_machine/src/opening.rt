//! Runs that are opened.

ghost use Rattle.std.specs.Prelude.{◌≡◌, ◌<◌, List, IfOk, length};
ghost use Rattle.mpy_base.specs.Weights.{used as cells_used};
ghost use Rattle.mpy_base.specs.World.{PortState};
ghost use Rattle.state_steps.specs.vm_frames.bc_machine.Library.{Name};
ghost use Rattle.state_steps.specs.vm_frames.bc_machine.Machine.{start};
ghost use Rattle.state_steps.specs.vm_frames.py_effects.Ends.{new_world};
ghost use Rattle.vm_starting.specs.vm_states.Means.{Program};
ghost use Rattle.vm_starting.specs.Programs.{IsProgramOf};
ghost use Rattle.vm_machine.specs.Machine.{IsVm, machine_of};

use crate::names::module_names;
use bc_library::{Library, library_law};
use mpy_base::{NoMemory, Room};
use std::alloc::Global;
use vm_at_once::Rows;
use vm_kept::{begins_law, registered_law};
use vm_starting::{Vm, runnable_law};

/// A run of the library whose main module has this number, in an arena of this room. It takes all its memory here. Where the main
/// module doesn't fit, it has ended for want of room.
pub fn open(
    alloc: Global,
    library: &Library,
    rows: &Rows<'_>,
    number: u32,
    room: Room,
) -> Result<Vm, NoMemory>
    requires rows { rows.now ≡ library.now }
    requires there { number < length library.now.modules }
    ensures starts { IfOk result (λ vm. (p : Program) (name : Name) (ports : List PortState) → IsProgramOf library.now p → p.tables.module_name number ≡ name
        → start p.library name (new_world room.cells room.bytes ports) ≡ machine_of p vm (new_world room.cells room.bytes ports)) }
    ensures vm { IfOk result (IsVm library.now) }
    ensures paid { IfOk result (λ vm. vm.paid ≡ 0) }
{
    registered_law();
    begins_law();
    library_law(library);
    runnable_law(library);
    let names = module_names(alloc, library)?;
    match Vm::open(alloc, library, rows, names, number, room) {
        Ok(vm) => Ok(vm),
        Err(refused) => Err(refused),
    }
}

/// The room that the run's objects use.
pub fn used(vm: &Vm) -> Room
    ensures cells { result.cells ≡ cells_used vm.now.arena }
    ensures bytes { result.bytes ≡ vm.now.arena.bytes }
{
    vm.arena.used()
}
