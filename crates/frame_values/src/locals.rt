//! Instructions that load and delete the locals of the running call.

ghost use Rattle.std.specs.Prelude.{◌<◌, length};
ghost use Rattle.frame_moves.specs.bc_ops.declared.instr.Op.TheVariants as ops;
ghost use Rattle.frame_moves.specs.bc_ops.declared.instr.Instr.TheVariants as instrs;
ghost use Rattle.prim_names.specs.prim_faults.Sights.{under, TellsAll};
ghost use Rattle.frame_moves.specs.vm_frames.Calls.{OfRunning};
ghost use Rattle.frame_moves.specs.bc_machine.Library.{Plain};
ghost use Rattle.frame_values.specs.Effects.{Steps, Leaves};
ghost use Rattle.frame_values.specs.Slots.{Puts, HasLocal, Changes, with_value, with_empty};

use crate::slots::{empty, local_at, put};
use arena_heap::{Arena, Constants};
use frame_moves::Frames;
use prim_names::assigned;
use prim_operators::Stop;

/// LOAD_FAST, in one byte or in more.
pub fn load_fast<C: Constants>(
    frames: &mut Frames,
    arena: &Arena,
    consts: &C,
    n: u32,
    end: u32,
) -> Result<(), Stop>
    requires room { OfRunning (λ c. length c.slots < frames.old.slot_room) frames.old.calls }
    requires local { under C.Constants consts.now HasLocal arena.now.objects n frames.old.calls }
    requires all_told { TellsAll C.Constants consts.now arena.now }
    ensures short { under C.Constants consts.now Steps (Plain (instrs.Num ops.LoadFast n)) 0 end arena.now arena.now frames.old.calls frames.new.calls result }
    ensures long { under C.Constants consts.now Steps (Plain (instrs.Num ops.LoadFastN n)) 0 end arena.now arena.now frames.old.calls frames.new.calls result }
    ensures moved { under C.Constants consts.now Puts arena.now.objects (with_value end 0) frames.old frames.new result }
    ensures leaves { under C.Constants consts.now Leaves arena.now arena.now result }
{
    let local = local_at(frames, arena, consts, n);
    let given = assigned(arena, consts, local);
    put(frames, 0, given, end)
}

/// DELETE_FAST.
pub fn delete_fast<C: Constants>(
    frames: &mut Frames,
    arena: &Arena,
    consts: &C,
    n: u32,
    end: u32,
) -> Result<(), Stop>
    requires local { under C.Constants consts.now HasLocal arena.now.objects n frames.old.calls }
    requires all_told { TellsAll C.Constants consts.now arena.now }
    ensures steps { under C.Constants consts.now Steps
        (Plain (instrs.Num ops.DeleteFast n)) 0 end arena.now arena.now frames.old.calls frames.new.calls result }
    ensures moved { Changes (with_empty n end) frames.old frames.new result }
    ensures leaves { under C.Constants consts.now Leaves arena.now arena.now result }
{
    let local = local_at(frames, arena, consts, n);
    let given = assigned(arena, consts, local);
    empty(frames, n, given, end)
}
