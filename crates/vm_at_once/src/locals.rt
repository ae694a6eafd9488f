//! Locals that are loaded and stored.

ghost use Rattle.std.specs.Prelude.{◌<◌, length};
ghost use Rattle.state_values.specs.bc_progress.bc_ops.declared.instr.Op.TheVariants as ops;
ghost use Rattle.state_values.specs.bc_progress.bc_ops.declared.instr.Instr.TheVariants as instrs;
ghost use Rattle.state_values.specs.bc_progress.bc_machine.Library.{Plain};
ghost use Rattle.state_values.specs.prim_assignments.prim_faults.Sights.{under, TellsAll};
ghost use Rattle.state_values.specs.vm_frames.Calls.{OfRunning};
ghost use Rattle.state_values.specs.vm_fetching.Instructions as fetched;
ghost use Rattle.state_values.specs.vm_fetching.declared.operations.LocalOp.TheVariants as local_ops;
ghost use Rattle.state_values.specs.frame_values.Effects.{Steps, Leaves};
ghost use Rattle.state_values.specs.frame_values.Slots.{Puts, HasLocal, with_value};
ghost use Rattle.state_values.specs.vm_states.Acting.{RunsOver};
ghost use Rattle.vm_at_once.specs.AtOnce.{ActsAtOnce};

use crate::doing::{done, go_with};
use arena_heap::{Arena, Constants};
use prim_faults::Stop;
use state_values::{LocalOp, acting_law, assigned, store_fast, store_fast_n};
use vm_frames::{Frames, Slot};

/// LOAD_FAST, in one byte or in more, as `state_values::load_fast` does it.
#[inline(always)]
fn load<C: Constants>(
    frames: &mut Frames,
    arena: &Arena,
    consts: &C,
    n: u32,
    end: u32,
) -> Result<(), Stop>
    requires room { OfRunning (λ c. length c.slots < frames.old.slot_room) frames.old.calls }
    requires local { under C.Constants consts.now HasLocal arena.now.objects n frames.old.calls }
    requires all_told { TellsAll C.Constants consts.now arena.now }
    ensures short { under C.Constants consts.now Steps (Plain (instrs.Num ops.LoadFast n)) 0 end arena.now arena.now frames.old.calls frames.new.calls result }
    ensures long { under C.Constants consts.now Steps (Plain (instrs.Num ops.LoadFastN n)) 0 end arena.now arena.now frames.old.calls frames.new.calls result }
    ensures moved { under C.Constants consts.now Puts arena.now.objects (with_value end 0) frames.old frames.new result }
    ensures leaves { under C.Constants consts.now Leaves arena.now arena.now result }
{
    let local = frames.local(n);
    match assigned(arena, consts, local) {
        Ok(v) => {
            go_with(frames, Slot::Value(v), end);
            Ok(())
        }
        Err(stop) => Err(stop),
    }
}

/// LOAD_FAST in one byte.
#[inline(always)]
fn load_short<C: Constants>(
    frames: &mut Frames,
    arena: &Arena,
    consts: &C,
    n: u32,
    end: u32,
) -> Option<u64>
    requires runs { under C.Constants consts.now RunsOver arena.now frames.old (record { instruction = fetched.local local_ops.LoadFast n; end = end }) }
    ensures { under C.Constants consts.now ActsAtOnce (record {
      instruction = fetched.local local_ops.LoadFast n;
      end = end;
    }) arena.now frames.old frames.new result }
{
    acting_law();
    done(load(frames, arena, consts, n, end))
}

/// LOAD_FAST in more bytes.
#[inline(always)]
fn load_long<C: Constants>(
    frames: &mut Frames,
    arena: &Arena,
    consts: &C,
    n: u32,
    end: u32,
) -> Option<u64>
    requires runs { under C.Constants consts.now RunsOver arena.now frames.old (record { instruction = fetched.local local_ops.LoadFastN n; end = end }) }
    ensures { under C.Constants consts.now ActsAtOnce (record {
      instruction = fetched.local local_ops.LoadFastN n;
      end = end;
    }) arena.now frames.old frames.new result }
{
    acting_law();
    done(load(frames, arena, consts, n, end))
}

/// An operation on a local: it is carried out, but for a deletion.
#[inline(always)]
pub(crate) fn local_at_once<C: Constants>(
    frames: &mut Frames,
    arena: &Arena,
    consts: &C,
    op: LocalOp,
    n: u32,
    end: u32,
) -> Option<u64>
    requires runs { under C.Constants consts.now RunsOver arena.now frames.old (record { instruction = fetched.local op n; end = end }) }
    ensures { under C.Constants consts.now ActsAtOnce (record { instruction = fetched.local op n; end = end }) arena.now frames.old frames.new result }
{
    match op {
        LocalOp::LoadFast => load_short(frames, arena, consts, n, end),
        LocalOp::LoadFastN => load_long(frames, arena, consts, n, end),
        LocalOp::StoreFast => done(store_fast(frames, arena, consts, n, end)),
        LocalOp::StoreFastN => done(store_fast_n(frames, arena, consts, n, end)),
        LocalOp::DeleteFast => None,
    }
}
