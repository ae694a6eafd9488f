//! Instructions that move frames alone, over an arena that stays.

ghost use Rattle.vm_states.specs.vm_fetching.Instructions as fetched;
ghost use Rattle.vm_states.specs.prim_names.prim_faults.Sights.{under};
ghost use Rattle.vm_states.specs.vm_fetching.declared.operations.LocalOp.TheVariants as local_ops;
ghost use Rattle.state_values.specs.Moving.{fetched_move};
ghost use Rattle.vm_states.specs.Acting.{RunsOver};
ghost use Rattle.state_values.specs.Keeping.{ActsKeeping};

use crate::jumping::{jump_on, jump_out};
use crate::law::acting_law;
use crate::loading::{load_constant, load_small, load_str};
use crate::slot_moves::move_slots;
use crate::storing::store_local;
use arena_heap::{Arena, Constants, StrNo, Value};
use prim_faults::Stop;
use vm_frames::Frames;
use vm_states::{LocalOp, MoveOp, tops_law};

/// An operation that moves slots.
pub fn move_on<C: Constants>(
    frames: &mut Frames,
    _arena: &Arena,
    _consts: &C,
    op: MoveOp,
    end: u32,
) -> Result<(), Stop>
    requires runs { under C.Constants _consts.now RunsOver _arena.now frames.old (fetched_move op end) }
    ensures acts { under C.Constants _consts.now ActsKeeping (fetched_move op end) 0 _arena.now _arena.now frames.old frames.new result }
{
    acting_law();
    move_slots(frames, op, end);
    Ok(())
}

/// STORE_FAST in one byte.
pub fn store_fast<C: Constants>(
    frames: &mut Frames,
    _arena: &Arena,
    _consts: &C,
    n: u32,
    end: u32,
) -> Result<(), Stop>
    requires runs { under C.Constants _consts.now RunsOver _arena.now frames.old (record { instruction = fetched.local local_ops.StoreFast n; end = end }) }
    ensures acts { under C.Constants _consts.now ActsKeeping (record {
      instruction = fetched.local local_ops.StoreFast n;
      end = end;
    }) 0 _arena.now _arena.now frames.old frames.new result }
{
    acting_law();
    tops_law();
    store_local(frames, LocalOp::StoreFast, n, end);
    Ok(())
}

/// STORE_FAST in more bytes.
pub fn store_fast_n<C: Constants>(
    frames: &mut Frames,
    _arena: &Arena,
    _consts: &C,
    n: u32,
    end: u32,
) -> Result<(), Stop>
    requires runs { under C.Constants _consts.now RunsOver _arena.now frames.old (record { instruction = fetched.local local_ops.StoreFastN n; end = end }) }
    ensures acts { under C.Constants _consts.now ActsKeeping (record {
      instruction = fetched.local local_ops.StoreFastN n;
      end = end;
    }) 0 _arena.now _arena.now frames.old frames.new result }
{
    acting_law();
    tops_law();
    store_local(frames, LocalOp::StoreFastN, n, end);
    Ok(())
}

/// A small integer.
pub fn load_int<C: Constants>(
    frames: &mut Frames,
    _arena: &Arena,
    _consts: &C,
    n: i32,
    end: u32,
) -> Result<(), Stop>
    requires runs { under C.Constants _consts.now RunsOver _arena.now frames.old (record { instruction = fetched.int n; end = end }) }
    ensures acts { under C.Constants _consts.now ActsKeeping
        (record { instruction = fetched.int n; end = end }) 0 _arena.now _arena.now frames.old frames.new result }
{
    acting_law();
    load_small(frames, n, end);
    Ok(())
}

/// A constant text.
pub fn load_text<C: Constants>(
    frames: &mut Frames,
    _arena: &Arena,
    _consts: &C,
    text: StrNo,
    end: u32,
) -> Result<(), Stop>
    requires runs { under C.Constants _consts.now RunsOver _arena.now frames.old (record {
      instruction = fetched.text text;
      end = end;
    }) }
    ensures acts { under C.Constants _consts.now ActsKeeping (record {
      instruction = fetched.text text;
      end = end;
    }) 0 _arena.now _arena.now frames.old frames.new result }
{
    acting_law();
    load_str(frames, text, end);
    Ok(())
}

/// A constant of the module.
pub fn load_object<C: Constants>(
    frames: &mut Frames,
    _arena: &Arena,
    _consts: &C,
    v: Value,
    end: u32,
) -> Result<(), Stop>
    requires runs { under C.Constants _consts.now RunsOver _arena.now frames.old (record { instruction = fetched.object v; end = end }) }
    ensures acts { under C.Constants _consts.now ActsKeeping
        (record { instruction = fetched.object v; end = end }) 0 _arena.now _arena.now frames.old frames.new result }
{
    acting_law();
    load_constant(frames, v, end);
    Ok(())
}

/// JUMP.
pub fn jump<C: Constants>(
    frames: &mut Frames,
    _arena: &Arena,
    _consts: &C,
    target: u32,
    end: u32,
) -> Result<(), Stop>
    requires runs { under C.Constants _consts.now RunsOver _arena.now frames.old (record { instruction = fetched.jump target; end = end }) }
    ensures acts { under C.Constants _consts.now ActsKeeping (record {
      instruction = fetched.jump target;
      end = end;
    }) 0 _arena.now _arena.now frames.old frames.new result }
{
    acting_law();
    jump_on(frames, target, end);
    Ok(())
}

/// UNWIND_JUMP.
pub fn unwind_jump<C: Constants>(
    frames: &mut Frames,
    _arena: &Arena,
    _consts: &C,
    target: u32,
    byte: u8,
    end: u32,
) -> Result<(), Stop>
    requires runs { under C.Constants _consts.now RunsOver _arena.now frames.old (record { instruction = fetched.unwind target byte; end = end }) }
    ensures acts { under C.Constants _consts.now ActsKeeping (record {
      instruction = fetched.unwind target byte;
      end = end;
    }) 0 _arena.now _arena.now frames.old frames.new result }
{
    acting_law();
    jump_out(frames, target, byte, end);
    Ok(())
}
