//! Jumps that test a bool.

ghost use Rattle.state_values.specs.prim_assignments.prim_faults.Sights.{under};
ghost use Rattle.state_values.specs.vm_fetching.Instructions as fetched;
ghost use Rattle.state_values.specs.vm_states.Acting.{RunsOver};
ghost use Rattle.vm_at_once.specs.AtOnce.{ActsAtOnce};

use arena_heap::{Arena, Constants, Value};
use state_values::{TestOp, acting_law, jump_by, tops_law};
use vm_frames::{Frames, Slot};

/// A jump that tests the top value, where that is a bool.
#[inline(always)]
pub(crate) fn test_at_once<C: Constants>(
    frames: &mut Frames,
    _arena: &Arena,
    _consts: &C,
    op: TestOp,
    target: u32,
    end: u32,
) -> Option<u64>
    requires runs { under C.Constants _consts.now RunsOver _arena.now frames.old (record { instruction = fetched.test op target; end = end }) }
    ensures { under C.Constants _consts.now ActsAtOnce (record { instruction = fetched.test op target; end = end }) _arena.now frames.old frames.new result }
{
    acting_law();
    tops_law();
    match frames.slot(0) {
        Slot::Value(v) => match v {
            Value::Bool(truth) => {
                jump_by(frames, op, truth, target, end);
                Some(0)
            }
            _ => None,
        },
        _ => None,
    }
}
