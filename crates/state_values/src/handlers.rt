//! Handlers that are set up and left.

ghost use Rattle.vm_states.specs.prim_names.prim_faults.Sights.{under};
ghost use Rattle.vm_states.specs.vm_fetching.Instructions as fetched;
ghost use Rattle.vm_states.specs.Acting.{RunsOver};
ghost use Rattle.state_values.specs.Keeping.{ActsKeeping};

use crate::jumping::{begin_except, begin_finally, end_except};
use crate::law::acting_law;
use arena_heap::{Arena, Constants};
use prim_faults::Stop;
use vm_frames::Frames;
use vm_states::HandlerOp;

/// A handler that is set up or left. The target is an offset. It makes no visits.
pub fn handle_on<C: Constants>(
    frames: &mut Frames,
    _arena: &Arena,
    _consts: &C,
    op: HandlerOp,
    target: u32,
    end: u32,
) -> Result<(), Stop>
    requires runs { under C.Constants _consts.now RunsOver _arena.now frames.old (record { instruction = fetched.handle op target; end = end }) }
    ensures acts { under C.Constants _consts.now ActsKeeping (record { instruction = fetched.handle op target; end = end }) 0 _arena.now _arena.now frames.old frames.new result }
{
    acting_law();
    match op {
        HandlerOp::SetupExcept => {
            begin_except(frames, target, end);
            Ok(())
        }
        HandlerOp::SetupFinally => {
            begin_finally(frames, target, end);
            Ok(())
        }
        HandlerOp::PopExceptJump => {
            end_except(frames, target, end);
            Ok(())
        }
    }
}
