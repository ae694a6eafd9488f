//! Operations on iterators, as they were fetched for calls of a program.

ghost use Rattle.vm_states.specs.vm_fetching.Instructions as fetched;
ghost use Rattle.vm_states.specs.prim_names.prim_faults.Sights.{under};
ghost use Rattle.state_values.specs.Moving.{fetched_iterate};
ghost use Rattle.vm_states.specs.Acting.{RunsOver};
ghost use Rattle.state_values.specs.Keeping.{ActsKeeping};

use crate::law::acting_law;
use arena_heap::{Arena, Constants};
use prim_faults::Stop;
use vm_frames::Frames;
use vm_states::tops_law;

/// GET_ITER_STACK.
pub fn get_iter_stack<C: Constants>(
    frames: &mut Frames,
    arena: &Arena,
    consts: &C,
    end: u32,
) -> Result<(), Stop>
    requires runs { under C.Constants consts.now RunsOver arena.now frames.old (fetched_iterate end) }
    ensures acts { under C.Constants consts.now ActsKeeping (fetched_iterate end) 0 arena.now arena.now frames.old frames.new result }
{
    acting_law();
    tops_law();
    frame_values::get_iter_stack(frames, arena, consts, end)
}

/// FOR_ITER.
pub fn for_iter<C: Constants>(
    frames: &mut Frames,
    arena: &mut Arena,
    consts: &C,
    target: u32,
    end: u32,
) -> Result<(), Stop>
    requires runs { under C.Constants consts.now RunsOver arena.old frames.old (record { instruction = fetched.for_iter target; end = end }) }
    ensures acts { under C.Constants consts.now ActsKeeping (record {
      instruction = fetched.for_iter target;
      end = end;
    }) 0 arena.old arena.new frames.old frames.new result }
{
    acting_law();
    tops_law();
    frame_values::for_iter(frames, arena, consts, target, end)
}
