//! Operations on locals.

ghost use Rattle.vm_states.specs.prim_names.prim_faults.Sights.{under};
ghost use Rattle.vm_states.specs.vm_fetching.Instructions as fetched;
ghost use Rattle.vm_states.specs.Acting.{RunsOver};
ghost use Rattle.state_values.specs.Keeping.{ActsKeeping};

use crate::law::acting_law;
use crate::moving::{store_fast, store_fast_n};
use arena_heap::{Arena, Constants};
use prim_faults::Stop;
use vm_frames::Frames;
use vm_states::LocalOp;

/// A local that is loaded, stored or deleted. It makes no visits.
pub fn local_on<C: Constants>(
    frames: &mut Frames,
    arena: &mut Arena,
    consts: &C,
    op: LocalOp,
    n: u32,
    end: u32,
) -> Result<(), Stop>
    requires runs { under C.Constants consts.now RunsOver arena.old frames.old (record { instruction = fetched.local op n; end = end }) }
    ensures acts { under C.Constants consts.now ActsKeeping (record { instruction = fetched.local op n; end = end }) 0 arena.old arena.new frames.old frames.new result }
{
    acting_law();
    match op {
        LocalOp::LoadFast => frame_values::load_fast(frames, arena, consts, n, end),
        LocalOp::LoadFastN => frame_values::load_fast(frames, arena, consts, n, end),
        LocalOp::StoreFast => store_fast(frames, arena, consts, n, end),
        LocalOp::StoreFastN => store_fast_n(frames, arena, consts, n, end),
        LocalOp::DeleteFast => frame_values::delete_fast(frames, arena, consts, n, end),
    }
}
