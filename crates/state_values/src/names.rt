//! Operations on the names of a module.

ghost use Rattle.vm_states.specs.prim_names.prim_faults.Sights.{under};
ghost use Rattle.vm_states.specs.vm_fetching.Instructions as fetched;
ghost use Rattle.vm_states.specs.Acting.{RunsOver};
ghost use Rattle.state_values.specs.Keeping.{ActsKeeping};

use crate::law::acting_law;
use arena_heap::{Arena, Constants, StrNo};
use prim_faults::Stop;
use vm_frames::Frames;
use vm_states::{NameOp, tops_law};

/// A name of the running call's module. It makes no visits.
pub fn name_on<C: Constants>(
    frames: &mut Frames,
    arena: &mut Arena,
    consts: &C,
    op: NameOp,
    name: StrNo,
    end: u32,
) -> Result<(), Stop>
    requires runs { under C.Constants consts.now RunsOver arena.old frames.old (record { instruction = fetched.name op name; end = end }) }
    ensures acts { under C.Constants consts.now ActsKeeping (record { instruction = fetched.name op name; end = end }) 0 arena.old arena.new frames.old frames.new result }
{
    acting_law();
    tops_law();
    match op {
        NameOp::LoadName => frame_values::load_name(frames, arena, consts, name, end),
        NameOp::LoadGlobal => frame_values::load_name(frames, arena, consts, name, end),
        NameOp::StoreName => frame_values::store_name(frames, arena, consts, name, end),
        NameOp::StoreGlobal => frame_values::store_name(frames, arena, consts, name, end),
        NameOp::DeleteName => frame_values::delete_name(frames, arena, consts, name, end),
        NameOp::DeleteGlobal => frame_values::delete_name(frames, arena, consts, name, end),
    }
}
