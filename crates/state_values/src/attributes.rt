//! Operations on attributes.

ghost use Rattle.vm_states.specs.prim_names.prim_faults.Sights.{under};
ghost use Rattle.vm_states.specs.vm_fetching.Instructions as fetched;
ghost use Rattle.vm_states.specs.Acting.{RunsOver};
ghost use Rattle.state_values.specs.Keeping.{ActsKeeping};

use crate::law::acting_law;
use arena_heap::{Arena, Constants, StrNo};
use prim_faults::Stop;
use vm_frames::Frames;
use vm_states::{AttributeOp, tops_law};

/// An attribute of a value. It makes no visits.
pub fn attribute_on<C: Constants>(
    frames: &mut Frames,
    arena: &mut Arena,
    consts: &C,
    op: AttributeOp,
    name: StrNo,
    end: u32,
) -> Result<(), Stop>
    requires runs { under C.Constants consts.now RunsOver arena.old frames.old (record { instruction = fetched.attribute op name; end = end }) }
    ensures acts { under C.Constants consts.now ActsKeeping (record { instruction = fetched.attribute op name; end = end }) 0 arena.old arena.new frames.old frames.new result }
{
    acting_law();
    tops_law();
    match op {
        AttributeOp::LoadAttr => frame_values::load_attr(frames, arena, consts, name, end),
        AttributeOp::LoadMethod => frame_values::load_method(frames, arena, consts, name, end),
        AttributeOp::StoreAttr => frame_values::store_attr(frames, arena, consts, name, end),
        AttributeOp::ImportFrom => frame_values::import_from(frames, arena, consts, name, end),
    }
}
