//! Items of values, by index or key.

ghost use Rattle.std.specs.Prelude.{◌≡◌, true, false};
ghost use Rattle.vm_states.specs.prim_names.arena_heap.declared.value.Value.{Value as Item};
ghost use Rattle.vm_states.specs.prim_names.prim_faults.Sights.{under};
ghost use Rattle.vm_states.specs.frame_values.Slots.{HasValue, HasNull};
ghost use Rattle.vm_states.specs.vm_fetching.declared.operations.ItemOp.TheVariants as item_ops;
ghost use Rattle.state_values.specs.Moving.{fetched_item};
ghost use Rattle.vm_states.specs.Acting.{RunsOver};
ghost use Rattle.state_values.specs.Keeping.{ActsKeeping};
ghost use Rattle.state_values.specs.Operands.{HasOperand, is_null as is_null_slot};

use crate::law::acting_law;
use arena_heap::{Arena, Constants};
use prim_faults::Stop;
use vm_frames::{Frames, Slot};
use vm_states::{ItemOp, tops_law};

/// Is the slot empty?
fn is_null(slot: Slot) -> bool
    ensures { result ≡ is_null_slot slot }
{
    match slot {
        Slot::Null => true,
        Slot::Value(_) => false,
        Slot::Object(_) => false,
        Slot::Iter { .. } => false,
        Slot::Return(_) => false,
        Slot::Jump { .. } => false,
    }
}

/// Whether the third slot is empty, and has no value.
fn lacks_third(frames: &Frames) -> bool
    requires { HasOperand 2 frames.now.calls }
    ensures null { result ≡ true → HasNull 2 frames.now.calls }
    ensures value { result ≡ false → (v : Item) × HasValue 2 v frames.now.calls }
{
    let third = frames.slot(2);
    is_null(third)
}

/// STORE_SUBSCR, where an item is set.
fn set_subscr<C: Constants>(
    frames: &mut Frames,
    arena: &mut Arena,
    consts: &C,
    end: u32,
) -> Result<(), Stop>
    requires runs { under C.Constants consts.now RunsOver arena.old frames.old (fetched_item item_ops.StoreSubscr end) }
    requires value { (v : Item) × HasValue 2 v frames.old.calls }
    ensures acts { under C.Constants consts.now ActsKeeping (fetched_item item_ops.StoreSubscr end) 0 arena.old arena.new frames.old frames.new result }
{
    acting_law();
    tops_law();
    frame_values::store_subscr(frames, arena, consts, end)
}

/// STORE_SUBSCR, where an item is deleted: no value lies below the object.
fn delete_subscr<C: Constants>(
    frames: &mut Frames,
    arena: &mut Arena,
    consts: &C,
    end: u32,
) -> Result<(), Stop>
    requires runs { under C.Constants consts.now RunsOver arena.old frames.old (fetched_item item_ops.StoreSubscr end) }
    requires no_value { HasNull 2 frames.old.calls }
    ensures acts { under C.Constants consts.now ActsKeeping (fetched_item item_ops.StoreSubscr end) 0 arena.old arena.new frames.old frames.new result }
{
    acting_law();
    tops_law();
    frame_values::delete_subscr(frames, arena, consts, end)
}

/// STORE_SUBSCR: an item is set, or deleted where no value lies below the object.
fn store_subscr<C: Constants>(
    frames: &mut Frames,
    arena: &mut Arena,
    consts: &C,
    end: u32,
) -> Result<(), Stop>
    requires runs { under C.Constants consts.now RunsOver arena.old frames.old (fetched_item item_ops.StoreSubscr end) }
    ensures acts { under C.Constants consts.now ActsKeeping (fetched_item item_ops.StoreSubscr end) 0 arena.old arena.new frames.old frames.new result }
{
    tops_law();
    if lacks_third(frames) {
        delete_subscr(frames, arena, consts, end)
    } else {
        set_subscr(frames, arena, consts, end)
    }
}

/// An item that is loaded, set or deleted, or put into a dict. It makes no visits.
pub fn item_on<C: Constants>(
    frames: &mut Frames,
    arena: &mut Arena,
    consts: &C,
    op: ItemOp,
    end: u32,
) -> Result<(), Stop>
    requires runs { under C.Constants consts.now RunsOver arena.old frames.old (fetched_item op end) }
    ensures acts { under C.Constants consts.now ActsKeeping (fetched_item op end) 0 arena.old arena.new frames.old frames.new result }
{
    acting_law();
    tops_law();
    match op {
        ItemOp::LoadSubscr => frame_values::load_subscr(frames, arena, consts, end),
        ItemOp::StoreSubscr => store_subscr(frames, arena, consts, end),
        ItemOp::StoreMap => frame_values::store_map(frames, arena, consts, end),
    }
}
