//! Iterators, and the truth of values.

ghost use Rattle.std.specs.Prelude.{◌≡◌, ℕ, ◌+◌, ◌<◌, ◌≤◌, length, suc, IsSome, Ok};
ghost use Rattle.frame_moves.specs.mpy_base.Val.{PlainWorld};
ghost use Rattle.frame_moves.specs.bc_ops.declared.instr.Op.TheVariants as ops;
ghost use Rattle.frame_moves.specs.bc_ops.declared.instr.Instr.TheVariants as instrs;
ghost use Rattle.prim_names.specs.arena_heap.declared.value.Value.{Value as Item};
ghost use Rattle.prim_names.specs.arena_heap.Values.{Leads};
ghost use Rattle.prim_names.specs.prim_types.py_primitives.Iterables.{items_in, length_of as length_in};
ghost use Rattle.prim_names.specs.prim_faults.Sights.{under, sight, Tells, TellsAll};
ghost use Rattle.frame_moves.specs.vm_frames.Calls.{OfRunning, on_running};
ghost use Rattle.frame_moves.specs.bc_machine.Library.{Plain, Jumps};
ghost use Rattle.frame_moves.specs.Shown.{Tests};
ghost use Rattle.frame_moves.specs.Outcomes.{world_of};
ghost use Rattle.frame_values.specs.Effects.{Layout, tables_of, Steps, JumpSteps, Leaves};
ghost use Rattle.frame_values.specs.Slots.{HasKnown, HasIterator, IsIterator, without, Puts, with_iterator, with_item};

use crate::slots::{drop_slots, value_at};
use crate::values::{begin_iterator, put_item};
use arena_heap::{Arena, Constants, Value};
use frame_moves::{Frames, Slot};
use prim_operators::{
    Stop, item_count, item_of, items_law, length_of, text_bytes, truth, use_iter,
};

/// The truth of the top value, by which the tests jump.
pub fn top_truth<C: Constants>(frames: &Frames, arena: &Arena, consts: &C) -> bool
    requires { under C.Constants consts.now HasKnown arena.now.objects 0 frames.now.calls }
    ensures { (layout : Layout) (w : PlainWorld)
        → let tables = under C.Constants consts.now tables_of layout in Tests tables (world_of tables w arena.now) result frames.now.calls }
{
    let v = value_at(frames, arena, consts, 0);
    truth(arena, consts, v)
}

/// GET_ITER_STACK.
pub fn get_iter_stack<C: Constants>(
    frames: &mut Frames,
    arena: &Arena,
    consts: &C,
    end: u32,
) -> Result<(), Stop>
    requires room { OfRunning (λ c. length c.slots + 3 < frames.old.slot_room + 1) frames.old.calls }
    requires iterable { under C.Constants consts.now HasKnown arena.now.objects 0 frames.old.calls }
    requires all_told { TellsAll C.Constants consts.now arena.now }
    ensures steps { under C.Constants consts.now Steps
        (Plain (instrs.Plain ops.GetIterStack)) 0 end arena.now arena.now frames.old.calls frames.new.calls result }
    ensures moved { under C.Constants consts.now Puts arena.now.objects (with_iterator end) frames.old frames.new result }
    ensures leaves { under C.Constants consts.now Leaves arena.now arena.now result }
{
    let v = value_at(frames, arena, consts, 0);
    let given = use_iter(arena, consts, v);
    begin_iterator(frames, given, end)
}

/// What the iterator on top goes over, and its place.
fn iterator_at<C: Constants>(frames: &Frames, _arena: &Arena, _consts: &C) -> (Value, u32)
    requires { under C.Constants _consts.now HasIterator _arena.now.objects frames.now.calls }
    ensures there { IsIterator result.0 result.1 frames.now.calls }
    ensures leads { Leads _arena.now.objects result.0 }
    ensures told { Tells C.Constants _consts.now result.0 }
{
    match frames.slot(0) {
        Slot::Iter { over, at, .. } => (over, at),
        _ => unreachable!(),
    }
}

/// How many items an iterable has.
fn count_of<C: Constants>(arena: &Arena, consts: &C, over: Value) -> u32
    requires leads { Leads arena.now.objects over }
    requires told { Tells C.Constants consts.now over }
    requires iterable { let see = sight C.Constants consts.now in IsSome (items_in (see.heap arena.now) (see.value over)) }
    ensures { let see = sight C.Constants consts.now in result ≡ length_in (see.heap arena.now) (see.value over) }
{
    items_law(arena, consts, over);
    match over {
        Value::Str(_) | Value::Text(_) => text_bytes(arena, consts, over).len() as u32,
        _ => item_count(arena, consts, over),
    }
}

/// The place behind one that is there.
#[tactic(auto, using(crate::proofs::Iterating::iterable_within))]
fn next_place<C: Constants>(arena: &Arena, consts: &C, over: Value, at: u32) -> u32
    requires leads { Leads arena.now.objects over }
    requires told { Tells C.Constants consts.now over }
    requires within { let see = sight C.Constants consts.now in at < length_in (see.heap arena.now) (see.value over) }
    ensures { result ≡ suc at }
{
    let _count = count_of(arena, consts, over);
    at + 1
}

/// FOR_ITER. The target is an offset.
pub fn for_iter<C: Constants>(
    frames: &mut Frames,
    arena: &mut Arena,
    consts: &C,
    target: u32,
    end: u32,
) -> Result<(), Stop>
    requires iterator { under C.Constants consts.now HasIterator arena.old.objects frames.old.calls }
    requires slots { OfRunning (λ c. 4 ≤ length c.slots) frames.old.calls }
    requires room { OfRunning (λ c. length c.slots < frames.old.slot_room) frames.old.calls }
    requires all_told { TellsAll C.Constants consts.now arena.old }
    ensures steps { under C.Constants consts.now JumpSteps (Jumps ops.ForIter) target end arena.old arena.new frames.old.calls frames.new.calls result }
    ensures item { let see = sight C.Constants consts.now in (over : Item) (at : ℕ) → IsIterator over at frames.old.calls
        → at < length_in (see.heap arena.old) (see.value over)
        → Puts see.texts see.tuples arena.new.objects (with_item end over (suc at)) frames.old frames.new result }
    ensures ended { let see = sight C.Constants consts.now in (over : Item) (at : ℕ) → IsIterator over at frames.old.calls
        → length_in (see.heap arena.old) (see.value over) ≤ at
        → (result ≡ Ok tt) × (frames.new ≡ on_running (without target 4) frames.old) }
    ensures leaves { under C.Constants consts.now Leaves arena.old arena.new result }
{
    let (over, at) = iterator_at(frames, arena, consts);
    if (at as usize) < length_of(arena, consts, over) {
        let next = next_place(arena, consts, over, at);
        let given = item_of(arena, consts, over, at as usize);
        put_item(frames, over, next, given, end)
    } else {
        drop_slots(frames, 4);
        frames.set_offset(target);
        Ok(())
    }
}
