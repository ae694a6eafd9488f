//! Iterators over lists and ranges.

ghost use Rattle.std.specs.Prelude.{◌≡◌, ◌<◌, ◌≤◌, length, drop, suc, Ok, IfSome, slice_set};
ghost use Rattle.state_values.specs.prim_assignments.arena_heap.Values.{Leads};
ghost use Rattle.state_values.specs.bc_progress.py_primitives.Iterables.{item_of as item_in, length_of as length_in};
ghost use Rattle.state_values.specs.prim_assignments.prim_faults.Outcomes.{IsOutcome};
ghost use Rattle.state_values.specs.prim_assignments.prim_faults.Sights.{under, sight, Tells, TellsAll};
ghost use Rattle.state_values.specs.vm_frames.declared.slot.Slot.TheVariants as slots;
ghost use Rattle.state_values.specs.vm_frames.Calls.{OfRunning, on_running};
ghost use Rattle.state_values.specs.prim_assignments.prim_operators.Operands.{HasItems, IsNested};
ghost use Rattle.state_values.specs.frame_values.Slots.{IsIterator, iterator_over, with_item};
ghost use Rattle.state_values.specs.vm_fetching.Instructions as fetched;
ghost use Rattle.state_values.specs.vm_states.Acting.{RunsOver};
ghost use Rattle.vm_at_once.specs.AtOnce.{ActsAtOnce};

use crate::doing::go_with;
use arena_heap::{Arena, Constants, Value};
use arena_objects::{item_at, item_count};
use state_values::{acting_law, tops_law};
use vm_frames::{Frames, Slot};

/// What the iterator on top goes over, and its place.
#[inline(always)]
fn iterator_on_top(frames: &Frames) -> Option<(Value, u32)>
    requires { OfRunning (λ c. 0 < length c.slots) frames.now.calls }
    ensures { IfSome result (λ it. IsIterator it.0 it.1 frames.now.calls) }
{
    match frames.slot(0) {
        Slot::Iter { over, at, .. } => Some((over, at)),
        _ => None,
    }
}

/// The item at a place, if there is one, and the place behind it.
#[inline(always)]
fn item_from<C: Constants>(arena: &Arena, consts: &C, over: Value, at: u32) -> Option<(Value, u32)>
    requires items { HasItems over }
    requires nested { IsNested (C.items_of consts.now) over }
    requires leads { Leads arena.now.objects over }
    requires told { Tells C.Constants consts.now over }
    requires all_told { TellsAll C.Constants consts.now arena.now }
    ensures within { let see = sight C.Constants consts.now in IfSome result (λ next. at < length_in (see.heap arena.now) (see.value over)) }
    ensures item { let see = sight C.Constants consts.now
        in IfSome result (λ next. IsOutcome see.texts see.tuples arena.now arena.now (Ok next.0)
        (item_in (see.heap arena.now) (see.value over) at)) }
    ensures place { IfSome result (λ next. next.1 ≡ suc at) }
{
    if at < item_count(arena, consts, over) {
        let v = item_at(arena, consts, over, at);
        Some((v, at + 1))
    } else {
        None
    }
}

/// The item of a list or a range at a place, if there is one, and the place behind it.
#[inline(always)]
fn next_from<C: Constants>(arena: &Arena, consts: &C, over: Value, at: u32) -> Option<(Value, u32)>
    requires leads { Leads arena.now.objects over }
    requires told { Tells C.Constants consts.now over }
    requires all_told { TellsAll C.Constants consts.now arena.now }
    ensures within { let see = sight C.Constants consts.now in IfSome result (λ next. at < length_in (see.heap arena.now) (see.value over)) }
    ensures item { let see = sight C.Constants consts.now
        in IfSome result (λ next. IsOutcome see.texts see.tuples arena.now arena.now (Ok next.0)
        (item_in (see.heap arena.now) (see.value over) at)) }
    ensures place { IfSome result (λ next. next.1 ≡ suc at) }
{
    match over {
        Value::List(_l) => item_from(arena, consts, over, at),
        Value::Range(_r) => item_from(arena, consts, over, at),
        _ => None,
    }
}

/// A part of the iterator on top is at the place.
#[inline(always)]
fn set_part(frames: &mut Frames, i: u32, over: Value, at: u32, part: u8)
    requires there { OfRunning (λ c. 4 ≤ length c.slots) frames.old.calls }
    requires within { i < 4 }
    ensures set { frames.new ≡ on_running (λ c. record c { slots = slice_set c.slots i (slots.Iter over at part) }) frames.old }
    ensures there { OfRunning (λ c. 4 ≤ length c.slots) frames.new.calls }
{
    frames.set_slot(i, Slot::Iter { over, at, part });
}

/// The iterator on top, with this place in the place of its own.
#[inline(always)]
fn set_iterator(frames: &mut Frames, over: Value, at: u32)
    requires { OfRunning (λ c. 4 ≤ length c.slots) frames.old.calls }
    ensures { frames.new ≡ on_running (λ c. record c { slots = iterator_over over at (drop 4 c.slots) }) frames.old }
{
    set_part(frames, 3, over, at, 0);
    set_part(frames, 2, over, at, 1);
    set_part(frames, 1, over, at, 2);
    set_part(frames, 0, over, at, 3);
}

/// The running call goes on at the end with the iterator at the place, and a value on top.
#[inline(always)]
fn go_on(frames: &mut Frames, over: Value, at: u32, v: Value, end: u32)
    requires there { OfRunning (λ c. 4 ≤ length c.slots) frames.old.calls }
    requires room { OfRunning (λ c. length c.slots < frames.old.slot_room) frames.old.calls }
    ensures { frames.new ≡ on_running (with_item end over at v) frames.old }
{
    set_iterator(frames, over, at);
    go_with(frames, Slot::Value(v), end);
}

/// FOR_ITER over a list or a range that has an item more.
#[inline(always)]
pub(crate) fn iterate<C: Constants>(
    frames: &mut Frames,
    arena: &Arena,
    consts: &C,
    target: u32,
    end: u32,
) -> Option<u64>
    requires runs { under C.Constants consts.now RunsOver arena.now frames.old (record { instruction = fetched.for_iter target; end = end }) }
    ensures { under C.Constants consts.now ActsAtOnce (record {
      instruction = fetched.for_iter target;
      end = end;
    }) arena.now frames.old frames.new result }
{
    acting_law();
    tops_law();
    let _ = target;
    match iterator_on_top(frames) {
        Some((over, at)) => match next_from(arena, consts, over, at) {
            Some((v, next)) => {
                go_on(frames, over, next, v, end);
                Some(0)
            }
            None => None,
        },
        None => None,
    }
}
