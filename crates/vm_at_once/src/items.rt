//! Items of lists, by whole numbers.

ghost use Rattle.std.specs.Prelude.{◌≡◌, ◌<◌, ◌≤◌, ℤ, length, Some, Ok, true, false, IfSome};
ghost use Rattle.state_values.specs.mpy_base.World.{items_at};
ghost use Rattle.state_values.specs.mpy_base.Val.{Int};
ghost use Rattle.state_values.specs.prim_assignments.arena_heap.declared.value.Value.TheVariants as values;
ghost use Rattle.state_values.specs.prim_assignments.arena_heap.Values.{Leads};
ghost use Rattle.state_values.specs.bc_progress.py_primitives.Iterables.{place_at};
ghost use Rattle.state_values.specs.bc_progress.py_primitives.Uses.{get_item, set_item};
ghost use Rattle.state_values.specs.prim_assignments.prim_faults.Outcomes.{IsOutcome};
ghost use Rattle.state_values.specs.prim_assignments.prim_faults.Sights.{under, sight, Tells, TellsAll};
ghost use Rattle.state_values.specs.vm_frames.Calls.{OfRunning, on_running};
ghost use Rattle.state_values.specs.frame_values.Slots.{HasValue, without};
ghost use Rattle.state_values.specs.vm_fetching.declared.operations.ItemOp.TheVariants as item_ops;
ghost use Rattle.state_values.specs.Moving.{fetched_item};
ghost use Rattle.state_values.specs.vm_states.Acting.{RunsOver};
ghost use Rattle.state_values.specs.Keeping.{ActsKeeping};
ghost use Rattle.vm_at_once.specs.AtOnce.{ActsAtOnce};

use crate::operators::put;
use arena_heap::{Arena, Constants, ListNo, Value, list_at, list_len, list_set};
use state_values::{acting_law, tops_law};
use vm_frames::{Frames, Slot};

/// The two topmost slots, where they are a list and, on top, a whole number.
#[inline(always)]
fn list_and_number(frames: &Frames) -> Option<(ListNo, i32)>
    requires { OfRunning (λ c. 1 < length c.slots) frames.now.calls }
    ensures list { IfSome result (λ operands. HasValue 1 (values.List operands.0) frames.now.calls) }
    ensures number { IfSome result (λ operands. HasValue 0 (values.Int operands.1) frames.now.calls) }
{
    match frames.slot(0) {
        Slot::Value(Value::Int(number)) => match frames.slot(1) {
            Slot::Value(Value::List(l)) => Some((l, number)),
            _ => None,
        },
        _ => None,
    }
}

/// The place that the number names, counted from the front.
#[inline(always)]
fn front_place(len: u32, number: i32) -> Option<u32>
    ensures place { IfSome result (λ at. place_at len number ≡ Some at) }
    ensures within { IfSome result (λ at. at < len) }
{
    if number >= 0 {
        let at = number as u32;
        if at < len { Some(at) } else { None }
    } else {
        None
    }
}

/// The item of a list at the place that the number names, counted from the front.
#[inline(always)]
fn item_in<C: Constants>(arena: &Arena, _consts: &C, l: ListNo, number: i32) -> Option<Value>
    requires leads { Leads arena.now.objects (values.List l) }
    requires all_told { TellsAll C.Constants _consts.now arena.now }
    ensures { let see = sight C.Constants _consts.now
        in IfSome result (λ v. IsOutcome see.texts see.tuples arena.now arena.now (Ok v)
        (get_item (see.heap arena.now) (see.value (values.List l)) (see.value (values.Int number)))) }
{
    match front_place(list_len(arena, l), number) {
        Some(at) => match list_at(arena, l, at) {
            Some(v) => Some(v),
            None => None,
        },
        None => None,
    }
}

/// LOAD_SUBSCR, where the object is a list and the index a whole number that counts from its front.
#[inline(always)]
pub(crate) fn load_item<C: Constants>(
    frames: &mut Frames,
    arena: &Arena,
    consts: &C,
    end: u32,
) -> Option<u64>
    requires runs { under C.Constants consts.now RunsOver arena.now frames.old (fetched_item item_ops.LoadSubscr end) }
    ensures { under C.Constants consts.now ActsAtOnce (fetched_item item_ops.LoadSubscr end) arena.now frames.old frames.new result }
{
    acting_law();
    tops_law();
    match list_and_number(frames) {
        Some((l, number)) => match item_in(arena, consts, l, number) {
            Some(v) => {
                put(frames, v, end);
                Some(0)
            }
            None => None,
        },
        None => None,
    }
}

/// The value in the third slot.
#[inline(always)]
fn third_value(frames: &Frames) -> Option<Value>
    requires { OfRunning (λ c. 2 < length c.slots) frames.now.calls }
    ensures { IfSome result (λ v. HasValue 2 v frames.now.calls) }
{
    match frames.slot(2) {
        Slot::Value(v) => Some(v),
        _ => None,
    }
}

/// Puts a value in the place of a list's item.
#[inline(always)]
fn put_item<C: Constants>(arena: &mut Arena, _consts: &C, l: ListNo, at: u32, v: Value)
    requires list { Leads arena.old.objects (values.List l) }
    requires within { at < length (items_at arena.old l.cell) }
    requires leads { Leads arena.old.objects v }
    requires told { Tells C.Constants _consts.now v }
    requires all_told { TellsAll C.Constants _consts.now arena.old }
    ensures { let see = sight C.Constants _consts.now in (number : ℤ) → place_at (length (items_at arena.old l.cell)) number ≡ Some at
        → IsOutcome see.texts see.tuples arena.old arena.new (Ok values.None)
        (set_item (see.heap arena.old) (see.value (values.List l)) (Int number) (see.value v)) }
{
    let _set = list_set(arena, l, at, v);
}

/// The running call goes on at the end without the three topmost slots.
#[inline(always)]
fn drop_three(frames: &mut Frames, end: u32)
    requires { OfRunning (λ c. 3 ≤ length c.slots) frames.old.calls }
    ensures { frames.new ≡ on_running (without end 3) frames.old }
{
    let _ = frames.pop();
    let _ = frames.pop();
    let _ = frames.pop();
    frames.set_offset(end);
}

/// STORE_SUBSCR of a value, where the object is a list and the index a whole number that counts from its front. Whether it was done.
#[inline(always)]
pub(crate) fn store_item<C: Constants>(
    frames: &mut Frames,
    arena: &mut Arena,
    consts: &C,
    end: u32,
) -> bool
    requires runs { under C.Constants consts.now RunsOver arena.old frames.old (fetched_item item_ops.StoreSubscr end) }
    ensures done { result ≡ true
        → under C.Constants consts.now ActsKeeping (fetched_item item_ops.StoreSubscr end) 0 arena.old arena.new frames.old frames.new
        (Ok tt) }
    ensures left { result ≡ false → (frames.new ≡ frames.old) × (arena.new ≡ arena.old) }
{
    acting_law();
    tops_law();
    match list_and_number(frames) {
        Some((l, number)) => match third_value(frames) {
            Some(v) => match front_place(list_len(arena, l), number) {
                Some(at) => {
                    put_item(arena, consts, l, at, v);
                    drop_three(frames, end);
                    true
                }
                None => false,
            },
            None => false,
        },
        None => false,
    }
}
