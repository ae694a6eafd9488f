//! Operators over two small integers.

ghost use Rattle.std.specs.Prelude.{◌≡◌, ◌≤◌, ◌<◌, ◌∷◌, drop, length, IfSome};
ghost use Rattle.state_values.specs.prim_assignments.arena_heap.declared.value.Value.TheVariants as values;
ghost use Rattle.state_values.specs.prim_assignments.prim_faults.Sights.{under};
ghost use Rattle.state_values.specs.vm_frames.Calls.{OfRunning, on_running};
ghost use Rattle.state_values.specs.frame_values.Slots.{HasValue, with_value};
ghost use Rattle.state_values.specs.vm_fetching.Instructions as fetched;
ghost use Rattle.state_values.specs.vm_states.Acting.{RunsOver};
ghost use Rattle.vm_at_once.specs.AtOnce.{ActsAtOnce};
ghost use Rattle.vm_at_once.specs.Numbers.{IsAnswer};

use crate::numbers::{compare, compute};
use arena_heap::{Arena, Constants, Value};
use state_values::{acting_law, constants_law, tops_law};
use vm_frames::{Frames, Slot};

/// The two topmost slots, where they are integers: the lower one is the left operand.
#[inline(always)]
fn two_numbers(frames: &Frames) -> Option<(i32, i32)>
    requires { OfRunning (λ c. 1 < length c.slots) frames.now.calls }
    ensures left { IfSome result (λ operands. HasValue 1 (values.Int operands.0) frames.now.calls) }
    ensures right { IfSome result (λ operands. HasValue 0 (values.Int operands.1) frames.now.calls) }
{
    match frames.slot(0) {
        Slot::Value(Value::Int(right)) => match frames.slot(1) {
            Slot::Value(Value::Int(left)) => Some((left, right)),
            _ => None,
        },
        _ => None,
    }
}

/// What the operator gives, and its visits.
#[inline(always)]
fn answer(number: u8, left: i32, right: i32) -> Option<(Value, u64)>
    ensures { IfSome result (λ answer. IsAnswer number left right answer.0 answer.1) }
{
    constants_law();
    match compute(number, left, right) {
        Some(z) => Some((Value::Int(z), 0)),
        None => match compare(number, left, right) {
            Some(holds) => Some((Value::Bool(holds), 1)),
            None => None,
        },
    }
}

/// A value in the place of the two topmost slots.
#[inline(always)]
fn put_slot(frames: &mut Frames, slot: Slot)
    requires { OfRunning (λ c. 2 ≤ length c.slots) frames.old.calls }
    ensures { frames.new ≡ on_running (λ c. record c { slots = slot ∷ drop 2 c.slots }) frames.old }
{
    let _ = frames.pop();
    frames.set_slot(0, slot);
}

/// The running call goes on at the end with a value in the place of the two topmost slots.
#[inline(always)]
pub(crate) fn put(frames: &mut Frames, v: Value, end: u32)
    requires { OfRunning (λ c. 2 ≤ length c.slots) frames.old.calls }
    ensures { frames.new ≡ on_running (with_value end 2 v) frames.old }
{
    put_slot(frames, Slot::Value(v));
    frames.set_offset(end);
}

/// BINARY_OP, where both operands are integers, and what it gives is one or a bool.
#[inline(always)]
pub(crate) fn binary_at_once<C: Constants>(
    frames: &mut Frames,
    _arena: &Arena,
    _consts: &C,
    number: u8,
    end: u32,
) -> Option<u64>
    requires runs { under C.Constants _consts.now RunsOver _arena.now frames.old (record { instruction = fetched.binary number; end = end }) }
    ensures { under C.Constants _consts.now ActsAtOnce (record { instruction = fetched.binary number; end = end }) _arena.now frames.old frames.new result }
{
    acting_law();
    tops_law();
    match two_numbers(frames) {
        Some((left, right)) => match answer(number, left, right) {
            Some((v, visits)) => {
                put(frames, v, end);
                Some(visits)
            }
            None => None,
        },
        None => None,
    }
}
