//! Runs of slots: values, and iterators.

ghost use Rattle.std.specs.Prelude.{◌≡◌, ℕ, ◌+◌, ◌-◌, ◌^◌, ◌<◌, ◌≤◌, suc, length, drop, Some, slice_get};
ghost use Rattle.prim_names.specs.arena_heap.declared.value.Value.{Value as Item};
ghost use Rattle.prim_names.specs.prim_faults.Sights.{under, KnowsAll};
ghost use Rattle.frame_moves.specs.vm_frames.Calls.{OfRunning, on_running};
ghost use Rattle.frame_values.specs.Slots.{HasKnown, HasValue, with_values, with_iterator, with_item, iterator_over};
ghost use Rattle.frame_values.specs.Settled.{Settles};

use crate::slots::{put_slot, value_at};
use arena_heap::{Arena, Constants, Value};
use frame_moves::{Frames, Slot};
use prim_operators::Stop;

/// The values of the topmost slots, the lowest first.
pub(crate) fn gather<C: Constants>(frames: &Frames, arena: &Arena, consts: &C, items: &mut [Value])
    requires few { length items.old < 2 ^ 32 }
    requires known { (slot : ℕ) → slot < length items.old → under C.Constants consts.now HasKnown arena.now.objects slot frames.now.calls }
    ensures count { length items.new ≡ length items.old }
    ensures values { (at : ℕ) (v : Item) → slice_get items.new at ≡ Some v → HasValue (length items.old - suc at) v frames.now.calls }
    ensures known { KnowsAll C.Constants consts.now arena.now items.new }
{
    let count = items.len();
    for at in 0..count {
        let v = value_at(frames, arena, consts, (count - 1 - at) as u32);
        items[at] = v;
    }
}

/// The value at a place.
fn value_from(values: &[Value], at: usize) -> Value
    requires { at < length values.now }
    ensures { slice_get values.now at ≡ Some result }
{
    values[at]
}

/// The values are put in the place of the top slot, the first on top, and the running call goes on at the end.
pub(crate) fn put_values(frames: &mut Frames, values: &[Value], end: u32)
    requires there { OfRunning (λ c. 0 < length c.slots) frames.old.calls }
    requires room { OfRunning (λ c. length c.slots + length values.now ≤ suc frames.old.slot_room) frames.old.calls }
    ensures { frames.new ≡ on_running (with_values end values.now) frames.old }
{
    let _ = frames.pop();
    let count = values.len();
    for at in 0..count {
        let v = value_from(values, count - 1 - at);
        frames.push(Slot::Value(v));
    }
    frames.set_offset(end);
}

/// The four slots of an iterator, in the place of those that are taken.
fn put_iterator(frames: &mut Frames, taken: u32, over: Value, at: u32)
    requires some { 0 < taken }
    requires there { OfRunning (λ c. taken ≤ length c.slots) frames.old.calls }
    requires room { OfRunning (λ c. length c.slots + 3 < frames.old.slot_room + taken) frames.old.calls }
    ensures { frames.new ≡ on_running (λ c. record c { slots = iterator_over over at (drop taken c.slots) }) frames.old }
{
    put_slot(frames, taken, Slot::Iter { over, at, part: 0 });
    frames.push(Slot::Iter { over, at, part: 1 });
    frames.push(Slot::Iter { over, at, part: 2 });
    frames.push(Slot::Iter { over, at, part: 3 });
}

/// The running call goes on at the end with an iterator in the place of the top slot. Where a stop is given, the calls stay.
pub(crate) fn begin_iterator(
    frames: &mut Frames,
    given: Result<Value, Stop>,
    end: u32,
) -> Result<(), Stop>
    requires there { OfRunning (λ c. 1 ≤ length c.slots) frames.old.calls }
    requires room { OfRunning (λ c. length c.slots + 3 < frames.old.slot_room + 1) frames.old.calls }
    ensures { Settles (with_iterator end) given frames.old frames.new result }
{
    match given {
        Ok(over) => {
            put_iterator(frames, 1, over, 0);
            frames.set_offset(end);
            Ok(())
        }
        Err(stop) => Err(stop),
    }
}

/// The running call goes on at the end with the iterator at a place, and a value on top. Where a stop is given, the calls
/// stay.
pub(crate) fn put_item(
    frames: &mut Frames,
    over: Value,
    at: u32,
    given: Result<Value, Stop>,
    end: u32,
) -> Result<(), Stop>
    requires there { OfRunning (λ c. 4 ≤ length c.slots) frames.old.calls }
    requires room { OfRunning (λ c. length c.slots < frames.old.slot_room) frames.old.calls }
    ensures { Settles (with_item end over at) given frames.old frames.new result }
{
    match given {
        Ok(v) => {
            put_iterator(frames, 4, over, at);
            frames.push(Slot::Value(v));
            frames.set_offset(end);
            Ok(())
        }
        Err(stop) => Err(stop),
    }
}
