//! Slots that instructions read, take and put.

ghost use Rattle.std.specs.Prelude.{◌≡◌, ◌<◌, ◌≤◌, ◌∷◌, Some, IfSome, length, drop, slice_get};
ghost use Rattle.prim_names.specs.arena_heap.Values.{Leads};
ghost use Rattle.prim_names.specs.prim_faults.Sights.{under, Tells, Knows};
ghost use Rattle.frame_moves.specs.vm_frames.Calls.{OfRunning, on_running};
ghost use Rattle.frame_values.specs.Slots.{HasKnown, HasLocal, HasValue, looked_over, with_empty, with_looked, with_value, without};
ghost use Rattle.frame_values.specs.Settled.{Settles};

use arena_heap::{Arena, Constants, Value};
use frame_moves::{Frames, Slot};
use prim_names::Looked;
use prim_operators::Stop;

/// The value in a slot, counted from the top.
#[inline(always)]
pub(crate) fn value_at<C: Constants>(
    frames: &Frames,
    _arena: &Arena,
    _consts: &C,
    slot: u32,
) -> Value
    requires { under C.Constants _consts.now HasKnown _arena.now.objects slot frames.now.calls }
    ensures there { HasValue slot result frames.now.calls }
    ensures below { OfRunning (λ c. slot < length c.slots) frames.now.calls }
    ensures known { Knows C.Constants _consts.now _arena.now result }
    ensures leads { Leads _arena.now.objects result }
    ensures told { Tells C.Constants _consts.now result }
{
    match frames.slot(slot) {
        Slot::Value(v) => v,
        _ => unreachable!(),
    }
}

/// A local of the running call.
#[inline(always)]
pub(crate) fn local_at<C: Constants>(
    frames: &Frames,
    _arena: &Arena,
    _consts: &C,
    n: u32,
) -> Option<Value>
    requires { under C.Constants _consts.now HasLocal _arena.now.objects n frames.now.calls }
    ensures there { OfRunning (λ c. slice_get c.locals n ≡ Some result) frames.now.calls }
    ensures known { IfSome result (Knows C.Constants _consts.now _arena.now) }
{
    frames.local(n)
}

/// The topmost slots are dropped.
pub(crate) fn drop_slots(frames: &mut Frames, count: u32)
    requires { OfRunning (λ c. count ≤ length c.slots) frames.old.calls }
    ensures { frames.new ≡ on_running (λ c. record c { slots = drop count c.slots }) frames.old }
{
    for _ in 0..count {
        let _ = frames.pop();
    }
}

/// A slot more on top, in the place of those that are taken.
#[inline(always)]
pub(crate) fn put_slot(frames: &mut Frames, taken: u32, slot: Slot)
    requires there { OfRunning (λ c. taken ≤ length c.slots) frames.old.calls }
    requires room { taken ≡ 0 → OfRunning (λ c. length c.slots < frames.old.slot_room) frames.old.calls }
    ensures { frames.new ≡ on_running (λ c. record c { slots = slot ∷ drop taken c.slots }) frames.old }
{
    if taken == 0 {
        frames.push(slot);
    } else {
        drop_slots(frames, taken - 1);
        frames.set_slot(0, slot);
    }
}

/// The running call goes on at the end with a value in the place of the slots that are taken. Where there is none, the calls
/// stay.
#[inline(always)]
pub(crate) fn put(
    frames: &mut Frames,
    taken: u32,
    given: Result<Value, Stop>,
    end: u32,
) -> Result<(), Stop>
    requires there { OfRunning (λ c. taken ≤ length c.slots) frames.old.calls }
    requires room { taken ≡ 0 → OfRunning (λ c. length c.slots < frames.old.slot_room) frames.old.calls }
    ensures { Settles (with_value end taken) given frames.old frames.new result }
{
    match given {
        Ok(v) => {
            put_slot(frames, taken, Slot::Value(v));
            frames.set_offset(end);
            Ok(())
        }
        Err(stop) => Err(stop),
    }
}

/// The running call goes on at the end without the slots that are taken. Where a stop is given, the calls stay.
pub(crate) fn take(
    frames: &mut Frames,
    taken: u32,
    given: Result<Value, Stop>,
    end: u32,
) -> Result<(), Stop>
    requires { OfRunning (λ c. taken ≤ length c.slots) frames.old.calls }
    ensures { Settles (λ v. without end taken) given frames.old frames.new result }
{
    match given {
        Ok(_) => {
            drop_slots(frames, taken);
            frames.set_offset(end);
            Ok(())
        }
        Err(stop) => Err(stop),
    }
}

/// The running call goes on at the end with an empty local. Where a stop is given, the calls stay.
pub(crate) fn empty(
    frames: &mut Frames,
    n: u32,
    given: Result<Value, Stop>,
    end: u32,
) -> Result<(), Stop>
    requires { OfRunning (λ c. n < length c.locals) frames.old.calls }
    ensures { Settles (λ v. with_empty n end) given frames.old frames.new result }
{
    match given {
        Ok(_) => {
            frames.set_local(n, None);
            frames.set_offset(end);
            Ok(())
        }
        Err(stop) => Err(stop),
    }
}

/// The two slots of a method call's beginning, in the place of the top one.
fn put_two(frames: &mut Frames, looked: Looked)
    requires there { OfRunning (λ c. 0 < length c.slots) frames.old.calls }
    requires room { OfRunning (λ c. length c.slots < frames.old.slot_room) frames.old.calls }
    ensures { frames.new ≡ on_running (λ c. record c { slots = looked_over looked (drop 1 c.slots) }) frames.old }
{
    match looked {
        Looked::Bound { method, object } => {
            frames.set_slot(0, Slot::Value(Value::Built(method)));
            frames.push(Slot::Object(Some(object)));
        }
        Looked::Free(v) => {
            frames.set_slot(0, Slot::Value(v));
            frames.push(Slot::Object(None));
        }
    }
}

/// The running call goes on at the end with the two slots of a method call's beginning in the place of the top one. Where a
/// stop is given, the calls stay.
pub(crate) fn put_looked(
    frames: &mut Frames,
    given: Result<Looked, Stop>,
    end: u32,
) -> Result<(), Stop>
    requires there { OfRunning (λ c. 0 < length c.slots) frames.old.calls }
    requires room { OfRunning (λ c. length c.slots < frames.old.slot_room) frames.old.calls }
    ensures { Settles (with_looked end) given frames.old frames.new result }
{
    match given {
        Ok(looked) => {
            put_two(frames, looked);
            frames.set_offset(end);
            Ok(())
        }
        Err(stop) => Err(stop),
    }
}
