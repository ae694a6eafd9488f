//! Values that the running call gets.

ghost use Rattle.std.specs.Prelude.{◌≡◌, ◌<◌, ◌≤◌, length, drop};
ghost use Rattle.frame_moves.specs.vm_frames.Calls.{OfRunning, on_running};
ghost use Rattle.frame_calls.specs.Putting.{with_value, put_in, done_of};

use arena_heap::Value;
use frame_moves::{Frames, Slot};
use prim_modules::Stop;

/// The topmost slots are dropped.
pub(crate) fn drop_slots(frames: &mut Frames, count: u32)
    requires { OfRunning (λ c. count ≤ length c.slots) frames.old.calls }
    ensures { frames.new ≡ on_running (λ c. record c { slots = drop count c.slots }) frames.old }
{
    for _i in 0..count {
        let _ = frames.pop();
    }
}

/// A value goes in the place of the topmost slots, of which there is one at least, and the call goes on at the end.
pub(crate) fn put_over(frames: &mut Frames, taken: u32, v: Value, end: u32)
    requires some { 0 < taken }
    requires there { OfRunning (λ c. taken ≤ length c.slots) frames.old.calls }
    ensures { frames.new ≡ on_running (with_value end taken v) frames.old }
{
    drop_slots(frames, taken - 1);
    frames.set_slot(0, Slot::Value(v));
    frames.set_offset(end);
}

/// A value goes on top of all slots, and the call goes on at the end.
fn put_on_top(frames: &mut Frames, v: Value, end: u32)
    requires { OfRunning (λ c. length c.slots < frames.old.slot_room) frames.old.calls }
    ensures { frames.new ≡ on_running (with_value end 0 v) frames.old }
{
    frames.push(Slot::Value(v));
    frames.set_offset(end);
}

/// A value that was given goes on top of all slots. A stop leaves the calls.
pub(crate) fn push_given(
    frames: &mut Frames,
    given: Result<Value, Stop>,
    end: u32,
) -> Result<(), Stop>
    requires { OfRunning (λ c. length c.slots < frames.old.slot_room) frames.old.calls }
    ensures calls { frames.new ≡ put_in end 0 given frames.old }
    ensures done { result ≡ done_of given }
{
    match given {
        Ok(v) => {
            put_on_top(frames, v, end);
            Ok(())
        }
        Err(stop) => Err(stop),
    }
}

/// A value that was given goes in the place of the topmost slots. A stop leaves the calls.
pub(crate) fn put_given(
    frames: &mut Frames,
    taken: u32,
    given: Result<Value, Stop>,
    end: u32,
) -> Result<(), Stop>
    requires some { 0 < taken }
    requires there { OfRunning (λ c. taken ≤ length c.slots) frames.old.calls }
    ensures calls { frames.new ≡ put_in end taken given frames.old }
    ensures done { result ≡ done_of given }
{
    match given {
        Ok(v) => {
            put_over(frames, taken, v, end);
            Ok(())
        }
        Err(stop) => Err(stop),
    }
}
