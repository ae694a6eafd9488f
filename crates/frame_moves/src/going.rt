//! The running call goes on at an offset.

ghost use Rattle.std.specs.Prelude.{◌≡◌, ◌<◌, ◌∷◌, length, drop, if◌then◌else◌};
ghost use Rattle.vm_frames.specs.Calls.{OfRunning, on_running};
ghost use Rattle.frame_moves.specs.Shown.{IsTop};
ghost use Rattle.frame_moves.specs.Stacks.{gone};

use vm_frames::{Frames, Slot};

/// The running call goes on at an offset, with a slot more on top.
pub fn go_with(frames: &mut Frames, slot: Slot, offset: u32)
    requires { OfRunning (λ c. length c.slots < frames.old.slot_room) frames.old.calls }
    ensures { frames.new ≡ on_running (λ c. gone offset (slot ∷ c.slots) c) frames.old }
{
    frames.push(slot);
    frames.set_offset(offset);
}

/// The running call goes on at an offset without its top slot, which is given.
pub fn go_without(frames: &mut Frames, offset: u32) -> Slot
    requires { OfRunning (λ c. 0 < length c.slots) frames.old.calls }
    ensures top { IsTop result frames.old.calls }
    ensures moved { frames.new ≡ on_running (λ c. gone offset (drop 1 c.slots) c) frames.old }
{
    let slot = frames.pop();
    frames.set_offset(offset);
    slot
}

/// The running call goes on at the target with all slots where it jumps, and else at the end without the top one.
pub fn go_if(frames: &mut Frames, jumps: bool, target: u32, end: u32)
    requires { OfRunning (λ c. 0 < length c.slots) frames.old.calls }
    ensures { frames.new ≡ on_running (λ c. if jumps then gone target c.slots c else gone end (drop 1 c.slots) c) frames.old }
{
    if jumps {
        frames.set_offset(target);
    } else {
        let _ = go_without(frames, end);
    }
}

/// At the first offset or at the other one, without the top slot.
pub fn drop_to(frames: &mut Frames, is_first: bool, first: u32, other: u32)
    requires { OfRunning (λ c. 0 < length c.slots) frames.old.calls }
    ensures { frames.new ≡ on_running (λ c. gone (if is_first then first else other) (drop 1 c.slots) c) frames.old }
{
    if is_first {
        let _ = go_without(frames, first);
    } else {
        let _ = go_without(frames, other);
    }
}
