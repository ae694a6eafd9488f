//! What was done, and a slot that is put.

ghost use Rattle.std.specs.Prelude.{◌≡◌, ◌<◌, ◌∷◌, length};
ghost use Rattle.state_values.specs.vm_frames.Calls.{OfRunning, on_running};
ghost use Rattle.state_values.specs.frame_moves.Stacks.{gone};
ghost use Rattle.vm_at_once.specs.AtOnce.{visits_done};

use prim_faults::Stop;
use vm_frames::{Frames, Slot};

/// No visits, where it came to no stop.
#[inline(always)]
pub(crate) fn done(acted: Result<(), Stop>) -> Option<u64>
    ensures { result ≡ visits_done acted }
{
    match acted {
        Ok(()) => Some(0),
        Err(_stop) => None,
    }
}

/// With a slot more on top, the running call goes on at the offset.
#[inline(always)]
pub(crate) fn go_with(frames: &mut Frames, slot: Slot, offset: u32)
    requires { OfRunning (λ c. length c.slots < frames.old.slot_room) frames.old.calls }
    ensures { frames.new ≡ on_running (λ c. gone offset (slot ∷ c.slots) c) frames.old }
{
    frames.push(slot);
    frames.set_offset(offset);
}
