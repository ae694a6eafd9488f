//! Jumps and returns out of handlers.

ghost use Rattle.std.specs.Prelude.{◌≡◌, ◌≤◌, ◌%◌, ℕ, length, nat_le};
ghost use Rattle.prim_raising.specs.mpy_base.Val.{PlainWorld};
ghost use Rattle.vm_frames.specs.Calls.{OfRunning, on_running};
ghost use Rattle.vm_frames.specs.Moves.{jumped};
ghost use Rattle.vm_frames.specs.Placed.{IsPlaced};
ghost use Rattle.vm_frames.specs.bc_machine.Library.{Unwinds};
ghost use Rattle.frame_moves.specs.Shown.{Tables, Steps, IsAt, view_of};

use vm_frames::{Frames, Slot, moves_law};

/// UNWIND_JUMP. The byte counts the entries that are left, and its highest bit says that an iterator is taken.
pub fn unwind_jump(frames: &mut Frames, target: u32, byte: u8)
    requires { OfRunning (λ c. byte % 128 ≤ length c.entries) frames.old.calls }
    ensures steps { (tables : Tables) (w : PlainWorld) (position : ℕ) → IsAt tables target position frames.old.calls
        → OfRunning (IsPlaced (view_of tables)) frames.old.calls
        → Steps tables w (Unwinds position byte) frames.old.calls frames.new.calls }
    ensures moved { frames.new ≡ on_running (λ c. (jumped target (byte % 128) (nat_le 128 byte) c.entries c.slots c).call) frames.old }
{
    let entries = byte % 128;
    let iterator = 128 <= byte;
    moves_law();
    let _ = frames.unwind(Slot::Jump {
        target,
        entries,
        iterator,
    });
}
