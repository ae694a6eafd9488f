//! Handlers that are set up and left.

ghost use Rattle.std.specs.Prelude.{◌≡◌, ◌<◌, ℕ, length, drop, true, false};
ghost use Rattle.prim_raising.specs.mpy_base.Val.{PlainWorld};
ghost use Rattle.vm_frames.specs.bc_ops.declared.instr.Op.TheVariants as ops;
ghost use Rattle.vm_frames.specs.Calls.{OfRunning, on_running};
ghost use Rattle.vm_frames.specs.bc_machine.Library.{Jumps};
ghost use Rattle.frame_moves.specs.Shown.{Tables, Steps, IsNext, IsAt};
ghost use Rattle.frame_moves.specs.Stacks.{set_up};

use vm_frames::Frames;

/// SETUP_EXCEPT. The handler is an offset.
pub fn setup_except(frames: &mut Frames, handler: u32, end: u32)
    requires slot { OfRunning (λ c. length c.slots < frames.old.slot_room) frames.old.calls }
    requires entry { OfRunning (λ c. length c.entries < frames.old.entry_room) frames.old.calls }
    ensures steps { (tables : Tables) (w : PlainWorld) (position : ℕ) → IsAt tables handler position frames.old.calls
        → IsNext tables end frames.old.calls → Steps tables w (Jumps ops.SetupExcept position) frames.old.calls frames.new.calls }
    ensures moved { frames.new ≡ on_running (λ c. set_up handler false end c) frames.old }
{
    frames.setup(handler, false);
    frames.set_offset(end);
}

/// SETUP_FINALLY. The handler is an offset.
pub fn setup_finally(frames: &mut Frames, handler: u32, end: u32)
    requires slot { OfRunning (λ c. length c.slots < frames.old.slot_room) frames.old.calls }
    requires entry { OfRunning (λ c. length c.entries < frames.old.entry_room) frames.old.calls }
    ensures steps { (tables : Tables) (w : PlainWorld) (position : ℕ) → IsAt tables handler position frames.old.calls
        → IsNext tables end frames.old.calls → Steps tables w (Jumps ops.SetupFinally position) frames.old.calls frames.new.calls }
    ensures moved { frames.new ≡ on_running (λ c. set_up handler true end c) frames.old }
{
    frames.setup(handler, true);
    frames.set_offset(end);
}

/// POP_EXCEPT_JUMP.
pub fn pop_except_jump(frames: &mut Frames, target: u32)
    requires { OfRunning (λ c. 0 < length c.entries) frames.old.calls }
    ensures steps { (tables : Tables) (w : PlainWorld) (position : ℕ) → IsAt tables target position frames.old.calls
        → Steps tables w (Jumps ops.PopExceptJump position) frames.old.calls frames.new.calls }
    ensures moved { frames.new ≡ on_running (λ c. record c { at = target; entries = drop 1 c.entries }) frames.old }
{
    frames.drop_entry();
    frames.set_offset(target);
}
