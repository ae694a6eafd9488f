//! Jumps, and tests of the top value that jump. Targets are offsets.

ghost use Rattle.std.specs.Prelude.{◌≡◌, ◌<◌, ℕ, length, drop, not, if◌then◌else◌};
ghost use Rattle.prim_raising.specs.mpy_base.Val.{PlainWorld};
ghost use Rattle.vm_frames.specs.bc_ops.declared.instr.Op.TheVariants as ops;
ghost use Rattle.vm_frames.specs.Calls.{OfRunning, on_running};
ghost use Rattle.vm_frames.specs.bc_machine.Library.{Jumps};
ghost use Rattle.frame_moves.specs.Shown.{Tables, Steps, IsNext, IsAt, Tests};
ghost use Rattle.frame_moves.specs.Stacks.{gone};

use crate::going::{drop_to, go_if};
use vm_frames::Frames;

/// JUMP.
pub fn jump(frames: &mut Frames, target: u32)
    requires { 0 < length frames.old.calls }
    ensures steps { (tables : Tables) (w : PlainWorld) (position : ℕ) → IsAt tables target position frames.old.calls
        → Steps tables w (Jumps ops.Jump position) frames.old.calls frames.new.calls }
    ensures moved { frames.new ≡ on_running (λ c. gone target c.slots c) frames.old }
{
    frames.set_offset(target);
}

/// POP_JUMP_IF_TRUE, where the truth of the top value is given.
pub fn pop_jump_if_true(frames: &mut Frames, truth: bool, target: u32, end: u32)
    requires { OfRunning (λ c. 0 < length c.slots) frames.old.calls }
    ensures steps { (tables : Tables) (w : PlainWorld) (position : ℕ) → IsAt tables target position frames.old.calls
        → IsNext tables end frames.old.calls → Tests tables w truth frames.old.calls
        → Steps tables w (Jumps ops.PopJumpIfTrue position) frames.old.calls frames.new.calls }
    ensures moved { frames.new ≡ on_running (λ c. gone (if truth then target else end) (drop 1 c.slots) c) frames.old }
{
    drop_to(frames, truth, target, end);
}

/// POP_JUMP_IF_FALSE, where the truth of the top value is given.
pub fn pop_jump_if_false(frames: &mut Frames, truth: bool, target: u32, end: u32)
    requires { OfRunning (λ c. 0 < length c.slots) frames.old.calls }
    ensures steps { (tables : Tables) (w : PlainWorld) (position : ℕ) → IsAt tables target position frames.old.calls
        → IsNext tables end frames.old.calls → Tests tables w truth frames.old.calls
        → Steps tables w (Jumps ops.PopJumpIfFalse position) frames.old.calls frames.new.calls }
    ensures moved { frames.new ≡ on_running (λ c. gone (if truth then end else target) (drop 1 c.slots) c) frames.old }
{
    drop_to(frames, truth, end, target);
}

/// JUMP_IF_TRUE_OR_POP, where the truth of the top value is given.
pub fn jump_if_true_or_pop(frames: &mut Frames, truth: bool, target: u32, end: u32)
    requires { OfRunning (λ c. 0 < length c.slots) frames.old.calls }
    ensures steps { (tables : Tables) (w : PlainWorld) (position : ℕ) → IsAt tables target position frames.old.calls
        → IsNext tables end frames.old.calls → Tests tables w truth frames.old.calls
        → Steps tables w (Jumps ops.JumpIfTrueOrPop position) frames.old.calls frames.new.calls }
    ensures moved { frames.new ≡ on_running (λ c. if truth then gone target c.slots c else gone end (drop 1 c.slots) c) frames.old }
{
    go_if(frames, truth, target, end);
}

/// JUMP_IF_FALSE_OR_POP, where the truth of the top value is given.
pub fn jump_if_false_or_pop(frames: &mut Frames, truth: bool, target: u32, end: u32)
    requires { OfRunning (λ c. 0 < length c.slots) frames.old.calls }
    ensures steps { (tables : Tables) (w : PlainWorld) (position : ℕ) → IsAt tables target position frames.old.calls
        → IsNext tables end frames.old.calls → Tests tables w truth frames.old.calls
        → Steps tables w (Jumps ops.JumpIfFalseOrPop position) frames.old.calls frames.new.calls }
    ensures moved { frames.new ≡ on_running (λ c. if not truth then gone target c.slots c else gone end (drop 1 c.slots) c) frames.old }
{
    go_if(frames, !truth, target, end);
}
