//! Jumps that test the top value.

ghost use Rattle.std.specs.Prelude.{◌≡◌, ◌<◌, ℕ, length};
ghost use Rattle.vm_states.specs.mpy_base.Val.{PlainWorld};
ghost use Rattle.vm_states.specs.bc_machine.Library.{Jumps};
ghost use Rattle.vm_states.specs.prim_names.prim_faults.Sights.{under};
ghost use Rattle.vm_states.specs.vm_frames.Calls.{OfRunning, on_running};
ghost use Rattle.vm_states.specs.frame_moves.Shown.{Tables, Steps, IsNext, IsAt, Tests};
ghost use Rattle.vm_states.specs.vm_fetching.Operations.{test_op};
ghost use Rattle.vm_states.specs.vm_fetching.Instructions as fetched;
ghost use Rattle.vm_states.specs.Acting.{RunsOver};
ghost use Rattle.state_values.specs.Keeping.{ActsKeeping};
ghost use Rattle.state_values.specs.Tests.{tested};

use crate::law::acting_law;
use arena_heap::{Arena, Constants};
use frame_moves::{jump_if_false_or_pop, jump_if_true_or_pop, pop_jump_if_false, pop_jump_if_true};
use prim_faults::Stop;
use vm_frames::Frames;
use vm_states::{TestOp, top_truth, tops_law};

/// The jump, where the truth of the top value is given.
pub fn jump_by(frames: &mut Frames, op: TestOp, truth: bool, target: u32, end: u32)
    requires there { OfRunning (λ c. 0 < length c.slots) frames.old.calls }
    ensures steps { (tables : Tables) (w : PlainWorld) (position : ℕ) → IsAt tables target position frames.old.calls
        → IsNext tables end frames.old.calls → Tests tables w truth frames.old.calls
        → Steps tables w (Jumps (test_op op) position) frames.old.calls frames.new.calls }
    ensures moved { frames.new ≡ on_running (tested op truth target end) frames.old }
{
    match op {
        TestOp::PopJumpIfTrue => pop_jump_if_true(frames, truth, target, end),
        TestOp::PopJumpIfFalse => pop_jump_if_false(frames, truth, target, end),
        TestOp::JumpIfTrueOrPop => jump_if_true_or_pop(frames, truth, target, end),
        TestOp::JumpIfFalseOrPop => jump_if_false_or_pop(frames, truth, target, end),
    }
}

/// POP_JUMP_IF_TRUE, POP_JUMP_IF_FALSE, JUMP_IF_TRUE_OR_POP and JUMP_IF_FALSE_OR_POP.
pub fn test_jump<C: Constants>(
    frames: &mut Frames,
    arena: &Arena,
    consts: &C,
    op: TestOp,
    target: u32,
    end: u32,
) -> Result<(), Stop>
    requires runs { under C.Constants consts.now RunsOver arena.now frames.old (record { instruction = fetched.test op target; end = end }) }
    ensures acts { under C.Constants consts.now ActsKeeping
        (record { instruction = fetched.test op target; end = end }) 0 arena.now arena.now frames.old frames.new result }
{
    acting_law();
    tops_law();
    let truth = top_truth(frames, arena, consts);
    jump_by(frames, op, truth, target, end);
    Ok(())
}
