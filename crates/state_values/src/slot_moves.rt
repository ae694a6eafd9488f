//! Instructions that move slots.

ghost use Rattle.std.specs.Prelude.{◌≡◌};
ghost use Rattle.vm_states.specs.mpy_base.Val.{PlainWorld};
ghost use Rattle.vm_states.specs.bc_ops.declared.instr.Instr.TheVariants as instrs;
ghost use Rattle.vm_states.specs.bc_machine.Library.{Plain};
ghost use Rattle.vm_states.specs.vm_frames.Calls.{on_running};
ghost use Rattle.vm_states.specs.frame_moves.Shown.{Tables, Steps, IsNext};
ghost use Rattle.vm_states.specs.frame_moves.Stacks.{gone};
ghost use Rattle.vm_states.specs.vm_fetching.Operations.{move_op};
ghost use Rattle.state_values.specs.Moving.{moved_slots, fetched_move, Runs, GoesBehind};
ghost use Rattle.state_values.specs.Needs.{Needs};

use frame_moves::{
    dup_top, dup_top_two, load_false, load_none, load_null, load_true, pop_top, rot_three, rot_two,
};
use vm_frames::Frames;
use vm_states::{MoveOp, keeps_law, tops_law};

/// The operation, by what it needs.
fn act(frames: &mut Frames, op: MoveOp, end: u32)
    requires { Needs op frames.old }
    ensures steps { (tables : Tables) (w : PlainWorld) → IsNext tables end frames.old.calls
        → Steps tables w (Plain (instrs.Plain (move_op op))) frames.old.calls frames.new.calls }
    ensures moved { frames.new ≡ on_running (λ c. gone end (moved_slots op c.slots) c) frames.old }
{
    match op {
        MoveOp::LoadConstFalse => load_false(frames, end),
        MoveOp::LoadConstNone => load_none(frames, end),
        MoveOp::LoadConstTrue => load_true(frames, end),
        MoveOp::LoadNull => load_null(frames, end),
        MoveOp::DupTop => dup_top(frames, end),
        MoveOp::DupTopTwo => dup_top_two(frames, end),
        MoveOp::PopTop => pop_top(frames, end),
        MoveOp::RotTwo => rot_two(frames, end),
        MoveOp::RotThree => rot_three(frames, end),
    }
}

/// An operation that moves slots, where it was fetched for the running call. It takes no memory.
pub fn move_slots(frames: &mut Frames, op: MoveOp, end: u32)
    requires runs { Runs frames.old (fetched_move op end) }
    ensures goes { GoesBehind (fetched_move op end) frames.old frames.new }
    ensures moved { frames.new ≡ on_running (λ c. gone end (moved_slots op c.slots) c) frames.old }
{
    keeps_law();
    tops_law();
    act(frames, op, end);
}
