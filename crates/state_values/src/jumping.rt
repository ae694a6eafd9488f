//! Jumps, and handlers that are set up and left.

ghost use Rattle.std.specs.Prelude.{◌≡◌, ◌%◌, drop, nat_le, true, false};
ghost use Rattle.vm_states.specs.vm_frames.Calls.{on_running};
ghost use Rattle.vm_states.specs.vm_frames.Moves.{jumped};
ghost use Rattle.vm_states.specs.frame_moves.Stacks.{gone, set_up};
ghost use Rattle.vm_states.specs.vm_fetching.Instructions as fetched;
ghost use Rattle.vm_states.specs.vm_fetching.declared.operations.HandlerOp.TheVariants as handler_ops;
ghost use Rattle.state_values.specs.Moving.{Runs, GoesBehind};

use frame_moves::{jump, pop_except_jump, setup_except, setup_finally, unwind_jump};
use vm_frames::{Frames, placed_law};
use vm_states::{keeps_law, tops_law};

/// JUMP, where it was fetched for the running call.
pub fn jump_on(frames: &mut Frames, target: u32, end: u32)
    requires runs { Runs frames.old (record { instruction = fetched.jump target; end = end }) }
    ensures goes { GoesBehind (record { instruction = fetched.jump target; end = end }) frames.old frames.new }
    ensures moved { frames.new ≡ on_running (λ c. gone target c.slots c) frames.old }
{
    keeps_law();
    placed_law();
    let _ = end;
    jump(frames, target);
}

/// SETUP_EXCEPT, where it was fetched for the running call.
pub fn begin_except(frames: &mut Frames, handler: u32, end: u32)
    requires runs { Runs frames.old (record { instruction = fetched.handle handler_ops.SetupExcept handler; end = end }) }
    ensures goes { GoesBehind (record { instruction = fetched.handle handler_ops.SetupExcept handler; end = end }) frames.old frames.new }
    ensures moved { frames.new ≡ on_running (λ c. set_up handler false end c) frames.old }
{
    keeps_law();
    placed_law();
    tops_law();
    setup_except(frames, handler, end);
}

/// SETUP_FINALLY, where it was fetched for the running call.
pub fn begin_finally(frames: &mut Frames, handler: u32, end: u32)
    requires runs { Runs frames.old (record { instruction = fetched.handle handler_ops.SetupFinally handler; end = end }) }
    ensures goes { GoesBehind (record { instruction = fetched.handle handler_ops.SetupFinally handler; end = end }) frames.old frames.new }
    ensures moved { frames.new ≡ on_running (λ c. set_up handler true end c) frames.old }
{
    keeps_law();
    placed_law();
    tops_law();
    setup_finally(frames, handler, end);
}

/// POP_EXCEPT_JUMP, where it was fetched for the running call.
pub fn end_except(frames: &mut Frames, target: u32, end: u32)
    requires runs { Runs frames.old (record { instruction = fetched.handle handler_ops.PopExceptJump target; end = end }) }
    ensures goes { GoesBehind (record { instruction = fetched.handle handler_ops.PopExceptJump target; end = end }) frames.old frames.new }
    ensures moved { frames.new ≡ on_running (λ c. record c { at = target; entries = drop 1 c.entries }) frames.old }
{
    keeps_law();
    placed_law();
    tops_law();
    let _ = end;
    pop_except_jump(frames, target);
}

/// UNWIND_JUMP, where it was fetched for the running call.
pub fn jump_out(frames: &mut Frames, target: u32, byte: u8, end: u32)
    requires runs { Runs frames.old (record { instruction = fetched.unwind target byte; end = end }) }
    ensures goes { GoesBehind (record { instruction = fetched.unwind target byte; end = end }) frames.old frames.new }
    ensures moved { frames.new ≡ on_running (λ c. (jumped target (byte % 128) (nat_le 128 byte) c.entries c.slots c).call) frames.old }
{
    keeps_law();
    placed_law();
    tops_law();
    let _ = end;
    unwind_jump(frames, target, byte);
}
