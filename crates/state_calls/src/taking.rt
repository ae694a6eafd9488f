//! What an instruction calls, its operands, and the visits of the call.

ghost use Rattle.std.specs.Prelude.{◌≡◌, ◌<◌, length, min};
ghost use Rattle.vm_states.specs.mpy_base.Val.{PlainWorld};
ghost use Rattle.frame_calls.specs.arena_objects.Keys.{AllTold};
ghost use Rattle.vm_states.specs.bc_library.Constants.{items_at, text_at};
ghost use Rattle.frame_calls.specs.prim_calls.Callees.{IsKnownCallee};
ghost use Rattle.vm_states.specs.vm_frames.Calls.{OfRunning};
ghost use Rattle.vm_states.specs.vm_fetching.Instructions as fetched;
ghost use Rattle.frame_calls.specs.Known.{AreKnown};
ghost use Rattle.vm_states.specs.Means.{Program, Means};
ghost use Rattle.state_calls.specs.Called.{visits};
ghost use Rattle.state_calls.specs.Runs.{RunsWithin};
ghost use Rattle.state_calls.specs.Taken.{HasMethods, IsTaken};

use arena_heap::Arena;
use bc_progress::room_law;
use frame_calls::{Invocation, Operands, call_function, call_method, visits_call};
use vm_frames::Frames;
use vm_states::{CallOp, Library, tops_law};

/// CALL_FUNCTION or CALL_METHOD, where it was fetched for the running call: what it calls. Its operands are copied. It changes
/// nothing else, and takes no memory.
#[inline(always)]
pub fn take_call(
    frames: &Frames,
    arena: &Arena,
    library: &Library,
    operands: &mut Operands,
    op: CallOp,
    number: u32,
    end: u32,
) -> Invocation
    requires runs { RunsWithin operands.old.room library.now arena.now frames.now (record { instruction = fetched.call op number; end = end }) }
    requires methods { OfRunning (λ c. HasMethods c.slots) frames.now.calls }
    ensures taken { IsTaken library.now op number arena.now frames.now operands.new result }
    ensures room { operands.new.room ≡ operands.old.room }
{
    room_law();
    tops_law();
    let _ = end;
    operands.take(frames, number);
    match op {
        CallOp::CallFunction => call_function(frames, arena, library, number),
        CallOp::CallMethod => call_method(frames, arena, library, number),
    }
}

/// How many visits the call makes that was taken, up to `most`. It goes no further.
#[inline(always)]
pub fn visits_call_on(
    arena: &Arena,
    library: &Library,
    operands: &Operands,
    call: Invocation,
    most: u64,
) -> u64
    requires callee { IsKnownCallee (text_at library.now) (items_at library.now) arena.now.objects call.callee }
    requires few { length operands.now.args < 256 }
    requires known { AreKnown (text_at library.now) (items_at library.now) arena.now.objects operands.now }
    requires all_told { AllTold (text_at library.now) (items_at library.now) arena.now.objects }
    ensures { (p : Program) (w : PlainWorld) → Means p → p.shelf ≡ library.now → result ≡ min (visits p call.callee operands.now arena.now w) most }
{
    visits_call(arena, library, call.callee, operands, most)
}
