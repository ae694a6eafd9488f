//! Operators, as they were fetched for calls of a program.

ghost use Rattle.std.specs.Prelude.{◌≡◌, min};
ghost use Rattle.vm_states.specs.prim_names.prim_faults.Sights.{under};
ghost use Rattle.vm_states.specs.vm_fetching.Instructions as fetched;
ghost use Rattle.vm_states.specs.Acting.{RunsOver};
ghost use Rattle.state_values.specs.Keeping.{ActsKeeping};
ghost use Rattle.state_values.specs.Operators.{visits_binary};

use crate::law::acting_law;
use arena_heap::{Arena, Constants};
use prim_faults::Stop;
use vm_frames::Frames;
use vm_states::tops_law;

/// UNARY_OP.
pub fn unary_op<C: Constants>(
    frames: &mut Frames,
    arena: &Arena,
    consts: &C,
    number: u8,
    end: u32,
) -> Result<(), Stop>
    requires runs { under C.Constants consts.now RunsOver arena.now frames.old (record { instruction = fetched.unary number; end = end }) }
    ensures acts { under C.Constants consts.now ActsKeeping
        (record { instruction = fetched.unary number; end = end }) 0 arena.now arena.now frames.old frames.new result }
{
    acting_law();
    tops_law();
    frame_values::unary_op(frames, arena, consts, number, end)
}

/// BINARY_OP. Its visits are those of the operator (`visits_binary_op`).
pub fn binary_op<C: Constants>(
    frames: &mut Frames,
    arena: &mut Arena,
    consts: &C,
    number: u8,
    end: u32,
) -> Result<(), Stop>
    requires runs { under C.Constants consts.now RunsOver arena.old frames.old (record { instruction = fetched.binary number; end = end }) }
    ensures acts { under C.Constants consts.now ActsKeeping (record { instruction = fetched.binary number; end = end })
        (under C.Constants consts.now visits_binary arena.old frames.old.calls number) arena.old arena.new frames.old frames.new result }
{
    acting_law();
    tops_law();
    frame_values::binary_op(frames, arena, consts, number, end)
}

/// How many visits BINARY_OP makes, up to `most`. It goes no further.
pub fn visits_binary_op<C: Constants>(
    frames: &Frames,
    arena: &Arena,
    consts: &C,
    number: u8,
    end: u32,
    most: u64,
) -> u64
    requires runs { under C.Constants consts.now RunsOver arena.now frames.now (record { instruction = fetched.binary number; end = end }) }
    ensures visits { result ≡ min (under C.Constants consts.now visits_binary arena.now frames.now.calls number) most }
{
    tops_law();
    let _ = end;
    frame_values::visits_binary_op(frames, arena, consts, number, most)
}
