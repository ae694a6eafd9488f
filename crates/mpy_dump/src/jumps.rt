//! How the lines of jumps end: with a name, and a number that depends on where the jump stands.

ghost use Rattle.std.specs.Prelude.{◌≡◌, ◌<◌, ◌≤◌, ◌++◌, ◌+ℤ◌, pos, take, codes, IfSome};
ghost use Rattle.mpy_dump.specs.Operations.{operation_name};
ghost use Rattle.mpy_dump.specs.Short.{IsJumpEnd};

use crate::short::SHORT_BYTES;
use bc_ops::{Instr, Op};
use mpy_base::limits::MAX_CODE_BYTES;

/// A text that is the front of an array.
type Front = (&'static [u8; SHORT_BYTES], usize);

/// A jump's name with a blank behind it.
#[inline(always)]
fn jump_name(op: Op) -> Option<Front>
    ensures { IfSome result (λ name. (name.1 ≤ 32) × (take name.1 name.0.now ≡ operation_name op ++ codes " ")) }
{
    match op {
        Op::Jump => Some((b"JUMP                            ", 5)),
        Op::PopJumpIfTrue => Some((b"POP_JUMP_IF_TRUE                ", 17)),
        Op::PopJumpIfFalse => Some((b"POP_JUMP_IF_FALSE               ", 18)),
        Op::JumpIfTrueOrPop => Some((b"JUMP_IF_TRUE_OR_POP             ", 20)),
        Op::JumpIfFalseOrPop => Some((b"JUMP_IF_FALSE_OR_POP            ", 21)),
        Op::SetupExcept => Some((b"SETUP_EXCEPT                    ", 13)),
        Op::SetupFinally => Some((b"SETUP_FINALLY                   ", 14)),
        Op::PopExceptJump => Some((b"POP_EXCEPT_JUMP                 ", 16)),
        Op::ForIter => Some((b"FOR_ITER                        ", 9)),
        _ => None,
    }
}

/// Where a jump goes whose offset ends at `end`, where that has at most five digits and no sign.
#[inline(always)]
fn jump_target(end: usize, offset: i32) -> Option<u32>
    requires { end ≤ MAX_CODE_BYTES }
    ensures { IfSome result (λ target. (target < 100000) × ((pos end +ℤ offset) ≡ pos target)) }
{
    let target = end as i64 + i64::from(offset);
    if target < 0 || target >= 100_000 {
        return None;
    }
    Some(target as u32)
}

/// The name of the jump that ends at the offset, and where it goes, where that has at most five digits.
#[inline(always)]
pub(crate) fn jump_end(end: usize, instr: Instr) -> Option<(Front, u32)>
    requires { end ≤ MAX_CODE_BYTES }
    ensures { IfSome result (λ jump. IsJumpEnd end instr jump.0.0.now jump.0.1 jump.1) }
{
    let Instr::Jump { op, offset, .. } = instr else {
        return None;
    };
    let Some(name) = jump_name(op) else {
        return None;
    };
    let Some(target) = jump_target(end, offset) else {
        return None;
    };
    Some((name, target))
}
