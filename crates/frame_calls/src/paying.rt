//! The visits of calls, which are paid before a call acts.

ghost use Rattle.std.specs.Prelude.{◌≡◌, ◌<◌, ◌^◌, length, map, min};
ghost use Rattle.mpy_base.specs.Val.{PlainWorld};
ghost use Rattle.frame_moves.specs.prim_faults.Sights.{under, sight, TellsAll, world_over};
ghost use Rattle.prim_calls.specs.Callees.{plain_callee, IsKnownCallee};
ghost use Rattle.frame_calls.specs.Invoking.{visits_of};
ghost use Rattle.frame_calls.specs.Known.{AreKnown};

use crate::operands::Operands;
use arena_heap::{Arena, Constants};
use prim_calls::{Callee, visits_call_builtin, visits_call_method};

/// How many visits a call of this callee with these operands makes, up to `most`. It goes no further.
#[inline(always)]
pub fn visits_call<C: Constants>(
    arena: &Arena,
    consts: &C,
    callee: Callee,
    operands: &Operands,
    most: u64,
) -> u64
    requires callee { under C.Constants consts.now IsKnownCallee arena.now.objects callee }
    requires few { length operands.now.args < 2 ^ 32 }
    requires known { under C.Constants consts.now AreKnown arena.now.objects operands.now }
    requires all_told { TellsAll C.Constants consts.now arena.now }
    ensures { let see = sight C.Constants consts.now in (w : PlainWorld)
        → result ≡ min (visits_of (plain_callee see.texts see.tuples (world_over see.texts see.tuples w arena.now) callee)
        (map see.value operands.now.args) (map see.pair operands.now.keys)) most }
{
    let args = operands.positional();
    let keys = operands.keywords();
    match callee {
        Callee::Method { object, method } => {
            visits_call_method(arena, consts, method, object, args, keys, most)
        }
        Callee::Built(b) => visits_call_builtin(arena, consts, b, args, keys, most),
        Callee::Runs(_) | Callee::NotCallable(_) => 0,
    }
}
