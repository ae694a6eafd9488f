//! `abs` of a number.

ghost use Rattle.std.specs.Prelude.{◌<◌, ◌^◌, length};
ghost use Rattle.prim_operators.specs.mpy_base.declared.builtin.Builtin.TheVariants as builtins;
ghost use Rattle.prim_operators.specs.arena_heap.Values.{Leads};
ghost use Rattle.prim_operators.specs.py_primitives.Calls.{call_abs as abs_in};
ghost use Rattle.prim_operators.specs.prim_faults.Sights.{calling, TellsAll, KnowsAll, Does};

use crate::arguments::one_argument;
use crate::counts::gives_count;
use crate::numbers::number_of;
use prim_operators::{Arena, Constants, Stop, Value};

/// `abs` of one value.
fn abs_of<C: Constants>(arena: &Arena, _consts: &C, v: Value) -> Result<Value, Stop>
    requires leads { Leads arena.now.objects v }
    requires all_told { TellsAll C.Constants _consts.now arena.now }
    ensures { Does C.Constants _consts.now arena.now arena.now result (λ heap see. abs_in heap (see.value v)) }
{
    match number_of(arena, v) {
        Ok(z) => gives_count(z.unsigned_abs() as usize),
        Err(fault) => Err(Stop::Raises(fault)),
    }
}

/// `abs` of these arguments.
pub fn call_abs<C: Constants>(
    arena: &Arena,
    consts: &C,
    args: &[Value],
    keys: &[(Value, Value)],
) -> Result<Value, Stop>
    requires few { length args.now < 2 ^ 32 }
    requires known { KnowsAll C.Constants consts.now arena.now args.now }
    requires all_told { TellsAll C.Constants consts.now arena.now }
    ensures { Does C.Constants consts.now arena.now arena.now result (calling builtins.Abs args.now keys.now) }
{
    match one_argument(args, keys) {
        Ok(v) => abs_of(arena, consts, v),
        Err(fault) => Err(Stop::Raises(fault)),
    }
}
