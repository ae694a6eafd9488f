//! `bool` of any value.

ghost use Rattle.std.specs.Prelude.{◌<◌, ◌^◌, length};
ghost use Rattle.prim_operators.specs.mpy_base.declared.builtin.Builtin.TheVariants as builtins;
ghost use Rattle.prim_operators.specs.arena_heap.Values.{Leads};
ghost use Rattle.prim_operators.specs.mpy_base.Val.{Truth};
ghost use Rattle.prim_operators.specs.py_values.Shown.{truth as truth_in};
ghost use Rattle.prim_operators.specs.py_primitives.Outcome.{gives};
ghost use Rattle.prim_operators.specs.prim_faults.Sights.{calling, Tells, TellsAll, KnowsAll, Does};

use crate::arguments::one_argument;
use prim_operators::{Arena, Constants, Stop, Value, truth};

/// `bool` of one value.
fn truth_of<C: Constants>(arena: &Arena, consts: &C, v: Value) -> Result<Value, Stop>
    requires leads { Leads arena.now.objects v }
    requires told { Tells C.Constants consts.now v }
    requires all_told { TellsAll C.Constants consts.now arena.now }
    ensures { Does C.Constants consts.now arena.now arena.now result (λ heap see. gives (Truth (truth_in heap (see.value v))) heap) }
{
    Ok(Value::Bool(truth(arena, consts, v)))
}

/// `bool` of these arguments.
pub fn call_bool<C: Constants>(
    arena: &Arena,
    consts: &C,
    args: &[Value],
    keys: &[(Value, Value)],
) -> Result<Value, Stop>
    requires few { length args.now < 2 ^ 32 }
    requires known { KnowsAll C.Constants consts.now arena.now args.now }
    requires all_told { TellsAll C.Constants consts.now arena.now }
    ensures { Does C.Constants consts.now arena.now arena.now result (calling builtins.Bool args.now keys.now) }
{
    match one_argument(args, keys) {
        Ok(v) => truth_of(arena, consts, v),
        Err(fault) => Err(Stop::Raises(fault)),
    }
}
