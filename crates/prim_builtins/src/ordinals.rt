//! `ord` of a text of one byte.

ghost use Rattle.std.specs.Prelude.{◌<◌, ◌^◌, length};
ghost use Rattle.prim_operators.specs.mpy_base.declared.builtin.Builtin.TheVariants as builtins;
ghost use Rattle.prim_operators.specs.arena_heap.Values.{Leads};
ghost use Rattle.prim_operators.specs.py_values.Shown.{Text, shown};
ghost use Rattle.prim_operators.specs.py_primitives.Calls.{ord_of as ord_in};
ghost use Rattle.prim_operators.specs.prim_faults.Sights.{calling, Tells, TellsAll, KnowsAll, Does};
ghost use Rattle.prim_operators.specs.Changeless.{IsAnswerOf};

use crate::arguments::one_argument;
use prim_operators::{Arena, Constants, Fault, Look, Stop, Value, look_at};

/// The code of a str of one byte.
fn code_of(bytes: &[u8]) -> Result<Value, Stop>
    ensures { IsAnswerOf result (λ heap. ord_in heap (Text bytes.now)) }
{
    if bytes.len() != 1 {
        return Err(Stop::Raises(Fault::NoCharacter));
    }
    Ok(Value::Int(bytes[0] as i32))
}

/// `ord` of one value.
fn ord_of<C: Constants>(arena: &Arena, consts: &C, v: Value) -> Result<Value, Stop>
    requires leads { Leads arena.now.objects v }
    requires told { Tells C.Constants consts.now v }
    requires all_told { TellsAll C.Constants consts.now arena.now }
    ensures { Does C.Constants consts.now arena.now arena.now result (λ heap see. ord_in heap (shown heap (see.value v))) }
{
    match look_at(arena, consts, v) {
        Look::Text(bytes) => code_of(bytes),
        _ => Err(Stop::Raises(Fault::NoCharacter)),
    }
}

/// `ord` of these arguments.
pub fn call_ord<C: Constants>(
    arena: &Arena,
    consts: &C,
    args: &[Value],
    keys: &[(Value, Value)],
) -> Result<Value, Stop>
    requires few { length args.now < 2 ^ 32 }
    requires known { KnowsAll C.Constants consts.now arena.now args.now }
    requires all_told { TellsAll C.Constants consts.now arena.now }
    ensures { Does C.Constants consts.now arena.now arena.now result (calling builtins.Ord args.now keys.now) }
{
    match one_argument(args, keys) {
        Ok(v) => ord_of(arena, consts, v),
        Err(fault) => Err(Stop::Raises(fault)),
    }
}
