//! `len` of what has items.

ghost use Rattle.std.specs.Prelude.{◌<◌, ◌^◌, length};
ghost use Rattle.prim_operators.specs.mpy_base.declared.builtin.Builtin.TheVariants as builtins;
ghost use Rattle.prim_operators.specs.arena_heap.Values.{Leads};
ghost use Rattle.prim_operators.specs.py_primitives.Iterables.{items_in};
ghost use Rattle.prim_operators.specs.py_primitives.Calls.{call_len as len_in};
ghost use Rattle.prim_operators.specs.prim_faults.Sights.{calling, Tells, TellsAll, KnowsAll, Does};

use crate::arguments::one_argument;
use crate::counts::gives_count;
use prim_operators::{Arena, Constants, Fault, Look, Stop, Value, length_of, look_at, type_of};

/// `len` of one value.
fn len_of<C: Constants>(arena: &Arena, consts: &C, v: Value) -> Result<Value, Stop>
    requires leads { Leads arena.now.objects v }
    requires told { Tells C.Constants consts.now v }
    requires all_told { TellsAll C.Constants consts.now arena.now }
    ensures { Does C.Constants consts.now arena.now arena.now result (λ heap see. len_in heap (see.value v) (items_in heap (see.value v))) }
{
    match look_at(arena, consts, v) {
        Look::Nothing | Look::Number(_) | Look::Other => {
            Err(Stop::Raises(Fault::NoLength(type_of(arena, v))))
        }
        _ => gives_count(length_of(arena, consts, v)),
    }
}

/// `len` of these arguments.
pub fn call_len<C: Constants>(
    arena: &Arena,
    consts: &C,
    args: &[Value],
    keys: &[(Value, Value)],
) -> Result<Value, Stop>
    requires few { length args.now < 2 ^ 32 }
    requires known { KnowsAll C.Constants consts.now arena.now args.now }
    requires all_told { TellsAll C.Constants consts.now arena.now }
    ensures { Does C.Constants consts.now arena.now arena.now result (calling builtins.Len args.now keys.now) }
{
    match one_argument(args, keys) {
        Ok(v) => len_of(arena, consts, v),
        Err(fault) => Err(Stop::Raises(fault)),
    }
}
