//! `startswith`.

ghost use Rattle.std.specs.Prelude.{◌≡◌, ◌<◌, ◌^◌, length, nat_eq};
ghost use Rattle.std.specs.List.{starts_with};
ghost use Rattle.mpy_base.specs.declared.builtin.Builtin.TheVariants as builtins;
ghost use Rattle.mpy_base.specs.Val.{Truth};
ghost use Rattle.prim_builtins.specs.arena_heap.Values.{Leads, IsStr};
ghost use Rattle.prim_builtins.specs.py_values.Shown.{shown};
ghost use Rattle.prim_builtins.specs.py_primitives.Outcome.{gives};
ghost use Rattle.prim_builtins.specs.py_primitives.Methods.{of_str};
ghost use Rattle.prim_builtins.specs.prim_faults.Sights.{calling_method, Tells, TellsAll, KnowsAll, Does};

use crate::arguments::no_str;
use arena_heap::{Arena, Constants, Value};
use arena_objects::text_bytes;
use prim_builtins::{Stop, one_argument};
use prim_walks::{Look, look_at};

/// Whether the bytes begin with the part.
fn begins_with(bytes: &[u8], part: &[u8]) -> bool
    ensures { result ≡ starts_with nat_eq bytes.now part.now }
{
    bytes.starts_with(part)
}

fn starts_in<C: Constants>(
    arena: &Arena,
    consts: &C,
    object: Value,
    v: Value,
) -> Result<Value, Stop>
    requires str { IsStr object }
    requires object_leads { Leads arena.now.objects object }
    requires object_told { Tells C.Constants consts.now object }
    requires leads { Leads arena.now.objects v }
    requires told { Tells C.Constants consts.now v }
    requires all_told { TellsAll C.Constants consts.now arena.now }
    ensures { Does C.Constants consts.now arena.now arena.now result
        (λ heap see. of_str heap (see.value object) (see.value v) (shown heap (see.value v))
        (λ part. gives (Truth (starts_with nat_eq (see.bytes arena.now object) part)) heap)) }
{
    match look_at(arena, consts, v) {
        Look::Text(part) => {
            let bytes = text_bytes(arena, consts, object);
            Ok(Value::Bool(begins_with(bytes, part)))
        }
        _ => Err(Stop::Raises(no_str(arena, object, v))),
    }
}

/// `startswith` of a str and these arguments.
pub fn call_str_startswith<C: Constants>(
    arena: &Arena,
    consts: &C,
    object: Value,
    args: &[Value],
    keys: &[(Value, Value)],
) -> Result<Value, Stop>
    requires few { length args.now < 2 ^ 32 }
    requires str { IsStr object }
    requires leads { Leads arena.now.objects object }
    requires told { Tells C.Constants consts.now object }
    requires known { KnowsAll C.Constants consts.now arena.now args.now }
    requires all_told { TellsAll C.Constants consts.now arena.now }
    ensures { Does C.Constants consts.now arena.now arena.now result (calling_method builtins.StrStartsWith object args.now keys.now) }
{
    match one_argument(args, keys) {
        Ok(v) => starts_in(arena, consts, object, v),
        Err(fault) => Err(Stop::Raises(fault)),
    }
}
