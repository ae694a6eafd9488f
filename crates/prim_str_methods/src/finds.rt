//! `find`.

ghost use Rattle.std.specs.Prelude.{◌<◌, ◌^◌, length};
ghost use Rattle.mpy_base.specs.declared.builtin.Builtin.TheVariants as builtins;
ghost use Rattle.prim_builtins.specs.arena_heap.Values.{Leads, IsStr};
ghost use Rattle.prim_builtins.specs.py_values.Shown.{shown};
ghost use Rattle.prim_builtins.specs.py_values.Small.{checked};
ghost use Rattle.prim_builtins.specs.py_primitives.Operators.{gives_number};
ghost use Rattle.prim_builtins.specs.py_primitives.Methods.{of_str, found_from};
ghost use Rattle.prim_builtins.specs.prim_faults.Sights.{calling_method, Tells, TellsAll, KnowsAll, Does};
ghost use Rattle.prim_builtins.specs.prim_operators.Changeless.{IsAnswerOf};

use crate::arguments::no_str;
use arena_heap::{Arena, Constants, Value};
use arena_objects::text_bytes;
use memchr::memmem;
use prim_builtins::{Stop, gives_count, one_argument};
use prim_walks::{Look, look_at};

/// The first place of the part, or -1 where it stands nowhere.
fn place_in(bytes: &[u8], part: &[u8]) -> Result<Value, Stop>
    ensures { IsAnswerOf result (λ heap. gives_number heap (checked (found_from 0 part.now bytes.now))) }
{
    match memmem::find(bytes, part) {
        Some(at) => gives_count(at),
        None => Ok(Value::Int(-1)),
    }
}

fn find_in<C: Constants>(arena: &Arena, consts: &C, object: Value, v: Value) -> Result<Value, Stop>
    requires str { IsStr object }
    requires object_leads { Leads arena.now.objects object }
    requires object_told { Tells C.Constants consts.now object }
    requires leads { Leads arena.now.objects v }
    requires told { Tells C.Constants consts.now v }
    requires all_told { TellsAll C.Constants consts.now arena.now }
    ensures { Does C.Constants consts.now arena.now arena.now result
        (λ heap see. of_str heap (see.value object) (see.value v) (shown heap (see.value v))
        (λ part. gives_number heap (checked (found_from 0 part (see.bytes arena.now object))))) }
{
    match look_at(arena, consts, v) {
        Look::Text(part) => place_in(text_bytes(arena, consts, object), part),
        _ => Err(Stop::Raises(no_str(arena, object, v))),
    }
}

/// `find` of a str and these arguments.
pub fn call_str_find<C: Constants>(
    arena: &Arena,
    consts: &C,
    object: Value,
    args: &[Value],
    keys: &[(Value, Value)],
) -> Result<Value, Stop>
    requires few { length args.now < 2 ^ 32 }
    requires str { IsStr object }
    requires leads { Leads arena.now.objects object }
    requires told { Tells C.Constants consts.now object }
    requires known { KnowsAll C.Constants consts.now arena.now args.now }
    requires all_told { TellsAll C.Constants consts.now arena.now }
    ensures { Does C.Constants consts.now arena.now arena.now result (calling_method builtins.StrFind object args.now keys.now) }
{
    match one_argument(args, keys) {
        Ok(v) => find_in(arena, consts, object, v),
        Err(fault) => Err(Stop::Raises(fault)),
    }
}
