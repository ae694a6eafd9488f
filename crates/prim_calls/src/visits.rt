//! The visits of calls, which are paid before a call acts.

ghost use Rattle.std.specs.Prelude.{◌≡◌, ◌<◌, ◌^◌, length, map, min};
ghost use Rattle.mpy_base.specs.Val.{PlainWorld};
ghost use Rattle.prim_methods.specs.arena_heap.Values.{IsMethodOf};
ghost use Rattle.prim_types.specs.py_primitives.Methods.{call_method as call_method_in};
ghost use Rattle.prim_outputs.specs.py_effects.Calling.{call_builtin as call_builtin_in};
ghost use Rattle.prim_methods.specs.prim_faults.Sights.{sight, TellsAll, Knows, KnowsAll, KnowsPairs, CountsUpTo, world_over};

use arena_heap::{Arena, Constants, Value};
use mpy_base::Builtin;
use prim_collections::{visits_call_list, visits_call_max, visits_call_min, visits_call_tuple};
use prim_methods::{
    visits_call_dict_items, visits_call_dict_keys, visits_call_dict_values, visits_call_list_extend,
};
use prim_outputs::visits_call_print;
use prim_str_methods::visits_call_str_join;
use prim_types::visits_call_shown;

/// How many visits `call_method` of these makes, up to `most`. It goes no further.
pub fn visits_call_method<C: Constants>(
    arena: &Arena,
    consts: &C,
    method: Builtin,
    object: Value,
    args: &[Value],
    keys: &[(Value, Value)],
    most: u64,
) -> u64
    requires method { IsMethodOf method object }
    requires object { Knows C.Constants consts.now arena.now object }
    requires few { length args.now < 2 ^ 32 }
    requires known { KnowsAll C.Constants consts.now arena.now args.now }
    requires all_told { TellsAll C.Constants consts.now arena.now }
    ensures { CountsUpTo C.Constants consts.now result most arena.now
        (λ heap see. call_method_in heap method (see.value object) (map see.value args.now) (map see.pair keys.now)) }
{
    match method {
        Builtin::ListExtend => visits_call_list_extend(arena, consts, object, args, keys, most),
        Builtin::DictKeys => visits_call_dict_keys(arena, consts, object, args, keys, most),
        Builtin::DictValues => visits_call_dict_values(arena, consts, object, args, keys, most),
        Builtin::DictItems => visits_call_dict_items(arena, consts, object, args, keys, most),
        Builtin::StrJoin => visits_call_str_join(arena, consts, object, args, keys, most),
        _ => 0,
    }
}

/// How many visits `call_builtin` of these makes, up to `most`. It goes no further.
pub fn visits_call_builtin<C: Constants>(
    arena: &Arena,
    consts: &C,
    b: Builtin,
    args: &[Value],
    keys: &[(Value, Value)],
    most: u64,
) -> u64
    requires few { length args.now < 2 ^ 32 }
    requires known { KnowsAll C.Constants consts.now arena.now args.now }
    requires known_keys { KnowsPairs C.Constants consts.now arena.now keys.now }
    requires all_told { TellsAll C.Constants consts.now arena.now }
    ensures { let see = sight C.Constants consts.now in (w : PlainWorld)
        → result ≡ min (call_builtin_in (world_over see.texts see.tuples w arena.now) b (map see.value args.now)
        (map see.pair keys.now)).visits most }
{
    match b {
        Builtin::Print => visits_call_print(arena, consts, args, keys, most),
        Builtin::Str => visits_call_shown(arena, consts, args, keys, true, most),
        Builtin::Repr => visits_call_shown(arena, consts, args, keys, false, most),
        Builtin::List => visits_call_list(arena, consts, args, keys, most),
        Builtin::Tuple => visits_call_tuple(arena, consts, args, keys, most),
        Builtin::Min => visits_call_min(arena, consts, args, keys, most),
        Builtin::Max => visits_call_max(arena, consts, args, keys, most),
        _ => 0,
    }
}
