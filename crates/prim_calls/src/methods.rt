//! Calls of methods of lists, dicts and strs, by the method.

ghost use Rattle.std.specs.Prelude.{◌<◌, ◌^◌, length, map};
ghost use Rattle.prim_methods.specs.arena_heap.Values.{IsMethodOf};
ghost use Rattle.prim_types.specs.py_primitives.Methods.{call_method as call_method_in};
ghost use Rattle.prim_methods.specs.prim_faults.Sights.{TellsAll, Knows, KnowsAll, Does};

use arena_heap::{Arena, Constants, Value};
use mpy_base::Builtin;
use prim_builtins::Stop;
use prim_methods::{
    call_dict_get, call_dict_items, call_dict_keys, call_dict_pop, call_dict_values,
    call_list_append, call_list_extend, call_list_insert, call_list_pop,
};
use prim_str_methods::{call_str_find, call_str_join, call_str_split, call_str_startswith};

/// A method of an object of its type, with these arguments.
pub fn call_method<C: Constants>(
    arena: &mut Arena,
    consts: &C,
    method: Builtin,
    object: Value,
    args: &[Value],
    keys: &[(Value, Value)],
) -> Result<Value, Stop>
    requires method { IsMethodOf method object }
    requires object { Knows C.Constants consts.now arena.old object }
    requires few { length args.now < 2 ^ 32 }
    requires known { KnowsAll C.Constants consts.now arena.old args.now }
    requires all_told { TellsAll C.Constants consts.now arena.old }
    ensures { Does C.Constants consts.now arena.old arena.new result
        (λ heap see. call_method_in heap method (see.value object) (map see.value args.now) (map see.pair keys.now)) }
{
    match method {
        Builtin::ListAppend => call_list_append(arena, consts, object, args, keys),
        Builtin::ListPop => call_list_pop(arena, consts, object, args, keys),
        Builtin::ListInsert => call_list_insert(arena, consts, object, args, keys),
        Builtin::ListExtend => call_list_extend(arena, consts, object, args, keys),
        Builtin::DictGet => call_dict_get(arena, consts, object, args, keys),
        Builtin::DictKeys => call_dict_keys(arena, consts, object, args, keys),
        Builtin::DictValues => call_dict_values(arena, consts, object, args, keys),
        Builtin::DictItems => call_dict_items(arena, consts, object, args, keys),
        Builtin::DictPop => call_dict_pop(arena, consts, object, args, keys),
        Builtin::StrJoin => call_str_join(arena, consts, object, args, keys),
        Builtin::StrFind => call_str_find(arena, consts, object, args, keys),
        Builtin::StrStartsWith => call_str_startswith(arena, consts, object, args, keys),
        Builtin::StrSplit => call_str_split(arena, consts, object, args, keys),
        _ => unreachable!(),
    }
}
