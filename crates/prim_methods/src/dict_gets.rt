//! `get` of dicts.

ghost use Rattle.std.specs.Prelude.{◌<◌, ◌^◌, length, map};
ghost use Rattle.mpy_base.specs.declared.builtin.Builtin.TheVariants as builtins;
ghost use Rattle.mpy_base.specs.World.{ADict, IsA, pairs_at};
ghost use Rattle.prim_assignments.specs.arena_heap.Values.{Leads, IsDict};
ghost use Rattle.prim_builtins.specs.py_values.Keys.{value_of_key};
ghost use Rattle.prim_builtins.specs.py_primitives.Outcome.{gives};
ghost use Rattle.prim_builtins.specs.py_primitives.Operators.{with_key_of};
ghost use Rattle.prim_builtins.specs.py_primitives.Methods.{get_or as value_or};
ghost use Rattle.prim_assignments.specs.prim_faults.Sights.{calling_method, Tells, TellsAll, KnowsAll, Does};

use crate::objects::dict_number;
use arena_heap::{Arena, Constants, DictNo, Value};
use prim_assignments::dict_get;
use prim_builtins::{Fault, SpecialMethod, Stop, is_key, only_between, type_of};

/// The value of a key, and else the first of the other arguments, if there is one.
fn get<C: Constants>(
    arena: &Arena,
    consts: &C,
    d: DictNo,
    key: Value,
    others: &[Value],
) -> Result<Value, Stop>
    requires dict { IsA arena.now.objects ADict d.cell }
    requires leads { Leads arena.now.objects key }
    requires told { Tells C.Constants consts.now key }
    requires known { KnowsAll C.Constants consts.now arena.now others.now }
    requires all_told { TellsAll C.Constants consts.now arena.now }
    ensures { Does C.Constants consts.now arena.now arena.now result (λ heap see. let pairs = map see.pair (pairs_at arena.now d.cell)
        in let key = see.value key
        in with_key_of heap key (gives (value_or (value_of_key heap pairs key) (map see.value others.now)) heap)) }
{
    if !is_key(arena, key) {
        return Err(Stop::Raises(Fault::UnsupportedOne {
            method: SpecialMethod::Hash,
            operand: type_of(arena, key),
        }));
    }
    arena.sound_law();
    if let Some(v) = dict_get(arena, consts, d, key) {
        return Ok(v);
    }
    if others.is_empty() {
        return Ok(Value::None);
    }
    Ok(others[0])
}

/// `get` of a dict, with these arguments.
pub fn call_dict_get<C: Constants>(
    arena: &Arena,
    consts: &C,
    object: Value,
    args: &[Value],
    keys: &[(Value, Value)],
) -> Result<Value, Stop>
    requires dict { IsDict object }
    requires leads { Leads arena.now.objects object }
    requires few { length args.now < 2 ^ 32 }
    requires known { KnowsAll C.Constants consts.now arena.now args.now }
    requires all_told { TellsAll C.Constants consts.now arena.now }
    ensures { Does C.Constants consts.now arena.now arena.now result (calling_method builtins.DictGet object args.now keys.now) }
{
    let d = dict_number(object);
    match only_between(1, 2, args, keys) {
        Ok(()) => get(arena, consts, d, args[0], &args[1..]),
        Err(fault) => Err(Stop::Raises(fault)),
    }
}
