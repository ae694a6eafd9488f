//! `pop` of dicts.

ghost use Rattle.std.specs.Prelude.{◌<◌, ◌^◌, length, map};
ghost use Rattle.mpy_base.specs.declared.builtin.Builtin.TheVariants as builtins;
ghost use Rattle.mpy_base.specs.World.{ADict, IsA, pairs_at};
ghost use Rattle.prim_assignments.specs.arena_heap.Values.{Leads, IsDict};
ghost use Rattle.prim_builtins.specs.py_values.Keys.{value_of_key};
ghost use Rattle.prim_builtins.specs.py_primitives.Operators.{with_key_of};
ghost use Rattle.prim_builtins.specs.py_primitives.Methods.{pop_found};
ghost use Rattle.prim_assignments.specs.prim_faults.Sights.{calling_method, Tells, TellsAll, KnowsAll, Does};

use crate::objects::dict_number;
use arena_heap::{Arena, Constants, DictNo, Value};
use prim_assignments::dict_delete;
use prim_builtins::{Fault, SpecialMethod, Stop, is_key, only_between, type_of};

/// Takes out the pair of a key and gives its value, and else the first of the other arguments, if there is one.
fn pop_key<C: Constants>(
    arena: &mut Arena,
    consts: &C,
    d: DictNo,
    key: Value,
    others: &[Value],
) -> Result<Value, Stop>
    requires dict { IsA arena.old.objects ADict d.cell }
    requires leads { Leads arena.old.objects key }
    requires told { Tells C.Constants consts.now key }
    requires known { KnowsAll C.Constants consts.now arena.old others.now }
    requires all_told { TellsAll C.Constants consts.now arena.old }
    ensures { Does C.Constants consts.now arena.old arena.new result (λ heap see. let pairs = map see.pair (pairs_at arena.old d.cell)
        in let key = see.value key
        in with_key_of heap key (pop_found heap d.cell pairs key (map see.value others.now) (value_of_key heap pairs key))) }
{
    if !is_key(arena, key) {
        return Err(Stop::Raises(Fault::UnsupportedOne {
            method: SpecialMethod::Hash,
            operand: type_of(arena, key),
        }));
    }
    arena.sound_law();
    if let Some(v) = dict_delete(arena, consts, d, key) {
        return Ok(v);
    }
    if others.is_empty() {
        return Err(Stop::Raises(Fault::NoKey(key)));
    }
    Ok(others[0])
}

/// `pop` of a dict, with these arguments.
pub fn call_dict_pop<C: Constants>(
    arena: &mut Arena,
    consts: &C,
    object: Value,
    args: &[Value],
    keys: &[(Value, Value)],
) -> Result<Value, Stop>
    requires dict { IsDict object }
    requires leads { Leads arena.old.objects object }
    requires few { length args.now < 2 ^ 32 }
    requires known { KnowsAll C.Constants consts.now arena.old args.now }
    requires all_told { TellsAll C.Constants consts.now arena.old }
    ensures { Does C.Constants consts.now arena.old arena.new result (calling_method builtins.DictPop object args.now keys.now) }
{
    let d = dict_number(object);
    match only_between(1, 2, args, keys) {
        Ok(()) => pop_key(arena, consts, d, args[0], &args[1..]),
        Err(fault) => Err(Stop::Raises(fault)),
    }
}
