//! Items and keys that are deleted.

ghost use Rattle.std.specs.Prelude.{map};
ghost use Rattle.std.specs.List.{remove};
ghost use Rattle.prim_faults.specs.mpy_base.World.{ADict, AList, IsA, items_at, pairs_at, with_dict, with_list};
ghost use Rattle.prim_faults.specs.mpy_base.Val.{Nil, At};
ghost use Rattle.prim_faults.specs.arena_heap.Values.{Leads};
ghost use Rattle.prim_faults.specs.py_values.Keys.{without_key};
ghost use Rattle.prim_faults.specs.py_primitives.Outcome.{gives};
ghost use Rattle.prim_faults.specs.py_primitives.Uses.{of_key, at_place, delete_item as delete_item_of};
ghost use Rattle.prim_faults.specs.Sights.{Tells, TellsAll, Does};

use crate::containers::{Container, container_of};
use crate::indexes::place_of;
use crate::items::items_law;
use prim_faults::{
    Arena, Constants, DictNo, Fault, ListNo, SpecialMethod, Stop, Value, dict_delete, is_key,
    list_pop, type_of,
};

/// Deletes the pair of a key.
fn delete_key<C: Constants>(
    arena: &mut Arena,
    consts: &C,
    d: DictNo,
    key: Value,
) -> Result<Value, Stop>
    requires dict { IsA arena.old.objects ADict d.cell }
    requires leads { Leads arena.old.objects key }
    requires told { Tells C.Constants consts.now key }
    requires all_told { TellsAll C.Constants consts.now arena.old }
    ensures { Does C.Constants consts.now arena.old arena.new result (λ heap see. let pairs = map see.pair (pairs_at arena.old d.cell)
        in let key = see.value key in of_key heap pairs key (λ found. gives Nil (with_dict heap d.cell (without_key heap pairs key)))) }
{
    if !is_key(arena, key) {
        return Err(Stop::Raises(Fault::UnsupportedOne {
            method: SpecialMethod::Hash,
            operand: type_of(arena, key),
        }));
    }
    arena.sound_law();
    match dict_delete(arena, consts, d, key) {
        Some(_) => Ok(Value::None),
        None => Err(Stop::Raises(Fault::NoKey(key))),
    }
}

/// Deletes the item at the place that an index names.
fn delete_place<C: Constants>(
    arena: &mut Arena,
    consts: &C,
    l: ListNo,
    index: Value,
) -> Result<Value, Stop>
    requires list { IsA arena.old.objects AList l.cell }
    requires leads { Leads arena.old.objects index }
    requires told { Tells C.Constants consts.now index }
    requires all_told { TellsAll C.Constants consts.now arena.old }
    ensures { Does C.Constants consts.now arena.old arena.new result (λ heap see. let items = map see.value (items_at arena.old l.cell)
        in at_place heap (At l.cell) (see.value index) (λ at. gives Nil (with_list heap l.cell (remove items at)))) }
{
    items_law(arena, consts, Value::List(l));
    match place_of(arena, consts, Value::List(l), index) {
        Ok(at) => {
            let _item = list_pop(arena, l, at as u32);
            Ok(Value::None)
        }
        Err(fault) => Err(Stop::Raises(fault)),
    }
}

/// Deletes the item that an index names, or the pair of a key.
pub fn delete_item<C: Constants>(
    arena: &mut Arena,
    consts: &C,
    object: Value,
    index: Value,
) -> Result<Value, Stop>
    requires leads { Leads arena.old.objects object }
    requires told { Tells C.Constants consts.now object }
    requires index_leads { Leads arena.old.objects index }
    requires index_told { Tells C.Constants consts.now index }
    requires all_told { TellsAll C.Constants consts.now arena.old }
    ensures { Does C.Constants consts.now arena.old arena.new result (λ heap see. delete_item_of heap (see.value object) (see.value index)) }
{
    match container_of(arena, object) {
        Container::Dict(d) => delete_key(arena, consts, d, index),
        Container::List(l) => delete_place(arena, consts, l, index),
        Container::Sequence => Err(Stop::Raises(Fault::NotDeletable(type_of(arena, object)))),
        Container::Other => Err(Stop::Raises(Fault::NotDeletable(type_of(arena, object)))),
    }
}
