//! Items and keys that are set.

ghost use Rattle.std.specs.Prelude.{map, slice_set};
ghost use Rattle.prim_operators.specs.mpy_base.World.{ADict, AList, IsA, items_at, with_list};
ghost use Rattle.prim_operators.specs.mpy_base.Val.{Nil, At};
ghost use Rattle.prim_operators.specs.arena_heap.Values.{Leads};
ghost use Rattle.prim_operators.specs.py_primitives.Operators.{with_key_of};
ghost use Rattle.prim_operators.specs.py_primitives.Outcome.{gives};
ghost use Rattle.prim_operators.specs.py_primitives.Uses.{at_place, put_pair as put_pair_of, set_item as set_item_of};
ghost use Rattle.prim_operators.specs.prim_faults.Sights.{Tells, TellsAll, Does};

use crate::pairs::put_pair;
use prim_operators::{
    Arena, Constants, Container, DictNo, Fault, ListNo, SpecialMethod, Stop, Value, container_of,
    is_key, items_law, list_set, place_of, type_of,
};

/// Sets the value of what may be a key.
fn set_key<C: Constants>(
    arena: &mut Arena,
    consts: &C,
    d: DictNo,
    key: Value,
    v: Value,
) -> Result<Value, Stop>
    requires dict { IsA arena.old.objects ADict d.cell }
    requires key_leads { Leads arena.old.objects key }
    requires key_told { Tells C.Constants consts.now key }
    requires leads { Leads arena.old.objects v }
    requires told { Tells C.Constants consts.now v }
    requires all_told { TellsAll C.Constants consts.now arena.old }
    ensures { Does C.Constants consts.now arena.old arena.new result (λ heap see. let key = see.value key
        in with_key_of heap key (put_pair_of heap d.cell key (see.value v))) }
{
    if !is_key(arena, key) {
        return Err(Stop::Raises(Fault::UnsupportedOne {
            method: SpecialMethod::Hash,
            operand: type_of(arena, key),
        }));
    }
    put_pair(arena, consts, d, key, v)
}

/// Sets the item at the place that an index names.
fn set_place<C: Constants>(
    arena: &mut Arena,
    consts: &C,
    l: ListNo,
    index: Value,
    v: Value,
) -> Result<Value, Stop>
    requires list { IsA arena.old.objects AList l.cell }
    requires index_leads { Leads arena.old.objects index }
    requires index_told { Tells C.Constants consts.now index }
    requires leads { Leads arena.old.objects v }
    requires told { Tells C.Constants consts.now v }
    requires all_told { TellsAll C.Constants consts.now arena.old }
    ensures { Does C.Constants consts.now arena.old arena.new result (λ heap see. let items = map see.value (items_at arena.old l.cell)
        in at_place heap (At l.cell) (see.value index) (λ at. gives Nil (with_list heap l.cell (slice_set items at (see.value v))))) }
{
    items_law(arena, consts, Value::List(l));
    match place_of(arena, consts, Value::List(l), index) {
        Ok(at) => {
            let _set = list_set(arena, l, at as u32, v);
            Ok(Value::None)
        }
        Err(fault) => Err(Stop::Raises(fault)),
    }
}

/// Sets the item that an index names, or the value of a key.
pub fn set_item<C: Constants>(
    arena: &mut Arena,
    consts: &C,
    object: Value,
    index: Value,
    v: Value,
) -> Result<Value, Stop>
    requires object_leads { Leads arena.old.objects object }
    requires object_told { Tells C.Constants consts.now object }
    requires index_leads { Leads arena.old.objects index }
    requires index_told { Tells C.Constants consts.now index }
    requires leads { Leads arena.old.objects v }
    requires told { Tells C.Constants consts.now v }
    requires all_told { TellsAll C.Constants consts.now arena.old }
    ensures { Does C.Constants consts.now arena.old arena.new result (λ heap see. set_item_of heap (see.value object) (see.value index) (see.value v)) }
{
    match container_of(arena, object) {
        Container::Dict(d) => set_key(arena, consts, d, index, v),
        Container::List(l) => set_place(arena, consts, l, index, v),
        Container::Sequence => Err(Stop::Raises(Fault::NotAssignable(type_of(arena, object)))),
        Container::Other => Err(Stop::Raises(Fault::NotAssignable(type_of(arena, object)))),
    }
}
