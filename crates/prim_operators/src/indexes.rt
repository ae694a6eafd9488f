//! Items by their indexes.

ghost use Rattle.std.specs.Prelude.{◌<◌, IfOk, IfErr};
ghost use Rattle.prim_faults.specs.arena_heap.Values.{Leads};
ghost use Rattle.prim_faults.specs.py_primitives.Uses.{at_place, get_item as get_item_of};
ghost use Rattle.prim_faults.specs.py_primitives.Iterables.{item_of as item_in, length_of as length_in};
ghost use Rattle.prim_faults.specs.Sights.{under, sight, Tells, TellsAll, Does};
ghost use Rattle.prim_operators.specs.Containers.{IsPlace, IsNoPlace};

use crate::containers::{Container, container_of};
use crate::items::item_of;
use crate::keys::get_key;
use crate::lengths::length_of;
use crate::operand::number_of;
use crate::places::place_at;
use prim_faults::{Arena, Constants, Fault, Stop, Value, type_of};

/// The place that an index names, or the fault.
pub fn place_of<C: Constants>(
    arena: &Arena,
    consts: &C,
    object: Value,
    index: Value,
) -> Result<usize, Fault>
    requires leads { Leads arena.now.objects object }
    requires told { Tells C.Constants consts.now object }
    requires index_leads { Leads arena.now.objects index }
    ensures place { IfOk result (λ at. under C.Constants consts.now IsPlace arena.now object index at) }
    ensures within { let see = sight C.Constants consts.now in IfOk result (λ at. at < length_in (see.heap arena.now) (see.value object)) }
    ensures fault { IfErr result (under C.Constants consts.now IsNoPlace arena.now object index) }
{
    let Some(number) = number_of(index) else {
        return Err(Fault::NotAnIndex {
            sequence: type_of(arena, object),
            index: type_of(arena, index),
        });
    };
    match place_at(length_of(arena, consts, object), number) {
        Some(at) => Ok(at),
        None => Err(Fault::OutOfRange(type_of(arena, object))),
    }
}

/// The item at the place that an index names.
fn get_place<C: Constants>(
    arena: &mut Arena,
    consts: &C,
    object: Value,
    index: Value,
) -> Result<Value, Stop>
    requires leads { Leads arena.old.objects object }
    requires told { Tells C.Constants consts.now object }
    requires index_leads { Leads arena.old.objects index }
    requires index_told { Tells C.Constants consts.now index }
    requires all_told { TellsAll C.Constants consts.now arena.old }
    ensures { Does C.Constants consts.now arena.old arena.new result
        (λ heap see. at_place heap (see.value object) (see.value index) (item_in heap (see.value object))) }
{
    match place_of(arena, consts, object, index) {
        Ok(at) => item_of(arena, consts, object, at),
        Err(fault) => Err(Stop::Raises(fault)),
    }
}

/// The item that an index names, or the value of a key.
pub fn get_item<C: Constants>(
    arena: &mut Arena,
    consts: &C,
    object: Value,
    index: Value,
) -> Result<Value, Stop>
    requires leads { Leads arena.old.objects object }
    requires told { Tells C.Constants consts.now object }
    requires index_leads { Leads arena.old.objects index }
    requires index_told { Tells C.Constants consts.now index }
    requires all_told { TellsAll C.Constants consts.now arena.old }
    ensures { Does C.Constants consts.now arena.old arena.new result (λ heap see. get_item_of heap (see.value object) (see.value index)) }
{
    match container_of(arena, object) {
        Container::Dict(d) => get_key(arena, consts, d, index),
        Container::List(_) => get_place(arena, consts, object, index),
        Container::Sequence => get_place(arena, consts, object, index),
        Container::Other => Err(Stop::Raises(Fault::NotSubscriptable(type_of(arena, object)))),
    }
}
