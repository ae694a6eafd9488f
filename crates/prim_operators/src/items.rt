//! Iterables and their items.

ghost use Rattle.std.specs.Prelude.{◌≡◌, ◌^◌, ◌<◌, length};
ghost use Rattle.prim_faults.specs.arena_heap.Values.{Leads, IsStr};
ghost use Rattle.prim_faults.specs.arena_objects.Iterables.{spelled, items_in as items_in_arena};
ghost use Rattle.prim_faults.specs.py_primitives.Outcome.{gives};
ghost use Rattle.prim_faults.specs.py_primitives.Iterables.{use_iter as use_iter_of, item_of as item_in, length_of as length_in};
ghost use Rattle.prim_faults.specs.Sights.{sight, Tells, TellsAll, Does};
ghost use Rattle.prim_operators.specs.Operands.{DecidesIterable, HasItems, IsNested};

use prim_faults::{
    Arena, Constants, Fault, Stop, Value, item_at, item_count, make_byte, text_bytes, type_of,
};

/// Can it be iterated over?
fn is_iterable(_arena: &Arena, v: Value) -> bool
    requires { Leads _arena.now.objects v }
    ensures { DecidesIterable _arena.now v result }
{
    match v {
        Value::Fixed(_) => true,
        Value::Str(_) | Value::Text(_) | Value::Empty | Value::Tuple(_) | Value::List(_) => true,
        Value::Dict(_) | Value::Range(_) => true,
        _ => false,
    }
}

/// The value that is iterated over: an iterable itself, or the fault of another value.
pub fn use_iter<C: Constants>(arena: &Arena, consts: &C, v: Value) -> Result<Value, Stop>
    requires leads { Leads arena.now.objects v }
    requires told { Tells C.Constants consts.now v }
    requires all_told { TellsAll C.Constants consts.now arena.now }
    ensures { Does C.Constants consts.now arena.now arena.now result (λ heap see. use_iter_of heap (see.value v)) }
{
    if is_iterable(arena, v) {
        Ok(v)
    } else {
        Err(Stop::Raises(Fault::NotIterable(type_of(arena, v))))
    }
}

/// Constant tuples nest at most 32 deep, and no iterable has 2^32 items.
pub fn items_law<C: Constants>(arena: &Arena, consts: &C, v: Value)
    requires leads { Leads arena.now.objects v }
    requires told { Tells C.Constants consts.now v }
    ensures nested { IsNested (C.items_of consts.now) v }
    ensures few { length (items_in_arena (C.items_of consts.now) arena.now v) < 2 ^ 32 }
{
    if let Value::Fixed(c) = v {
        let _len = consts.len(c);
    }
    let _count = item_count(arena, consts, v);
}

/// The item of a str, which is made.
fn str_item<C: Constants>(arena: &mut Arena, consts: &C, s: Value, at: usize) -> Result<Value, Stop>
    requires str { IsStr s }
    requires leads { Leads arena.old.objects s }
    requires told { Tells C.Constants consts.now s }
    requires all_told { TellsAll C.Constants consts.now arena.old }
    requires within { at < length (spelled (C.text_of consts.now) arena.old s) }
    ensures { Does C.Constants consts.now arena.old arena.new result (λ heap see. item_in heap (see.value s) at) }
{
    let byte = text_bytes(arena, consts, s)[at];
    match make_byte(arena, byte) {
        Ok(letter) => Ok(Value::Text(letter)),
        Err(room) => Err(Stop::Full(room)),
    }
}

/// The item at a place of an iterable that isn't a str: nothing is made for it.
fn other_item<C: Constants>(arena: &Arena, consts: &C, over: Value, at: usize) -> Value
    requires items { HasItems over }
    requires leads { Leads arena.now.objects over }
    requires told { Tells C.Constants consts.now over }
    requires all_told { TellsAll C.Constants consts.now arena.now }
    requires within { let see = sight C.Constants consts.now in at < length_in (see.heap arena.now) (see.value over) }
    ensures item { let see = sight C.Constants consts.now in item_in (see.heap arena.now) (see.value over) at ≡ gives (see.value result) (see.heap arena.now) }
    ensures leads { Leads arena.now.objects result }
    ensures told { Tells C.Constants consts.now result }
{
    items_law(arena, consts, over);
    item_at(arena, consts, over, at as u32)
}

/// The item of an iterable at a place that is there. That of a str is made.
pub fn item_of<C: Constants>(
    arena: &mut Arena,
    consts: &C,
    over: Value,
    at: usize,
) -> Result<Value, Stop>
    requires leads { Leads arena.old.objects over }
    requires told { Tells C.Constants consts.now over }
    requires all_told { TellsAll C.Constants consts.now arena.old }
    requires within { let see = sight C.Constants consts.now in at < length_in (see.heap arena.old) (see.value over) }
    ensures { Does C.Constants consts.now arena.old arena.new result (λ heap see. item_in heap (see.value over) at) }
{
    match over {
        Value::Str(_) | Value::Text(_) => str_item(arena, consts, over, at),
        _ => Ok(other_item(arena, consts, over, at)),
    }
}
