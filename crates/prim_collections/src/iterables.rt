//! Iterables.

ghost use Rattle.std.specs.Prelude.{◌≡◌};
ghost use Rattle.prim_builtins.specs.arena_heap.Values.{Leads};
ghost use Rattle.prim_builtins.specs.prim_faults.Sights.{under, Tells};
ghost use Rattle.prim_collections.specs.Collected.{is_iterable as iterates, is_str as is_some_str, is_tuple as is_some_tuple, kept_length};

use arena_heap::{Arena, Constants, Value};
use arena_objects::{item_count, text_bytes};

/// Has a value items?
pub(crate) fn is_iterable(v: Value) -> bool
    ensures { result ≡ iterates v }
{
    match v {
        Value::Str(_) | Value::Text(_) => true,
        Value::Fixed(_) | Value::Empty | Value::Tuple(_) | Value::List(_) => true,
        Value::Dict(_) | Value::Range(_) => true,
        _ => false,
    }
}

/// Is a value a str?
pub(crate) fn is_str(v: Value) -> bool
    ensures { result ≡ is_some_str v }
{
    match v {
        Value::Str(_) | Value::Text(_) => true,
        _ => false,
    }
}

/// Is a value a tuple?
pub(crate) fn is_tuple(v: Value) -> bool
    ensures { result ≡ is_some_tuple v }
{
    match v {
        Value::Fixed(_) | Value::Empty | Value::Tuple(_) => true,
        _ => false,
    }
}

/// How many items a list of an iterable's items has.
pub(crate) fn kept_count<C: Constants>(arena: &Arena, consts: &C, v: Value) -> u32
    requires leads { Leads arena.now.objects v }
    requires told { Tells C.Constants consts.now v }
    ensures { result ≡ under C.Constants consts.now kept_length arena.now v }
{
    match v {
        Value::Str(_) | Value::Text(_) => text_bytes(arena, consts, v).len() as u32,
        _ => item_count(arena, consts, v),
    }
}
