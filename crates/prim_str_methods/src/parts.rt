//! The parts that a str joins.

ghost use Rattle.std.specs.Prelude.{◌≡◌, ◌↔◌, ◌<◌, ℕ, length, slice_index_or, slice_get, [], None, Some, All, IsTrue, OnSome};
ghost use Rattle.std.specs.Option.{option_map};
ghost use Rattle.prim_builtins.specs.arena_heap.declared.value.Value.{Value as Item};
ghost use Rattle.prim_builtins.specs.arena_heap.Values.{IsStr};
ghost use Rattle.prim_builtins.specs.arena_objects.Iterables.{items_in};
ghost use Rattle.prim_builtins.specs.prim_faults.Sights.{under, sight, TellsAll, Knows, KnowsStr};
ghost use Rattle.prim_builtins.specs.prim_operators.Sources.{IsOtherThan};
ghost use Rattle.prim_str_methods.specs.Parts.{strs_of, parts_in, cut_bytes, IsCut};

use crate::cuts::{Cut, str_len};
use arena_heap::{Arena, Constants, Value};
use arena_objects::{item_at, item_count};
use prim_builtins::items_law;

/// Whether a value is a str.
pub(crate) fn is_str(v: Value) -> bool
    ensures { IsTrue result ↔ IsStr v }
{
    match v {
        Value::Str(_) | Value::Text(_) => true,
        _ => false,
    }
}

/// How many parts an iterable has. Other values have none.
pub(crate) fn part_count<C: Constants>(arena: &Arena, consts: &C, over: Value) -> u32
    requires { Knows C.Constants consts.now arena.now over }
    ensures parts { result ≡ length (parts_in (C.text_of consts.now) arena.now (C.items_of consts.now) over) }
    ensures strs { let see = sight C.Constants consts.now in result ≡ length (strs_of (see.heap arena.now) (see.value over)) }
{
    if is_str(over) {
        return str_len(arena, consts, over);
    }
    items_law(arena, consts, over);
    item_count(arena, consts, over)
}

/// How many bytes the item of an iterable has, or None where it is no str.
fn item_len<C: Constants>(arena: &Arena, consts: &C, over: Value, at: u32) -> Option<u32>
    requires over { Knows C.Constants consts.now arena.now over }
    requires all_told { TellsAll C.Constants consts.now arena.now }
    requires other { IsStr over → ⊥ }
    requires within { at < length (items_in (C.items_of consts.now) arena.now over) }
    ensures len { let see = sight C.Constants consts.now in result
        ≡ option_map length (slice_index_or (strs_of (see.heap arena.now) (see.value over)) at None) }
    ensures known { OnSome result ((v : Item) → slice_get (items_in (C.items_of consts.now) arena.now over) at ≡ Some v
        → KnowsStr C.Constants consts.now arena.now v) }
{
    items_law(arena, consts, over);
    let item = item_at(arena, consts, over, at);
    if is_str(item) {
        Some(str_len(arena, consts, item))
    } else {
        None
    }
}

/// How many bytes the part at a place has, or None where it is no str.
pub(crate) fn part_len<C: Constants>(arena: &Arena, consts: &C, over: Value, at: u32) -> Option<u32>
    requires over { Knows C.Constants consts.now arena.now over }
    requires all_told { TellsAll C.Constants consts.now arena.now }
    requires within { let see = sight C.Constants consts.now in at < length (strs_of (see.heap arena.now) (see.value over)) }
    ensures len { let see = sight C.Constants consts.now in result
        ≡ option_map length (slice_index_or (strs_of (see.heap arena.now) (see.value over)) at None) }
    ensures known { OnSome result ((v : Item) → slice_get (items_in (C.items_of consts.now) arena.now over) at ≡ Some v
        → KnowsStr C.Constants consts.now arena.now v) }
{
    if is_str(over) {
        return Some(1);
    }
    items_law(arena, consts, over);
    item_len(arena, consts, over, at)
}

/// The part at a place of an iterable that has only strs.
pub(crate) fn part_at<C: Constants>(arena: &Arena, consts: &C, over: Value, at: u32) -> Cut
    requires over { Knows C.Constants consts.now arena.now over }
    requires all_told { TellsAll C.Constants consts.now arena.now }
    requires strs { All (KnowsStr C.Constants consts.now arena.now) (items_in (C.items_of consts.now) arena.now over) }
    requires within { at < length (parts_in (C.text_of consts.now) arena.now (C.items_of consts.now) over) }
    ensures bytes { cut_bytes (C.text_of consts.now) arena.now result
        ≡ slice_index_or (parts_in (C.text_of consts.now) arena.now (C.items_of consts.now) over) at [] }
    ensures cut { under C.Constants consts.now IsCut arena.now result }
    ensures apart { (t : ℕ) → IsOtherThan t over → All (IsOtherThan t) (items_in (C.items_of consts.now) arena.now over) → IsOtherThan t result.of }
{
    if is_str(over) {
        return Cut {
            of: over,
            start: at,
            len: 1,
        };
    }
    let of = item_at(arena, consts, over, at);
    let len = str_len(arena, consts, of);
    Cut { of, start: 0, len }
}
