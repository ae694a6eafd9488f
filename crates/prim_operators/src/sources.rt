//! What joins and repeats are made of.

ghost use Rattle.std.specs.Prelude.{◌≡◌, ◌-◌, ◌^◌, ◌<◌, length, min, slice_index, slice_index_or};
ghost use Rattle.prim_faults.specs.arena_heap.Values.{Leads};
ghost use Rattle.prim_faults.specs.arena_objects.Iterables.{spelled};
ghost use Rattle.prim_faults.specs.Sights.{under, Tells, TellsAll, KnowsStr};
ghost use Rattle.prim_operators.specs.Sources.{source_bytes, source_items, AreStrs, AreKnown};

use prim_faults::{Arena, Constants, Value, item_at, item_count, text_bytes};

/// Two strs, tuples or lists that are joined, or one that is repeated.
#[derive(Clone, Copy)]
pub(crate) enum Source {
    Joined(Value, Value),
    Repeated(u32, Value),
}

/// How many bytes a str has.
fn str_len<C: Constants>(arena: &Arena, consts: &C, s: Value) -> usize
    requires { KnowsStr C.Constants consts.now arena.now s }
    ensures bytes { result ≡ length (spelled (C.text_of consts.now) arena.now s) }
    ensures few { result < 2 ^ 63 }
{
    text_bytes(arena, consts, s).len()
}

/// The byte at a place of a str.
fn str_byte<C: Constants>(arena: &Arena, consts: &C, s: Value, at: usize) -> u8
    requires str { KnowsStr C.Constants consts.now arena.now s }
    requires within { at < length (spelled (C.text_of consts.now) arena.now s) }
    ensures byte { result ≡ slice_index (spelled (C.text_of consts.now) arena.now s) at }
    ensures ascii { result < 128 }
{
    text_bytes(arena, consts, s)[at]
}

/// How many bytes the strs have, 2^64 - 1 at most.
pub(crate) fn bytes_len<C: Constants>(arena: &Arena, consts: &C, source: Source) -> u64
    requires { under C.Constants consts.now AreStrs arena.now.objects source }
    ensures { result ≡ min (length (source_bytes (C.text_of consts.now) arena.now source)) (2 ^ 64 - 1) }
{
    match source {
        Source::Joined(left, right) => {
            str_len(arena, consts, left) as u64 + str_len(arena, consts, right) as u64
        }
        Source::Repeated(times, of) => {
            (str_len(arena, consts, of) as u64).saturating_mul(times as u64)
        }
    }
}

/// The byte at a place of the strs.
pub(crate) fn byte_at<C: Constants>(arena: &Arena, consts: &C, source: Source, at: usize) -> u8
    requires strs { under C.Constants consts.now AreStrs arena.now.objects source }
    requires within { at < length (source_bytes (C.text_of consts.now) arena.now source) }
    ensures byte { result ≡ slice_index (source_bytes (C.text_of consts.now) arena.now source) at }
    ensures ascii { result < 128 }
{
    match source {
        Source::Joined(left, right) => {
            let len = str_len(arena, consts, left);
            if at < len {
                str_byte(arena, consts, left, at)
            } else {
                str_byte(arena, consts, right, at - len)
            }
        }
        Source::Repeated(_, of) => {
            let len = str_len(arena, consts, of);
            str_byte(arena, consts, of, at % len)
        }
    }
}

/// How many items the values have.
pub(crate) fn items_len<C: Constants>(arena: &Arena, consts: &C, source: Source) -> u64
    requires { under C.Constants consts.now AreKnown arena.now.objects source }
    ensures { result ≡ length (source_items (C.items_of consts.now) arena.now source) }
{
    match source {
        Source::Joined(left, right) => {
            item_count(arena, consts, left) as u64 + item_count(arena, consts, right) as u64
        }
        Source::Repeated(times, of) => item_count(arena, consts, of) as u64 * times as u64,
    }
}

/// The item at a place of the values.
pub(crate) fn source_item<C: Constants>(arena: &Arena, consts: &C, source: Source, at: u32) -> Value
    requires known { under C.Constants consts.now AreKnown arena.now.objects source }
    requires all_told { TellsAll C.Constants consts.now arena.now }
    requires within { at < length (source_items (C.items_of consts.now) arena.now source) }
    ensures item { result ≡ slice_index_or (source_items (C.items_of consts.now) arena.now source) at Value.None }
    ensures leads { Leads arena.now.objects result }
    ensures told { Tells C.Constants consts.now result }
{
    match source {
        Source::Joined(left, right) => {
            let count = item_count(arena, consts, left);
            if at < count {
                item_at(arena, consts, left, at)
            } else {
                item_at(arena, consts, right, at - count)
            }
        }
        Source::Repeated(_, of) => {
            let count = item_count(arena, consts, of);
            item_at(arena, consts, of, at % count)
        }
    }
}
