//! The values of which the best is looked for.

ghost use Rattle.std.specs.Prelude.{◌≡◌, ◌<◌, length, slice_index_or};
ghost use Rattle.prim_builtins.specs.prim_faults.Sights.{under, TellsAll, Knows};
ghost use Rattle.prim_collections.specs.Best.{values_of, AreKnown};

use arena_heap::{Arena, Constants, Value};
use arena_objects::{item_at, item_count};

/// The items of an iterable that is no str, or the arguments of a call.
#[derive(Clone, Copy)]
pub(crate) enum Candidates<'a> {
    Items(Value),
    Arguments(&'a [Value]),
}

/// How many there are.
pub(crate) fn candidate_count<C: Constants>(arena: &Arena, consts: &C, from: Candidates<'_>) -> u32
    requires { under C.Constants consts.now AreKnown arena.now.objects from }
    ensures { result ≡ length (values_of (C.items_of consts.now) arena.now from.entry) }
{
    match from {
        Candidates::Items(over) => item_count(arena, consts, over),
        Candidates::Arguments(args) => args.len() as u32,
    }
}

/// The one at a place.
pub(crate) fn candidate<C: Constants>(
    arena: &Arena,
    consts: &C,
    from: Candidates<'_>,
    at: u32,
) -> Value
    requires known { under C.Constants consts.now AreKnown arena.now.objects from }
    requires all_told { TellsAll C.Constants consts.now arena.now }
    requires within { at < length (values_of (C.items_of consts.now) arena.now from) }
    ensures value { result ≡ slice_index_or (values_of (C.items_of consts.now) arena.now from.entry) at Value.None }
    ensures known { Knows C.Constants consts.now arena.now result }
{
    match from {
        Candidates::Items(over) => item_at(arena, consts, over, at),
        Candidates::Arguments(args) => args[at as usize],
    }
}
