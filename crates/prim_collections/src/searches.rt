//! The search for the best of values.

ghost use Rattle.std.specs.Prelude.{◌≡◌, ◌<◌, suc, length, map, min, IfSome, if◌then◌else◌};
ghost use Rattle.std.specs.Option.{option_map};
ghost use Rattle.prim_builtins.specs.arena_heap.Values.{Leads};
ghost use Rattle.prim_builtins.specs.py_primitives.Order.{order as order_of, has_sign};
ghost use Rattle.prim_builtins.specs.prim_faults.Sights.{under, sight, Tells, TellsAll};
ghost use Rattle.prim_collections.specs.Best.{plain_extreme, best_among, values_of, AreKnown, plain_best, IsKnownBest};

use crate::candidates::{Candidates, candidate, candidate_count};
use crate::extreme::Extreme;
use arena_heap::{Arena, Constants, Value};
use prim_walks::{Unordered, order, visits_order};
use std::cmp::Ordering;

/// The better of a value and the best so far.
fn better(extreme: Extreme, v: Value, best: Value, found: Ordering) -> Value
    ensures { result ≡ (if has_sign (plain_extreme extreme) found then v else best) }
{
    if extreme.holds(found) { v } else { best }
}

/// The best of values, or two values in them that have no order. It is None where a comparison goes too deep.
pub(crate) fn best<C: Constants>(
    arena: &Arena,
    consts: &C,
    extreme: Extreme,
    from: Candidates<'_>,
) -> Option<Result<Value, Unordered>>
    requires known { under C.Constants consts.now AreKnown arena.now.objects from }
    requires all_told { TellsAll C.Constants consts.now arena.now }
    requires some { 0 < length (values_of (C.items_of consts.now) arena.now from) }
    ensures answer { let see = sight C.Constants consts.now in option_map (plain_best see.texts see.tuples) result
        ≡ (best_among (see.heap arena.now) (plain_extreme extreme) (map see.value (values_of see.tuples arena.now from.entry))).answer }
    ensures known { IfSome result (under C.Constants consts.now IsKnownBest arena.now.objects) }
{
    let mut best = candidate(arena, consts, from, 0);
    for at in 1..candidate_count(arena, consts, from) {
        let v = candidate(arena, consts, from, at);
        match order(arena, consts, v, best) {
            Some(Ok(found)) => best = better(extreme, v, best, found),
            Some(Err(e)) => return Some(Err(e)),
            None => return None,
        }
    }
    Some(Ok(best))
}

/// How many visits a value and its comparison with the best so far take, `most` at most.
fn visits_candidate<C: Constants>(
    arena: &Arena,
    consts: &C,
    v: Value,
    best: Value,
    most: u64,
) -> u64
    requires v_leads { Leads arena.now.objects v }
    requires best_leads { Leads arena.now.objects best }
    requires v_told { Tells C.Constants consts.now v }
    requires best_told { Tells C.Constants consts.now best }
    requires all_told { TellsAll C.Constants consts.now arena.now }
    ensures { let see = sight C.Constants consts.now in result ≡ min (suc (order_of (see.heap arena.now) (see.value v) (see.value best)).visits) most }
{
    if most == 0 {
        return 0;
    }
    1 + visits_order(arena, consts, v, best, most - 1)
}

/// How many visits the search takes, `most` at most. It goes no further.
pub(crate) fn visits_best<C: Constants>(
    arena: &Arena,
    consts: &C,
    extreme: Extreme,
    from: Candidates<'_>,
    most: u64,
) -> u64
    requires known { under C.Constants consts.now AreKnown arena.now.objects from }
    requires all_told { TellsAll C.Constants consts.now arena.now }
    requires some { 0 < length (values_of (C.items_of consts.now) arena.now from) }
    ensures { let see = sight C.Constants consts.now in result
        ≡ min (best_among (see.heap arena.now) (plain_extreme extreme) (map see.value (values_of see.tuples arena.now from.entry))).visits
        most }
{
    if most == 0 {
        return 0;
    }
    let mut left = most - 1;
    let mut best = candidate(arena, consts, from, 0);
    for at in 1..candidate_count(arena, consts, from) {
        let v = candidate(arena, consts, from, at);
        left -= visits_candidate(arena, consts, v, best, left);
        if left == 0 {
            return most;
        }
        match order(arena, consts, v, best) {
            Some(Ok(found)) => best = better(extreme, v, best, found),
            Some(Err(_e)) => return most - left,
            None => return most - left,
        }
    }
    most - left
}
