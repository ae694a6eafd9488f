//! How many visits `min` and `max` make.

ghost use Rattle.std.specs.Prelude.{◌≡◌, ◌<◌, ◌^◌, true, length, map};
ghost use Rattle.prim_builtins.specs.mpy_base.declared.builtin.Builtin.TheVariants as builtins;
ghost use Rattle.prim_builtins.specs.arena_heap.Values.{Leads};
ghost use Rattle.prim_builtins.specs.py_values.Shown.{shown};
ghost use Rattle.prim_builtins.specs.py_primitives.Outcome.{gives};
ghost use Rattle.prim_builtins.specs.py_primitives.Iterables.{iterating};
ghost use Rattle.prim_builtins.specs.py_primitives.Calls.{call_best as best_called, best_of, made_letter};
ghost use Rattle.prim_builtins.specs.prim_faults.Sights.{under, calling, Tells, TellsAll, KnowsAll, CountsUpTo};
ghost use Rattle.prim_collections.specs.Collected.{is_str as is_some_str};
ghost use Rattle.prim_collections.specs.Best.{plain_extreme, values_of, AreKnown, extreme_builtin};

use crate::arguments::some_arguments;
use crate::candidates::{Candidates, candidate_count};
use crate::extreme::Extreme;
use crate::iterables::{is_iterable, is_str, kept_count};
use crate::searches::visits_best;
use arena_heap::{Arena, Constants, Value};
use prim_builtins::items_law;

fn visits_best_value<C: Constants>(
    arena: &Arena,
    consts: &C,
    extreme: Extreme,
    from: Candidates<'_>,
    most: u64,
) -> u64
    requires known { under C.Constants consts.now AreKnown arena.now.objects from }
    requires all_told { TellsAll C.Constants consts.now arena.now }
    ensures { CountsUpTo C.Constants consts.now result most arena.now
        (λ heap see. best_of heap (plain_extreme extreme) (λ best. gives best heap)
        (map see.value (values_of see.tuples arena.now from.entry))) }
{
    if candidate_count(arena, consts, from) == 0 {
        return 0;
    }
    visits_best(arena, consts, extreme, from, most)
}

/// One visit for the first letter, and two for each other one.
fn visits_letters<C: Constants>(
    arena: &Arena,
    consts: &C,
    _extreme: Extreme,
    s: Value,
    most: u64,
) -> u64
    requires str { is_some_str s ≡ true }
    requires leads { Leads arena.now.objects s }
    requires told { Tells C.Constants consts.now s }
    ensures { CountsUpTo C.Constants consts.now result most arena.now
        (λ heap see. iterating heap (see.value s) (best_of heap (plain_extreme _extreme) (made_letter heap (shown heap (see.value s))))) }
{
    let count = kept_count(arena, consts, s) as u64;
    most.min((2 * count).saturating_sub(1))
}

fn visits_best_item<C: Constants>(
    arena: &Arena,
    consts: &C,
    extreme: Extreme,
    over: Value,
    most: u64,
) -> u64
    requires leads { Leads arena.now.objects over }
    requires told { Tells C.Constants consts.now over }
    requires all_told { TellsAll C.Constants consts.now arena.now }
    ensures { CountsUpTo C.Constants consts.now result most arena.now
        (λ heap see. iterating heap (see.value over)
        (best_of heap (plain_extreme extreme) (made_letter heap (shown heap (see.value over))))) }
{
    if is_str(over) {
        visits_letters(arena, consts, extreme, over, most)
    } else if is_iterable(over) {
        items_law(arena, consts, over);
        visits_best_value(arena, consts, extreme, Candidates::Items(over), most)
    } else {
        0
    }
}

fn visits_of_arguments<C: Constants>(
    arena: &Arena,
    consts: &C,
    extreme: Extreme,
    args: &[Value],
    most: u64,
) -> u64
    requires some { 0 < length args.now }
    requires few { length args.now < 2 ^ 32 }
    requires known { KnowsAll C.Constants consts.now arena.now args.now }
    requires all_told { TellsAll C.Constants consts.now arena.now }
    ensures { CountsUpTo C.Constants consts.now result most arena.now (λ heap see. best_called heap (plain_extreme extreme) (map see.value args.now)) }
{
    if args.len() == 1 {
        visits_best_item(arena, consts, extreme, args[0], most)
    } else {
        visits_best_value(arena, consts, extreme, Candidates::Arguments(args), most)
    }
}

fn visits_call_best<C: Constants>(
    arena: &Arena,
    consts: &C,
    extreme: Extreme,
    args: &[Value],
    keys: &[(Value, Value)],
    most: u64,
) -> u64
    requires few { length args.now < 2 ^ 32 }
    requires known { KnowsAll C.Constants consts.now arena.now args.now }
    requires all_told { TellsAll C.Constants consts.now arena.now }
    ensures { CountsUpTo C.Constants consts.now result most arena.now (calling (extreme_builtin extreme) args.now keys.now) }
{
    match some_arguments(args, keys) {
        Ok(()) => visits_of_arguments(arena, consts, extreme, args, most),
        Err(_) => 0,
    }
}

/// How many visits `call_min` makes, `most` at most. It goes no further.
pub fn visits_call_min<C: Constants>(
    arena: &Arena,
    consts: &C,
    args: &[Value],
    keys: &[(Value, Value)],
    most: u64,
) -> u64
    requires few { length args.now < 2 ^ 32 }
    requires known { KnowsAll C.Constants consts.now arena.now args.now }
    requires all_told { TellsAll C.Constants consts.now arena.now }
    ensures { CountsUpTo C.Constants consts.now result most arena.now (calling builtins.Min args.now keys.now) }
{
    visits_call_best(arena, consts, Extreme::Least, args, keys, most)
}

/// How many visits `call_max` makes, `most` at most. It goes no further.
pub fn visits_call_max<C: Constants>(
    arena: &Arena,
    consts: &C,
    args: &[Value],
    keys: &[(Value, Value)],
    most: u64,
) -> u64
    requires few { length args.now < 2 ^ 32 }
    requires known { KnowsAll C.Constants consts.now arena.now args.now }
    requires all_told { TellsAll C.Constants consts.now arena.now }
    ensures { CountsUpTo C.Constants consts.now result most arena.now (calling builtins.Max args.now keys.now) }
{
    visits_call_best(arena, consts, Extreme::Greatest, args, keys, most)
}
