//! `min` and `max`.

ghost use Rattle.std.specs.Prelude.{◌≡◌, ◌<◌, ◌^◌, true, length, map};
ghost use Rattle.prim_builtins.specs.mpy_base.declared.builtin.Builtin.TheVariants as builtins;
ghost use Rattle.prim_builtins.specs.arena_heap.Values.{Leads};
ghost use Rattle.prim_builtins.specs.py_values.Shown.{shown};
ghost use Rattle.prim_builtins.specs.py_primitives.Outcome.{gives};
ghost use Rattle.prim_builtins.specs.py_primitives.Iterables.{iterating};
ghost use Rattle.prim_builtins.specs.py_primitives.Calls.{call_best as best_called, best_of, made_letter};
ghost use Rattle.prim_builtins.specs.prim_faults.Sights.{under, calling, Tells, TellsAll, KnowsAll, Does};
ghost use Rattle.prim_collections.specs.Collected.{is_str as is_some_str};
ghost use Rattle.prim_collections.specs.Best.{plain_extreme, values_of, AreKnown, extreme_builtin};

use crate::arguments::some_arguments;
use crate::best_letters::best_byte;
use crate::candidates::{Candidates, candidate_count};
use crate::extreme::Extreme;
use crate::iterables::{is_iterable, is_str};
use crate::letters::spelled_bytes;
use crate::searches::best;
use arena_heap::{Arena, Constants, Value};
use prim_builtins::{Fault, Stop, items_law, letter, type_of};

/// The best of values, which is one of them.
fn best_value<C: Constants>(
    arena: &Arena,
    consts: &C,
    extreme: Extreme,
    from: Candidates<'_>,
) -> Result<Value, Stop>
    requires known { under C.Constants consts.now AreKnown arena.now.objects from }
    requires all_told { TellsAll C.Constants consts.now arena.now }
    ensures { Does C.Constants consts.now arena.now arena.now result
        (λ heap see. best_of heap (plain_extreme extreme) (λ best. gives best heap)
        (map see.value (values_of see.tuples arena.now from.entry))) }
{
    if candidate_count(arena, consts, from) == 0 {
        return Err(Stop::Raises(Fault::NothingToCompare));
    }
    match best(arena, consts, extreme, from) {
        Some(Ok(v)) => Ok(v),
        Some(Err(e)) => Err(Stop::Raises(Fault::Unsupported {
            method: extreme.method(),
            left: type_of(arena, e.left),
            right: type_of(arena, e.right),
        })),
        None => Err(Stop::Raises(Fault::TooDeep)),
    }
}

/// The best letter of a str, which is made.
fn best_letter<C: Constants>(
    arena: &mut Arena,
    consts: &C,
    extreme: Extreme,
    s: Value,
) -> Result<Value, Stop>
    requires str { is_some_str s ≡ true }
    requires leads { Leads arena.old.objects s }
    requires told { Tells C.Constants consts.now s }
    requires all_told { TellsAll C.Constants consts.now arena.old }
    ensures { Does C.Constants consts.now arena.old arena.new result
        (λ heap see. iterating heap (see.value s) (best_of heap (plain_extreme extreme) (made_letter heap (shown heap (see.value s))))) }
{
    let bytes = spelled_bytes(arena, consts, s);
    if bytes.is_empty() {
        return Err(Stop::Raises(Fault::NothingToCompare));
    }
    let byte = best_byte(extreme, bytes);
    letter(arena, consts, byte)
}

/// The best item of an iterable.
fn best_item<C: Constants>(
    arena: &mut Arena,
    consts: &C,
    extreme: Extreme,
    over: Value,
) -> Result<Value, Stop>
    requires leads { Leads arena.old.objects over }
    requires told { Tells C.Constants consts.now over }
    requires all_told { TellsAll C.Constants consts.now arena.old }
    ensures { Does C.Constants consts.now arena.old arena.new result
        (λ heap see. iterating heap (see.value over)
        (best_of heap (plain_extreme extreme) (made_letter heap (shown heap (see.value over))))) }
{
    if is_str(over) {
        best_letter(arena, consts, extreme, over)
    } else if is_iterable(over) {
        items_law(arena, consts, over);
        best_value(arena, consts, extreme, Candidates::Items(over))
    } else {
        Err(Stop::Raises(Fault::NotIterable(type_of(arena, over))))
    }
}

/// The best item of the only argument, or the best one of the arguments.
fn best_of_arguments<C: Constants>(
    arena: &mut Arena,
    consts: &C,
    extreme: Extreme,
    args: &[Value],
) -> Result<Value, Stop>
    requires some { 0 < length args.now }
    requires few { length args.now < 2 ^ 32 }
    requires known { KnowsAll C.Constants consts.now arena.old args.now }
    requires all_told { TellsAll C.Constants consts.now arena.old }
    ensures { Does C.Constants consts.now arena.old arena.new result (λ heap see. best_called heap (plain_extreme extreme) (map see.value args.now)) }
{
    if args.len() == 1 {
        best_item(arena, consts, extreme, args[0])
    } else {
        best_value(arena, consts, extreme, Candidates::Arguments(args))
    }
}

fn call_best<C: Constants>(
    arena: &mut Arena,
    consts: &C,
    extreme: Extreme,
    args: &[Value],
    keys: &[(Value, Value)],
) -> Result<Value, Stop>
    requires few { length args.now < 2 ^ 32 }
    requires known { KnowsAll C.Constants consts.now arena.old args.now }
    requires all_told { TellsAll C.Constants consts.now arena.old }
    ensures { Does C.Constants consts.now arena.old arena.new result (calling (extreme_builtin extreme) args.now keys.now) }
{
    match some_arguments(args, keys) {
        Ok(()) => best_of_arguments(arena, consts, extreme, args),
        Err(fault) => Err(Stop::Raises(fault)),
    }
}

/// `min` of these arguments.
pub fn call_min<C: Constants>(
    arena: &mut Arena,
    consts: &C,
    args: &[Value],
    keys: &[(Value, Value)],
) -> Result<Value, Stop>
    requires few { length args.now < 2 ^ 32 }
    requires known { KnowsAll C.Constants consts.now arena.old args.now }
    requires all_told { TellsAll C.Constants consts.now arena.old }
    ensures { Does C.Constants consts.now arena.old arena.new result (calling builtins.Min args.now keys.now) }
{
    call_best(arena, consts, Extreme::Least, args, keys)
}

/// `max` of these arguments.
pub fn call_max<C: Constants>(
    arena: &mut Arena,
    consts: &C,
    args: &[Value],
    keys: &[(Value, Value)],
) -> Result<Value, Stop>
    requires few { length args.now < 2 ^ 32 }
    requires known { KnowsAll C.Constants consts.now arena.old args.now }
    requires all_told { TellsAll C.Constants consts.now arena.old }
    ensures { Does C.Constants consts.now arena.old arena.new result (calling builtins.Max args.now keys.now) }
{
    call_best(arena, consts, Extreme::Greatest, args, keys)
}
