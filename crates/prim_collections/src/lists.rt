//! `list`.

ghost use Rattle.std.specs.Prelude.{◌≡◌, ◌<◌, ◌^◌, true, [], length};
ghost use Rattle.prim_builtins.specs.mpy_base.declared.builtin.Builtin.TheVariants as builtins;
ghost use Rattle.prim_builtins.specs.arena_heap.Values.{Leads};
ghost use Rattle.prim_builtins.specs.py_primitives.Outcome.{making_list};
ghost use Rattle.prim_builtins.specs.py_primitives.Iterables.{iterating};
ghost use Rattle.prim_builtins.specs.py_primitives.Calls.{list_from as list_from_items};
ghost use Rattle.prim_builtins.specs.prim_faults.Sights.{calling, Tells, TellsAll, KnowsAll, Does, CountsUpTo};
ghost use Rattle.prim_collections.specs.Collected.{is_iterable as iterates};

use crate::arguments::optional_argument;
use crate::iterables::{is_iterable, kept_count};
use arena_heap::{Arena, Constants, Value};
use arena_objects::list_extend;
use prim_builtins::{Fault, Stop, items_law, length_of, type_of};

fn empty_list<C: Constants>(arena: &mut Arena, _consts: &C) -> Result<Value, Stop>
    requires all_told { TellsAll C.Constants _consts.now arena.old }
    ensures { Does C.Constants _consts.now arena.old arena.new result (λ heap see. making_list heap []) }
{
    match arena.make_list(0) {
        Ok(l) => Ok(Value::List(l)),
        Err(room) => Err(Stop::Full(room)),
    }
}

/// The list of an iterable's items. Its room is made first.
fn list_from<C: Constants>(arena: &mut Arena, consts: &C, v: Value) -> Result<Value, Stop>
    requires iterable { iterates v ≡ true }
    requires leads { Leads arena.old.objects v }
    requires told { Tells C.Constants consts.now v }
    requires all_told { TellsAll C.Constants consts.now arena.old }
    ensures { Does C.Constants consts.now arena.old arena.new result (λ heap see. iterating heap (see.value v) (list_from_items heap (see.value v))) }
{
    items_law(arena, consts, v);
    let count = kept_count(arena, consts, v);
    match arena.make_list(count as u64) {
        Ok(l) => match list_extend(arena, consts, l, v) {
            Ok(()) => Ok(Value::List(l)),
            Err(room) => Err(Stop::Full(room)),
        },
        Err(room) => Err(Stop::Full(room)),
    }
}

fn list_of<C: Constants>(arena: &mut Arena, consts: &C, v: Value) -> Result<Value, Stop>
    requires leads { Leads arena.old.objects v }
    requires told { Tells C.Constants consts.now v }
    requires all_told { TellsAll C.Constants consts.now arena.old }
    ensures { Does C.Constants consts.now arena.old arena.new result (λ heap see. iterating heap (see.value v) (list_from_items heap (see.value v))) }
{
    if !is_iterable(v) {
        return Err(Stop::Raises(Fault::NotIterable(type_of(arena, v))));
    }
    list_from(arena, consts, v)
}

/// `list` of these arguments.
pub fn call_list<C: Constants>(
    arena: &mut Arena,
    consts: &C,
    args: &[Value],
    keys: &[(Value, Value)],
) -> Result<Value, Stop>
    requires few { length args.now < 2 ^ 32 }
    requires known { KnowsAll C.Constants consts.now arena.old args.now }
    requires all_told { TellsAll C.Constants consts.now arena.old }
    ensures { Does C.Constants consts.now arena.old arena.new result (calling builtins.List args.now keys.now) }
{
    match optional_argument(args, keys) {
        Ok(Some(v)) => list_of(arena, consts, v),
        Ok(None) => empty_list(arena, consts),
        Err(fault) => Err(Stop::Raises(fault)),
    }
}

/// How many visits `call_list` makes, `most` at most: one for each item.
pub fn visits_call_list<C: Constants>(
    arena: &Arena,
    consts: &C,
    args: &[Value],
    keys: &[(Value, Value)],
    most: u64,
) -> u64
    requires few { length args.now < 2 ^ 32 }
    requires known { KnowsAll C.Constants consts.now arena.now args.now }
    ensures { CountsUpTo C.Constants consts.now result most arena.now (calling builtins.List args.now keys.now) }
{
    match optional_argument(args, keys) {
        Ok(Some(v)) => most.min(length_of(arena, consts, v) as u64),
        Ok(None) => 0,
        Err(_) => 0,
    }
}
