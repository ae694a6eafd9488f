//! Lists that take the items of iterables.

ghost use Rattle.std.specs.Prelude.{IsSome};
ghost use Rattle.prim_operators.specs.mpy_base.World.{AList, IsA};
ghost use Rattle.prim_operators.specs.arena_heap.Values.{Leads};
ghost use Rattle.prim_operators.specs.py_primitives.Iterables.{items_in};
ghost use Rattle.prim_operators.specs.py_primitives.Operators.{extend as extend_of};
ghost use Rattle.prim_operators.specs.prim_faults.Sights.{sight, Tells, TellsAll, Does, CountsUpTo};

use prim_operators::{
    Arena, Constants, ListNo, Stop, Value, items_law, length_of, list_extend, use_iter,
};

/// Puts the items of what is an iterable behind those of a list.
fn take_items<C: Constants>(
    arena: &mut Arena,
    consts: &C,
    l: ListNo,
    from: Value,
) -> Result<Value, Stop>
    requires list { IsA arena.old.objects AList l.cell }
    requires leads { Leads arena.old.objects from }
    requires told { Tells C.Constants consts.now from }
    requires iterable { let see = sight C.Constants consts.now in IsSome (items_in (see.heap arena.old) (see.value from)) }
    requires all_told { TellsAll C.Constants consts.now arena.old }
    ensures { Does C.Constants consts.now arena.old arena.new result (λ heap see. extend_of heap l.cell (see.value from)) }
{
    items_law(arena, consts, from);
    match list_extend(arena, consts, l, from) {
        Ok(()) => Ok(Value::List(l)),
        Err(room) => Err(Stop::Full(room)),
    }
}

/// Puts the items of an iterable behind those of a list, and gives the list.
pub fn extend_list<C: Constants>(
    arena: &mut Arena,
    consts: &C,
    l: ListNo,
    from: Value,
) -> Result<Value, Stop>
    requires list { IsA arena.old.objects AList l.cell }
    requires leads { Leads arena.old.objects from }
    requires told { Tells C.Constants consts.now from }
    requires all_told { TellsAll C.Constants consts.now arena.old }
    ensures { Does C.Constants consts.now arena.old arena.new result (λ heap see. extend_of heap l.cell (see.value from)) }
{
    match use_iter(arena, consts, from) {
        Ok(_) => take_items(arena, consts, l, from),
        Err(stop) => Err(stop),
    }
}

/// How many visits `extend_list` makes, `most` at most. No item is walked.
pub fn visits_extend<C: Constants>(
    arena: &Arena,
    consts: &C,
    _l: ListNo,
    from: Value,
    most: u64,
) -> u64
    requires leads { Leads arena.now.objects from }
    requires told { Tells C.Constants consts.now from }
    ensures { CountsUpTo C.Constants consts.now result most arena.now (λ heap see. extend_of heap _l.cell (see.value from)) }
{
    most.min(length_of(arena, consts, from) as u64)
}
