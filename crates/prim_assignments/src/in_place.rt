//! `+=` on lists, which take the items of any iterable in place.

ghost use Rattle.prim_operators.specs.arena_heap.Values.{Leads};
ghost use Rattle.prim_operators.specs.py_primitives.Operators.{Add, in_place};
ghost use Rattle.prim_operators.specs.prim_faults.Sights.{Tells, TellsAll, Does, CountsUpTo};

use crate::extensions::{extend_list, visits_extend};
use prim_operators::{Arena, Constants, Operator, Stop, Value, binary};

/// `+` in place, by which a list takes the items of any iterable.
pub fn inplace_add<C: Constants>(
    arena: &mut Arena,
    consts: &C,
    left: Value,
    right: Value,
) -> Result<Value, Stop>
    requires left_leads { Leads arena.old.objects left }
    requires right_leads { Leads arena.old.objects right }
    requires left_told { Tells C.Constants consts.now left }
    requires right_told { Tells C.Constants consts.now right }
    requires all_told { TellsAll C.Constants consts.now arena.old }
    ensures { Does C.Constants consts.now arena.old arena.new result (λ heap see. in_place heap Add (see.value left) (see.value right)) }
{
    match left {
        Value::List(l) => extend_list(arena, consts, l, right),
        _ => binary(arena, consts, Operator::Add, left, right),
    }
}

/// How many visits `inplace_add` makes, `most` at most.
pub fn visits_inplace_add<C: Constants>(
    arena: &Arena,
    consts: &C,
    left: Value,
    right: Value,
    most: u64,
) -> u64
    requires left_leads { Leads arena.now.objects left }
    requires right_leads { Leads arena.now.objects right }
    requires left_told { Tells C.Constants consts.now left }
    requires right_told { Tells C.Constants consts.now right }
    ensures { CountsUpTo C.Constants consts.now result most arena.now (λ heap see. in_place heap Add (see.value left) (see.value right)) }
{
    match left {
        Value::List(l) => visits_extend(arena, consts, l, right, most),
        _ => 0,
    }
}
