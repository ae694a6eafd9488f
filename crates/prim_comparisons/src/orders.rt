//! Order.

ghost use Rattle.std.specs.Prelude.{◌≡◌, min, option_map, IfSome, IfErr};
ghost use Rattle.prim_faults.specs.arena_heap.Values.{Leads};
ghost use Rattle.prim_faults.specs.py_primitives.Operators.{op_order as order_of};
ghost use Rattle.prim_faults.specs.py_primitives.Order.{order as walk_of};
ghost use Rattle.prim_faults.specs.prim_walks.Orders.{plain_order, BothLead};
ghost use Rattle.prim_faults.specs.Sights.{sight, Tells, TellsAll, Does, CountsUpTo};
ghost use Rattle.prim_comparisons.specs.Signs.{plain_sign};

use crate::faults::unsupported;
use crate::signs::Sign;
use arena_heap::{Arena, Constants, Value};
use prim_faults::{Fault, Stop, Unordered, order, visits_order};
use std::cmp::Ordering;

/// The order of two values, as `prim_walks::order` gives it. Two numbers take no walk.
fn ordered<C: Constants>(
    arena: &Arena,
    consts: &C,
    a: Value,
    b: Value,
) -> Option<Result<Ordering, Unordered>>
    requires a_leads { Leads arena.now.objects a }
    requires b_leads { Leads arena.now.objects b }
    requires a_told { Tells C.Constants consts.now a }
    requires b_told { Tells C.Constants consts.now b }
    requires all_told { TellsAll C.Constants consts.now arena.now }
    ensures answer { let see = sight C.Constants consts.now in option_map (plain_order see.texts see.tuples) result
        ≡ (walk_of (see.heap arena.now) (see.value a) (see.value b)).answer }
    ensures lead { IfSome result (λ found. IfErr found (BothLead arena.now.objects)) }
{
    match a {
        Value::Int(m) => match b {
            Value::Int(n) => Some(Ok(m.cmp(&n))),
            _ => order(arena, consts, a, b),
        },
        _ => order(arena, consts, a, b),
    }
}

/// How many visits that order takes, up to `most`, as `prim_walks::visits_order` counts them.
fn visits_ordered<C: Constants>(arena: &Arena, consts: &C, a: Value, b: Value, most: u64) -> u64
    requires a_leads { Leads arena.now.objects a }
    requires b_leads { Leads arena.now.objects b }
    requires a_told { Tells C.Constants consts.now a }
    requires b_told { Tells C.Constants consts.now b }
    requires all_told { TellsAll C.Constants consts.now arena.now }
    ensures visits { let see = sight C.Constants consts.now in result ≡ min (walk_of (see.heap arena.now) (see.value a) (see.value b)).visits most }
{
    match a {
        Value::Int(_m) => match b {
            Value::Int(_n) => most.min(1),
            _ => visits_order(arena, consts, a, b, most),
        },
        _ => visits_order(arena, consts, a, b, most),
    }
}

/// Whether two values stand in the order of a sign.
pub fn op_order<C: Constants>(
    arena: &Arena,
    consts: &C,
    sign: Sign,
    a: Value,
    b: Value,
) -> Result<Value, Stop>
    requires a_leads { Leads arena.now.objects a }
    requires b_leads { Leads arena.now.objects b }
    requires a_told { Tells C.Constants consts.now a }
    requires b_told { Tells C.Constants consts.now b }
    requires all_told { TellsAll C.Constants consts.now arena.now }
    ensures { Does C.Constants consts.now arena.now arena.now result (λ heap see. order_of heap (plain_sign sign) (see.value a) (see.value b)) }
{
    match ordered(arena, consts, a, b) {
        Some(Ok(found)) => Ok(Value::Bool(sign.holds(found))),
        Some(Err(e)) => Err(Stop::Raises(unsupported(arena, sign.method(), e.left, e.right))),
        None => Err(Stop::Raises(Fault::TooDeep)),
    }
}

/// How many visits `op_order` makes, `most` at most, whichever the sign. It goes no further.
pub fn visits_op_order<C: Constants>(
    arena: &Arena,
    consts: &C,
    _sign: Sign,
    a: Value,
    b: Value,
    most: u64,
) -> u64
    requires a_leads { Leads arena.now.objects a }
    requires b_leads { Leads arena.now.objects b }
    requires a_told { Tells C.Constants consts.now a }
    requires b_told { Tells C.Constants consts.now b }
    requires all_told { TellsAll C.Constants consts.now arena.now }
    ensures { CountsUpTo C.Constants consts.now result most arena.now (λ heap see. order_of heap (plain_sign _sign) (see.value a) (see.value b)) }
{
    visits_ordered(arena, consts, a, b, most)
}
