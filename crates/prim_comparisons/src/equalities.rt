//! Equality and identity.

ghost use Rattle.std.specs.Prelude.{◌≡◌, min};
ghost use Rattle.std.specs.Ordering.{int_eq};
ghost use Rattle.prim_faults.specs.arena_heap.Values.{Leads};
ghost use Rattle.prim_faults.specs.py_primitives.Operators.{op_eq as eq_of, op_ne as ne_of, op_is as is_of};
ghost use Rattle.prim_faults.specs.py_values.Equality.{equal as walk_of};
ghost use Rattle.prim_faults.specs.Sights.{sight, Tells, TellsAll, Does, CountsUpTo};

use arena_heap::{Arena, Constants, Value};
use prim_faults::{Fault, Stop, equal, is_one, visits_equal};

fn is_same_number(m: i32, n: i32) -> bool
    ensures { result ≡ int_eq m n }
{
    m == n
}

/// Whether two values are equal, as `prim_walks::equal` gives it. Two numbers take no walk.
fn same<C: Constants>(arena: &Arena, consts: &C, a: Value, b: Value) -> Option<bool>
    requires a_leads { Leads arena.now.objects a }
    requires b_leads { Leads arena.now.objects b }
    requires a_told { Tells C.Constants consts.now a }
    requires b_told { Tells C.Constants consts.now b }
    requires all_told { TellsAll C.Constants consts.now arena.now }
    ensures answer { let see = sight C.Constants consts.now in result ≡ (walk_of (see.heap arena.now) (see.value a) (see.value b)).answer }
{
    match a {
        Value::Int(m) => match b {
            Value::Int(n) => Some(is_same_number(m, n)),
            _ => equal(arena, consts, a, b),
        },
        _ => equal(arena, consts, a, b),
    }
}

/// How many visits that comparison makes, up to `most`, as `prim_walks::visits_equal` counts them.
fn visits_same<C: Constants>(arena: &Arena, consts: &C, a: Value, b: Value, most: u64) -> u64
    requires a_leads { Leads arena.now.objects a }
    requires b_leads { Leads arena.now.objects b }
    requires a_told { Tells C.Constants consts.now a }
    requires b_told { Tells C.Constants consts.now b }
    requires all_told { TellsAll C.Constants consts.now arena.now }
    ensures visits { let see = sight C.Constants consts.now in result ≡ min (walk_of (see.heap arena.now) (see.value a) (see.value b)).visits most }
{
    match a {
        Value::Int(_m) => match b {
            Value::Int(_n) => most.min(1),
            _ => visits_equal(arena, consts, a, b, most),
        },
        _ => visits_equal(arena, consts, a, b, most),
    }
}

/// `==` of two values.
pub fn op_eq<C: Constants>(arena: &Arena, consts: &C, a: Value, b: Value) -> Result<Value, Stop>
    requires a_leads { Leads arena.now.objects a }
    requires b_leads { Leads arena.now.objects b }
    requires a_told { Tells C.Constants consts.now a }
    requires b_told { Tells C.Constants consts.now b }
    requires all_told { TellsAll C.Constants consts.now arena.now }
    ensures { Does C.Constants consts.now arena.now arena.now result (λ heap see. eq_of heap (see.value a) (see.value b)) }
{
    match same(arena, consts, a, b) {
        Some(same) => Ok(Value::Bool(same)),
        None => Err(Stop::Raises(Fault::TooDeep)),
    }
}

/// How many visits `op_eq` makes, `most` at most. It goes no further.
pub fn visits_op_eq<C: Constants>(arena: &Arena, consts: &C, a: Value, b: Value, most: u64) -> u64
    requires a_leads { Leads arena.now.objects a }
    requires b_leads { Leads arena.now.objects b }
    requires a_told { Tells C.Constants consts.now a }
    requires b_told { Tells C.Constants consts.now b }
    requires all_told { TellsAll C.Constants consts.now arena.now }
    ensures { CountsUpTo C.Constants consts.now result most arena.now (λ heap see. eq_of heap (see.value a) (see.value b)) }
{
    visits_same(arena, consts, a, b, most)
}

/// `!=` of two values.
pub fn op_ne<C: Constants>(arena: &Arena, consts: &C, a: Value, b: Value) -> Result<Value, Stop>
    requires a_leads { Leads arena.now.objects a }
    requires b_leads { Leads arena.now.objects b }
    requires a_told { Tells C.Constants consts.now a }
    requires b_told { Tells C.Constants consts.now b }
    requires all_told { TellsAll C.Constants consts.now arena.now }
    ensures { Does C.Constants consts.now arena.now arena.now result (λ heap see. ne_of heap (see.value a) (see.value b)) }
{
    match same(arena, consts, a, b) {
        Some(same) => Ok(Value::Bool(!same)),
        None => Err(Stop::Raises(Fault::TooDeep)),
    }
}

/// How many visits `op_ne` makes, `most` at most. It goes no further.
pub fn visits_op_ne<C: Constants>(arena: &Arena, consts: &C, a: Value, b: Value, most: u64) -> u64
    requires a_leads { Leads arena.now.objects a }
    requires b_leads { Leads arena.now.objects b }
    requires a_told { Tells C.Constants consts.now a }
    requires b_told { Tells C.Constants consts.now b }
    requires all_told { TellsAll C.Constants consts.now arena.now }
    ensures { CountsUpTo C.Constants consts.now result most arena.now (λ heap see. ne_of heap (see.value a) (see.value b)) }
{
    visits_same(arena, consts, a, b, most)
}

/// `is` of two values.
pub fn op_is<C: Constants>(arena: &Arena, consts: &C, a: Value, b: Value) -> Result<Value, Stop>
    requires a_leads { Leads arena.now.objects a }
    requires b_leads { Leads arena.now.objects b }
    requires a_told { Tells C.Constants consts.now a }
    requires b_told { Tells C.Constants consts.now b }
    requires all_told { TellsAll C.Constants consts.now arena.now }
    ensures { Does C.Constants consts.now arena.now arena.now result (λ heap see. is_of heap (see.value a) (see.value b)) }
{
    Ok(Value::Bool(is_one(arena, consts, a, b)))
}
