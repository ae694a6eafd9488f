//! The numbers of ranges.

ghost use Rattle.std.specs.Prelude.{◌≡◌, ◌≢◌, pos};
ghost use Rattle.std.specs.Ordering.{int_eq};
ghost use Rattle.prim_faults.specs.arena_heap.Values.{Leads, IsSmall};
ghost use Rattle.prim_faults.specs.py_primitives.Operators.{is_in_range as is_number_of};
ghost use Rattle.prim_comparisons.specs.Operands.{DecidesNumber};

use arena_heap::{Arena, Value};
use prim_faults::{range_count, range_number};

fn is_one_number(a: i32, b: i32) -> bool
    ensures { result ≡ int_eq a b }
{
    a == b
}

/// Whether a number is one of a range's. It is where as many steps as lead up to it lead to it.
fn is_in_range(z: i32, start: i32, stop: i32, step: i32) -> bool
    requires number { IsSmall z }
    requires start { IsSmall start }
    requires stop { IsSmall stop }
    requires step { IsSmall step }
    requires nonzero { step ≢ pos 0 }
    ensures { result ≡ is_number_of z start stop step }
{
    let place = range_count(start, z, step);
    let count = range_count(start, stop, step);
    if place >= count {
        return false;
    }
    is_one_number(range_number(start, stop, step, place), z)
}

/// Whether a value is one of a range's numbers.
pub(crate) fn has_number(_arena: &Arena, v: Value, start: i32, stop: i32, step: i32) -> bool
    requires leads { Leads _arena.now.objects v }
    requires start { IsSmall start }
    requires stop { IsSmall stop }
    requires step { IsSmall step }
    requires nonzero { step ≢ pos 0 }
    ensures { DecidesNumber _arena.now v start stop step result }
{
    match v {
        Value::Fixed(_) => false,
        Value::Bool(b) => is_in_range(b as i32, start, stop, step),
        Value::Int(z) => is_in_range(z, start, stop, step),
        _ => false,
    }
}
