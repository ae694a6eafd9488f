//! Operators over two numbers, by their numbers.

ghost use Rattle.std.specs.Prelude.{◌≡◌, IfSome};
ghost use Rattle.std.specs.Ordering.{int_cmp, int_eq};
ghost use Rattle.state_values.specs.mpy_base.Val.{Truth, Int};
ghost use Rattle.state_values.specs.prim_assignments.arena_heap.Values.{IsSmall};
ghost use Rattle.vm_at_once.specs.Numbers.{Gives, Computes};

use py_values::{NumFault, SmallInt};
use std::cmp::Ordering;

/// Are the numbers the same?
fn is_same(left: i32, right: i32) -> bool
    ensures { result ≡ int_eq left right }
{
    left == right
}

/// How the numbers compare.
fn order_of(left: i32, right: i32) -> Ordering
    ensures { result ≡ int_cmp left right }
{
    left.cmp(&right)
}

/// A comparison, which costs a visit.
#[inline(always)]
pub(crate) fn compare(number: u8, left: i32, right: i32) -> Option<bool>
    ensures { IfSome result (λ holds. Gives number left right (Truth holds) 1) }
{
    match number {
        0 => Some(order_of(left, right).is_lt()),
        1 => Some(order_of(left, right).is_gt()),
        2 => Some(is_same(left, right)),
        3 => Some(order_of(left, right).is_le()),
        4 => Some(order_of(left, right).is_ge()),
        5 => Some(!is_same(left, right)),
        _ => None,
    }
}

/// A sum, a difference, a product, a quotient or a remainder; or its fault.
#[inline(always)]
fn answer_of(number: u8, left: SmallInt, right: SmallInt) -> Option<Result<SmallInt, NumFault>>
    ensures { IfSome result (λ answer. Computes number left right answer) }
{
    match number {
        14 => Some(left.add(right)),
        15 => Some(left.sub(right)),
        16 => Some(left.mul(right)),
        18 => Some(left.floor_div(right)),
        20 => Some(left.modulo(right)),
        27 => Some(left.add(right)),
        28 => Some(left.sub(right)),
        29 => Some(left.mul(right)),
        31 => Some(left.floor_div(right)),
        33 => Some(left.modulo(right)),
        _ => None,
    }
}

/// A number that is computed. It costs no visit.
#[inline(always)]
pub(crate) fn compute(number: u8, left: i32, right: i32) -> Option<i32>
    ensures gives { IfSome result (λ z. Gives number left right (Int z) 0) }
    ensures small { IfSome result IsSmall }
{
    let x = SmallInt::new(left)?;
    let y = SmallInt::new(right)?;
    match answer_of(number, x, y)? {
        Ok(z) => Some(z.value()),
        Err(_fault) => None,
    }
}
