//! Powers.

ghost use Rattle.std.specs.Prelude.{◌≡◌, ◌≤◌, unsigned_abs};
ghost use Rattle.py_values.specs.Small.{checked};
ghost use Rattle.py_values.specs.Power.{power, power_of};

use crate::{NumFault, SmallInt};

/// Of 0, 1 and -1, whose powers repeat.
fn repeating_power(base: i32, exponent: u32) -> i32
    requires { unsigned_abs base ≤ 1 }
    ensures { result ≡ power base exponent }
{
    if exponent == 0 {
        1
    } else if exponent % 2 == 0 {
        base * base
    } else {
        base
    }
}

/// Of any other number. Each factor doubles the product at least, so few of them are taken.
fn growing_power(base: SmallInt, exponent: u32) -> Result<SmallInt, NumFault>
    requires { 2 ≤ unsigned_abs base }
    ensures { result ≡ checked (power base exponent) }
{
    let mut product = SmallInt::checked(1);
    for _ in 0..exponent {
        product = base.mul(product?);
    }
    product
}

impl SmallInt {
    /// The power, or why there is none: a negative exponent, or a power that isn't small.
    pub fn power(self, other: SmallInt) -> Result<SmallInt, NumFault>
        ensures { result ≡ power_of self other }
    {
        let exponent = other.value();
        if exponent < 0 {
            return Err(NumFault::NegativePower);
        }
        let exponent = exponent.unsigned_abs();
        let base = self.value();
        if base.unsigned_abs() > 1 {
            growing_power(self, exponent)
        } else {
            SmallInt::checked(i64::from(repeating_power(base, exponent)))
        }
    }
}
