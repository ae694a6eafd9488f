//! Division that rounds towards minus infinity.

ghost use Rattle.std.specs.Prelude.{◌≡◌, ◌≢◌, pos, ℤ, MatchResult};
ghost use Rattle.py_values.specs.Small.{IsSmall};
ghost use Rattle.py_values.specs.Division.{floor_quotient, floor_remainder, floor_div_of, modulo_of, IsDivision};

use crate::{NumFault, SmallInt};

/// The number to divide by, if it is not 0.
fn divisor(n: SmallInt) -> Result<i32, NumFault>
    ensures { MatchResult result (λ b. (b ≡ n) × (b ≢ pos 0))
        (λ e. (n ≡ pos 0) × (e ≡ NumFault.ZeroDivide)) }
{
    match n.value() {
        0 => Err(NumFault::ZeroDivide),
        b => Ok(b),
    }
}

/// The quotient, rounded towards minus infinity.
fn quotient(a: i32, b: i32) -> i32
    requires a_small { IsSmall a }
    requires b_small { IsSmall b }
    requires nonzero { b ≢ pos 0 }
    ensures { result ≡ floor_quotient a b }
{
    if b > 0 {
        a.div_euclid(b)
    } else {
        (-a).div_euclid(-b)
    }
}

/// What remains behind that quotient: it has the sign of the divisor.
fn remainder(a: i32, b: i32) -> i32
    requires a_small { IsSmall a }
    requires b_small { IsSmall b }
    requires nonzero { b ≢ pos 0 }
    ensures { result ≡ floor_remainder a b }
{
    if b > 0 {
        a.rem_euclid(b)
    } else {
        -(-a).rem_euclid(-b)
    }
}

impl SmallInt {
    /// The quotient, rounded towards minus infinity.
    pub fn floor_div(self, other: SmallInt) -> Result<SmallInt, NumFault>
        ensures { result ≡ floor_div_of self other }
    {
        let b = divisor(other)?;
        SmallInt::checked(i64::from(quotient(self.value(), b)))
    }

    /// What [`floor_div`](Self::floor_div) leaves, with the sign of the divisor.
    pub fn modulo(self, other: SmallInt) -> Result<SmallInt, NumFault>
        ensures { result ≡ modulo_of self other }
    {
        let b = divisor(other)?;
        SmallInt::checked(i64::from(remainder(self.value(), b)))
    }
}

/// Quotient and remainder belong together, and no other two numbers do.
pub fn division_law()
    ensures divides { (a b : ℤ) → b ≢ pos 0
        → IsDivision a b (floor_quotient a b) (floor_remainder a b) }
    ensures only { (a b q r : ℤ) → IsDivision a b q r
        → (q ≡ floor_quotient a b) × (r ≡ floor_remainder a b) }
{}
