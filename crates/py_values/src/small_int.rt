//! The whole numbers from -2^30 to 2^30 - 1.

ghost use Rattle.std.specs.Prelude.{◌≡◌, if◌then◌else◌};
ghost use Rattle.py_values.specs.Small.{is_small, checked, IsSmall};

use std::marker::Model;
use thiserror::Error;

/// Why an operation on small integers gives no number.
#[derive(Clone, Copy, Debug, PartialEq, Eq, Error)]
pub enum NumFault {
    /// The result is no small integer.
    #[error("small integer overflow")]
    Overflow,
    #[error("divide by zero")]
    ZeroDivide,
    #[error("negative shift count")]
    NegativeShift,
    #[error("negative power")]
    NegativePower,
}

/// The least small int, -2^30.
const LEAST: i64 = -1_073_741_824;

/// The greatest small int, 2^30 - 1.
const GREATEST: i64 = 1_073_741_823;

/// A whole number from -2^30 to 2^30 - 1, which contracts see as the number.
#[derive(Clone, Copy, Debug, PartialEq, Eq)]
pub struct SmallInt {
    number: i32,
}

impl Model for SmallInt {
    ghost use Rattle.std.specs.Prelude.{ℤ};
    ghost use Rattle.py_values.specs.Range.{IsSmall};

    ghost Value = { ℤ };

    ghost view = { λ a. a.number };

    ghost invariant = { λ a. IsSmall a.number };

    ghost inverse = { λ z. record { number = z } };
}

impl SmallInt {
    /// The number, unless it is out of range.
    pub fn new(n: i32) -> Option<SmallInt>
        ensures { result ≡ (if is_small n then Some n else None) }
    {
        SmallInt::checked(i64::from(n)).ok()
    }

    /// The number, from -2^30 to 2^30 - 1.
    pub fn value(self) -> i32
        ensures value { result ≡ self }
        ensures small { IsSmall self }
    {
        self.number
    }

    /// The number, or `Overflow` where it is out of range.
    pub(crate) fn checked(n: i64) -> Result<SmallInt, NumFault>
        ensures { result ≡ checked n }
    {
        if n < LEAST || n > GREATEST {
            return Err(NumFault::Overflow);
        }
        Ok(SmallInt { number: n as i32 })
    }
}
