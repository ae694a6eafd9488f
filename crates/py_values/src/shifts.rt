//! Shifts by any number of bits.

ghost use Rattle.std.specs.Prelude.{◌≡◌};
ghost use Rattle.py_values.specs.Shifts.{shl_of, shr_of, bits_of};

use crate::{NumFault, SmallInt};

/// By this many bits, all but 0 leave the range, and only the sign of a number is left. More bits do the same.
const MOST_BITS: u32 = 31;

/// The bits of a shift that count: past 31 nothing changes. A negative count is a fault.
fn bits(n: SmallInt) -> Result<u32, NumFault>
    ensures { result ≡ bits_of n }
{
    let n = n.value();
    if n < 0 {
        return Err(NumFault::NegativeShift);
    }
    Ok(n.unsigned_abs().min(MOST_BITS))
}

impl SmallInt {
    /// The number shifted to the left, or why there is none: a negative count of bits, or a result that isn't small.
    pub fn shl(self, other: SmallInt) -> Result<SmallInt, NumFault>
        ensures { result ≡ shl_of self other }
    {
        let factor = 1i64 << bits(other)?;
        SmallInt::checked(i64::from(self.value()) * factor)
    }

    /// The number shifted to the right, rounded towards minus infinity, or why there is none: a negative count of bits.
    pub fn shr(self, other: SmallInt) -> Result<SmallInt, NumFault>
        ensures { result ≡ shr_of self other }
    {
        let bits = bits(other)?;
        SmallInt::checked(i64::from(self.value() >> bits))
    }
}
