//! Sums, differences and products.

ghost use Rattle.std.specs.Prelude.{◌≡◌, pos, ◌+ℤ◌, ◌-ℤ◌, ◌*ℤ◌, neg_ℤ, unsigned_abs};
ghost use Rattle.py_values.specs.Small.{checked};

use crate::{NumFault, SmallInt};

impl SmallInt {
    /// The sum, or that it isn't small.
    pub fn add(self, other: SmallInt) -> Result<SmallInt, NumFault>
        ensures { result ≡ checked (self +ℤ other) }
    {
        SmallInt::checked(i64::from(self.value()) + i64::from(other.value()))
    }

    /// The difference, or that it isn't small.
    pub fn sub(self, other: SmallInt) -> Result<SmallInt, NumFault>
        ensures { result ≡ checked (self -ℤ other) }
    {
        SmallInt::checked(i64::from(self.value()) - i64::from(other.value()))
    }

    /// The product, or that it isn't small.
    pub fn mul(self, other: SmallInt) -> Result<SmallInt, NumFault>
        ensures { result ≡ checked (self *ℤ other) }
    {
        SmallInt::checked(i64::from(self.value()) * i64::from(other.value()))
    }

    /// The opposite, or that it isn't small: that of the least number.
    pub fn neg(self) -> Result<SmallInt, NumFault>
        ensures { result ≡ checked (neg_ℤ self) }
    {
        SmallInt::checked(-i64::from(self.value()))
    }

    /// The distance from 0, or that it isn't small: that of the least number.
    pub fn absolute(self) -> Result<SmallInt, NumFault>
        ensures { result ≡ checked (pos (unsigned_abs self)) }
    {
        SmallInt::checked(i64::from(self.value()).abs())
    }
}
