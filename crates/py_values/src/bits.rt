//! Operations on the bits of two's complement, of which there are as many as it takes.

ghost use Rattle.std.specs.Prelude.{◌≡◌, ℕ, ◌+◌, ◌%◌, min, max, ℤ, pos, neg_ℤ, ◌-ℤ◌};
ghost use Rattle.py_values.specs.Small.{checked};
ghost use Rattle.py_values.specs.Bits.{int_and, int_or, int_xor, bit_of};

use crate::{NumFault, SmallInt};

impl SmallInt {
    /// `&` of the two as two's complement. It is always small.
    pub fn and(self, other: SmallInt) -> Result<SmallInt, NumFault>
        ensures { result ≡ checked (int_and self other) }
    {
        SmallInt::checked(i64::from(self.value() & other.value()))
    }

    /// `|` of the two as two's complement. It is always small.
    pub fn or(self, other: SmallInt) -> Result<SmallInt, NumFault>
        ensures { result ≡ checked (int_or self other) }
    {
        SmallInt::checked(i64::from(self.value() | other.value()))
    }

    /// `^` of the two as two's complement. It is always small.
    pub fn xor(self, other: SmallInt) -> Result<SmallInt, NumFault>
        ensures { result ≡ checked (int_xor self other) }
    {
        SmallInt::checked(i64::from(self.value() ^ other.value()))
    }

    /// Turns every bit over.
    pub fn invert(self) -> Result<SmallInt, NumFault>
        ensures { result ≡ checked (neg_ℤ self -ℤ pos 1) }
    {
        SmallInt::checked(i64::from(!self.value()))
    }
}

/// The operations go bit by bit, and the bits of a number determine it.
pub fn bits_law()
    ensures and { (a b : ℤ) (i : ℕ) → bit_of (int_and a b) i ≡ min (bit_of a i) (bit_of b i) }
    ensures or { (a b : ℤ) (i : ℕ) → bit_of (int_or a b) i ≡ max (bit_of a i) (bit_of b i) }
    ensures xor { (a b : ℤ) (i : ℕ) → bit_of (int_xor a b) i ≡ (bit_of a i + bit_of b i) % 2 }
    ensures only { (a b : ℤ) → ((i : ℕ) → bit_of a i ≡ bit_of b i) → a ≡ b }
{}
