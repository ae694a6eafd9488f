//! The signs of order.

ghost use Rattle.std.specs.Prelude.{◌≡◌};
ghost use Rattle.prim_faults.specs.py_primitives.Order.{has_sign};
ghost use Rattle.prim_faults.specs.py_primitives.Operators.{sign_method};
ghost use Rattle.prim_faults.specs.Faults.{method_text};
ghost use Rattle.prim_comparisons.specs.Signs.{plain_sign};

use prim_faults::SpecialMethod;
use std::cmp::Ordering;

/// A sign of order: `<`, `>`, `<=` or `>=`.
#[derive(Clone, Copy, Debug, PartialEq, Eq)]
pub enum Sign {
    Below,
    Above,
    NotAbove,
    NotBelow,
}

impl Sign {
    /// The method that its faults name.
    pub(crate) fn method(self) -> SpecialMethod
        ensures { method_text result ≡ sign_method (plain_sign self) }
    {
        match self {
            Sign::Below => SpecialMethod::Less,
            Sign::Above => SpecialMethod::Greater,
            Sign::NotAbove => SpecialMethod::LessOrEqual,
            Sign::NotBelow => SpecialMethod::GreaterOrEqual,
        }
    }

    /// Whether two values in this order stand in the sign's.
    pub(crate) fn holds(self, order: Ordering) -> bool
        ensures { result ≡ has_sign (plain_sign self) order }
    {
        match self {
            Sign::Below => order.is_lt(),
            Sign::Above => order.is_gt(),
            Sign::NotAbove => order.is_le(),
            Sign::NotBelow => order.is_ge(),
        }
    }
}
