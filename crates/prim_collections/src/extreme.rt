//! The least and the greatest.

ghost use Rattle.std.specs.Prelude.{◌≡◌};
ghost use Rattle.prim_builtins.specs.py_primitives.Order.{has_sign};
ghost use Rattle.prim_builtins.specs.py_primitives.Operators.{sign_method};
ghost use Rattle.prim_builtins.specs.prim_faults.Faults.{method_text};
ghost use Rattle.prim_collections.specs.Best.{plain_extreme};

use prim_builtins::SpecialMethod;
use std::cmp::Ordering;

/// Which of some values is the best one.
#[derive(Clone, Copy)]
pub(crate) enum Extreme {
    Least,
    Greatest,
}

impl Extreme {
    /// The method that the fault of a comparison names.
    pub(crate) fn method(self) -> SpecialMethod
        ensures { method_text result ≡ sign_method (plain_extreme self) }
    {
        match self {
            Extreme::Least => SpecialMethod::Less,
            Extreme::Greatest => SpecialMethod::Greater,
        }
    }

    /// Is a value better than another, in this order of the two?
    pub(crate) fn holds(self, order: Ordering) -> bool
        ensures { result ≡ has_sign (plain_extreme self) order }
    {
        match self {
            Extreme::Least => order.is_lt(),
            Extreme::Greatest => order.is_gt(),
        }
    }
}
