//! Comparisons of values over an arena: each call is the primitive of its name.
#![tactic(auto)]

mod equalities;
mod faults;
mod membership;
mod orders;
mod parts;
mod ranges;
mod signs;

pub use equalities::{op_eq, op_is, op_ne, visits_op_eq, visits_op_ne};
pub use membership::{op_contains, visits_op_contains};
pub use orders::{op_order, visits_op_order};
pub use signs::Sign;
