//! Raising over an arena: the exceptions of faults are made, and each exception that is raised gets its place.
#![tactic(auto)]

mod makings;
mod place;
mod raising;
mod texts;

pub use place::Place;
pub use prim_types::{make_tuple, op_match};
pub use raising::{fault_at, raise_value, stop_at};
