//! Methods of strs over an arena: each call is the primitive of its name.
#![tactic(auto)]

mod arguments;
mod cuts;
mod finds;
mod joins;
mod parts;
mod pieces;
mod splits;
mod starts;

pub use finds::call_str_find;
pub use joins::{call_str_join, visits_call_str_join};
pub use splits::call_str_split;
pub use starts::call_str_startswith;
