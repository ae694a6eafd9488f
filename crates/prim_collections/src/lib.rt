//! Built-in functions over the items of iterables: each call is the primitive of its name.
#![tactic(auto)]

mod arguments;
mod best_calls;
mod best_letters;
mod best_visits;
mod candidates;
mod extreme;
mod iterables;
mod letters;
mod lists;
mod searches;
mod tuples;

pub use best_calls::{call_max, call_min};
pub use best_visits::{visits_call_max, visits_call_min};
pub use lists::{call_list, visits_call_list};
pub use tuples::{call_tuple, visits_call_tuple};
