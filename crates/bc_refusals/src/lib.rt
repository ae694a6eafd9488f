//! First faults of codes that aren't verified, by rows that a walk over their blocks found.
#![tactic(auto)]

mod agreeing;
mod arriving;
mod chaining;
mod judging;
mod leaving;
mod opening;
mod order;
mod parting;
mod refusing;
mod walk;

pub use judging::{Judgement, judge};
pub use walk::fault_by;
