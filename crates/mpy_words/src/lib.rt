//! The words of a command: the order that they give, or the first fault from left to right.
#![tactic(auto)]

mod given;
pub mod number;
mod order;
mod words;

pub use given::{MAX_BYTES, MAX_CELLS, MAX_COUNT, MAX_STEPS};
pub use order::{Command, Named, Order, Setting, WordFault};
pub use words::order_of;
