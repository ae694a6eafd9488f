//! How deep tokens nest: brackets, blocks and the operators in them.
#![tactic(auto)]

mod effect;
mod levels;
mod nest;

pub use nest::{MAX_NEST, nest_fault, nest_law};
