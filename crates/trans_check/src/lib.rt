//! Whether a file's module is another one, but for its slots and handler entries.
#![tactic(auto)]

mod comparing;
mod constant;
mod differing;
mod item;
mod lines;
mod names;
mod numbers;
mod own;
mod tree;

pub use comparing::{Compared, compare};
pub use names::stored_source;
