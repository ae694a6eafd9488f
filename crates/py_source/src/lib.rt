//! The accepted sources: their trees with the slots of their names, and the first fault of any other source.
#![tactic(auto)]

mod source;

pub use source::{Accepted, accepted_law, always_law, asked_law, read_source};
