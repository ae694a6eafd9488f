//! The files of dotted names: the package's file, else the plain one.
#![tactic(auto)]

mod candidate;
mod laws;
mod search;

pub use candidate::{Paths, candidates};
pub use laws::apart_law;
pub use search::{FindFault, Found, find};
