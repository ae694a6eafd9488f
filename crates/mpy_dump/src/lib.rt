//! The listing of a module, as a file holds it.
#![tactic(auto)]

mod codes;
mod head;
mod instructions;
mod jumps;
mod names;
mod objects;
mod operations;
mod path;
mod pen;
mod put;
mod short;
mod tails;
mod texts;
mod whole;

pub use whole::{listing, listing_law};
