//! The snapshot of a state: which bytes it is, and how they are made.
#![tactic(auto)]

mod bytes;
mod fault;
mod frames;
mod names;
mod objects;
mod saving;
mod values;

pub use fault::SaveFault;
pub use saving::save;
