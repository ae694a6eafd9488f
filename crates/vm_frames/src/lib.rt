//! The frames of the machine: a stack of calls with their locals, slots and handler entries, in memory that
//! is taken once. Their moves are those of the machine.
#![tactic(auto)]

mod frame;
mod frames;
mod moves;
mod placed;
mod slot;

pub use arena_heap::{StrNo, Value};
pub use frame::Frame;
pub use frames::Frames;
pub use placed::{moves_law, placed_law};
pub use slot::{Entry, Role, Slot};
