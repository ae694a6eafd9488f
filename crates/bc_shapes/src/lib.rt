//! Shapes, what is asked of them, and where two meet.
#![tactic(auto)]

mod joining;
mod kinds;
mod shape;
mod slots;
mod span;

pub use joining::join;
pub use kinds::{Give, Gives, Kind, Takes, Want};
pub use mpy_base::{NoMemory, limits};
pub use shape::{Entry, Shape, same_entries, same_entry, under};
pub use slots::{Slots, below, fits, fits_again, keeps_all};
pub use span::{Span, union};
