//! The machine: a run of a library of files over an arena, with its output and its ports.
#![tactic(auto)]

mod acting;
mod at_once;
mod due;
mod fetching;
mod names;
mod opening;
mod paying;
mod running;
mod stepping;

pub use due::visits_due;
pub use names::module_names;
pub use opening::{open, used};
pub use running::run;
pub use vm_at_once::{End, Rows};
pub use vm_starting::{Cache, Vm, program_law};
