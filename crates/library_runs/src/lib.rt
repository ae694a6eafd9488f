//! Runs of a library of files: the machine, with what it says at the end.
#![tactic(auto)]

mod ending;
mod laws;
mod reporting;
mod running;

pub use ending::RunEnd;
pub use laws::accounted_law;
pub use running::{run_for, run_library, run_on};
pub use vm_machine::{Rows, Vm, program_law};
