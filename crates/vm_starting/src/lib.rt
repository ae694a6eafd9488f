//! How a run begins: the program that the machine runs for a library of files, what was fetched of its codes,
//! the run's memory, and the main module.
#![tactic(auto)]

mod cache;
mod cached;
mod codes;
mod names;
mod opening;
mod places;
mod shown_program;
mod starting;

pub use cache::Cache;
pub use cached::{cache_law, row_law};
pub use frame_calls::Invocation;
pub use names::names_law;
pub use opening::Vm;
pub use places::Places;
pub use shown_program::{code_law, program_law, runnable_law};
pub use starting::{MAIN, NAME, start_main};
pub use vm_states::ready_law;
