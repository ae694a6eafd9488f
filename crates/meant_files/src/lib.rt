//! The program that files and images hold which compiling, merging and freezing made, and what their run
//! means.
#![tactic(auto)]

mod built;
mod frozen;
mod laws;
mod units;

pub use built::{built_law, made_law};
pub use frozen::{frozen_law, images_law, means_law};
pub use laws::{files_law, imports_law, program_law, sources_law, sources_mean_law};
pub use meant_runs::{meant_law, runs_law};
pub use units::{checked_law, crossed_law, merged_law};
