//! What commands mean: runs of files and images say of their programs what these mean, and loading and running end
//! in one way.
#![tactic(auto)]

mod going;
mod meant;

pub use file_commands::{check, check_as, cross, dump, freeze, merge_files, migrate};
pub use going::{run_law, sources_law};
pub use meant::{
    crossed_holds_law, go_means_law, holds_law, image_holds_law, makes_law, parts_mean_law,
    resume_means_law, run_means_law,
};
pub use run_commands::{
    Ready, leaves_law, place_of, rest_law, resume, run_loaded, run_ready, run_saving, source_ready,
    stress,
};
