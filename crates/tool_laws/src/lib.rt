//! Commands end in one way only, but for calls that fail outside and want of memory, and are done where nothing keeps them from it.
#![tactic(auto)]

mod files;
mod images;
mod laws;
mod loaded;
mod manifests;
mod merging;
mod outputs;
mod programs;
mod runs;
mod statuses;

pub use files::{check_as_law, check_law, cross_law, dump_law};
pub use images::{board_law, freeze_law, migrate_law, opened_law};
pub use loaded::{limits_law, loading_completeness_law};
pub use manifests::manifest_law;
pub use merging::{merge_law, merged_law};
pub use outputs::{board_output_law, check_as_output_law};
pub use programs::{built_program_law, files_mean_law};
pub use runs::{go_law, library_law, run_law};
pub use statuses::{completeness_law, one_run_status_law, one_status_law, run_completeness_law};
