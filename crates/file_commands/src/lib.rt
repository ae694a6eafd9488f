//! The commands on files: `check`, alone and against a source, `dump`, `cross` and `merge`; and on images: `freeze` and `migrate`.
#![tactic(auto)]

mod checking;
mod checking_as;
mod crossing;
mod dumping;
mod freeze_command;
mod merging;
mod migrate_command;

pub use checking::check;
pub use checking_as::check_as;
pub use crossing::{cross, one_ending_law};
pub use dumping::dump;
pub use freeze_command::freeze;
pub use frozen_files::compile_law;
pub use merging::merge_files;
pub use migrate_command::migrate;
