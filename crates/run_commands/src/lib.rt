//! The commands that run, and `stress`, which runs a made source: the library of a source, a file or an image, and its run.
#![tactic(auto)]

mod base;
mod draws;
mod go;
mod making;
mod ready;
mod resuming;
mod run;
mod saving;
mod source;
mod stressing;
mod suspended;

pub use base::base_of;
pub use command_files::{Ending, put_three, say_ending};
pub use go::source_ready;
pub use library_runs::accounted_law;
pub use ready::Ready;
pub use resuming::{place_of, resume};
pub use run::{run_loaded, run_ready};
pub use saving::run_saving;
pub use source::stress_source;
pub use stressing::stress;
pub use suspended::{leaves_law, rest_law};
