//! The image of a manifest's sources.
#![tactic(auto)]

mod freezing;
mod source;
mod sources;

pub use freezing::freeze_files;
pub use image_freeze::{MigrateFault, freeze_law, migrate_image};
pub use source_files::{compile_law, resolved_law, within_law};
pub use sources::read_sources;
