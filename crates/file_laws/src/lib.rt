//! Laws that no command uses: canonical files, those that are cut off or have bytes after them, the limits as numbers, and the
//! names that every file may give by number.
#![tactic(auto)]

mod canonical;
mod cut_files;
mod image_cuts;
mod limits;
mod names;

pub use canonical::canonical_law;
pub use cut_files::{cut_law, suffix_law};
pub use image_cuts::{cut_image, image_with_suffix};
pub use limits::{file_limits_law, library_limits_law, run_limits_law};
pub use names::names_law;
