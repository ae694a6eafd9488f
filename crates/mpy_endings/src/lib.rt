//! How commands end: the statuses, and the line that is said at the end.
#![tactic(auto)]

mod boards;
mod differing;
mod ending;
mod freezing;
mod line;
mod put;
mod snapshots;
mod words;

pub use ending::{BoardFault, Difference, Ended, Ending, Stop};
pub use image_runs::{MainFault, image_library, open_image, over_law};
pub use line::{say_ending, say_words};
pub use put::put_three;
pub use snap_grammar::SnapFault;
pub use words::{file_names, main_name, source_name, word_at};
