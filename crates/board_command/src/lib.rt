//! The command `board`: the tasks of a plan by turns on an image.
#![tactic(auto)]

mod laws;
mod plan;
mod running;
mod tasks;

pub use command_files::open_base;
pub use laws::board_means_law;
pub use meant_files::meant_law;
pub use running::board;
