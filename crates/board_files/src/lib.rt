//! Runs of a plan's tasks by turns, with a file for the output of each.
#![tactic(auto)]

mod files;
mod running;
mod stop;
mod summary;
mod turns;

pub use board_tasks::program_law;
pub use running::run_board;
pub use stop::BoardStop;
