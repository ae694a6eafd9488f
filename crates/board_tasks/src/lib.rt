//! Tasks that run by turns on one library of modules, each in an arena of its own.
#![tactic(auto)]

mod board;
mod ending;
mod laws;
mod opening;
mod turning;

pub use board::Board;
pub use ending::{TaskEnd, TurnEnd};
pub use laws::{board_law, stands_law};
pub use opening::BoardFault;
pub use turning::TaskRun;
pub use vm_machine::{Cache, program_law};
