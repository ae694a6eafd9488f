//! Plans of a board: the tasks that it runs, and their turns.
#![tactic(auto)]

mod laws;
mod line;
mod plan;
mod reading;
mod words;

pub use laws::plan_law;
pub use line::Line;
pub use plan::{Plan, PlanFault, Task, Turn};
pub use reading::read_plan;
