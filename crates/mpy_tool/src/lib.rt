//! The tool: the top call, which does what words order.
#![tactic(auto)]

mod below;
mod doing;
mod outside;
mod resuming;
mod running;
mod top;

pub use outside::Outside;
pub use top::mpy;
