//! What the run of a library means, whose files are those of a program's units.
#![tactic(auto)]

mod headline;
mod runs;

pub use headline::meant_law;
pub use runs::{links_law, runs_law};
pub use trans_laws::fitting_law;
