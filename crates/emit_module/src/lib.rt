//! The module of a source, by the codes of its texts.
#![tactic(auto)]

mod joined;
mod laws;
mod lengths;
mod module;
mod own;
mod text;
mod walk;

pub use joined::joined_law;
pub use laws::{faults_law, functions_law, resolved_law, stands_law};
pub use lengths::draft_length_law;
pub use module::{Emitted, emit};
pub use own::{OwnCode, Place, own_code};
pub use tr_source::{accepted_law, limits_law, spelled_law};
