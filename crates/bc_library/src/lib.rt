//! The library of verified modules: found by name, with one pool for their texts, and with their constants by number.
#![tactic(auto)]

mod constants;
mod fault;
mod greatest;
mod laws;
mod library;
mod parts;
mod texts;

pub use bc_verify::{Verified, verify};
pub use fault::{LibFault, Member};
pub use laws::{library_law, modules_law, texts_law};
pub use library::Library;
pub use texts::Title;
