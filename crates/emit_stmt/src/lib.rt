//! The code of statements, with bodies and without, and of whole texts.
#![tactic(auto)]

mod assertions;
mod assignments;
mod blocks;
mod defs;
mod exits;
mod imports;
mod jumps;
mod laws;
mod puts;
mod simple;
mod steps;
mod targets;
mod text;

pub use blocks::emit_block;
pub use defs::emit_def;
pub use jumps::Loop;
pub use laws::children_law;
pub use puts::{put_delete, put_store};
pub use simple::emit_simple;
pub use targets::emit_target;
pub use text::emit_text;
