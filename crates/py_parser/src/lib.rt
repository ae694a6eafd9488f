//! Whole sources, read from tokens.
#![tactic(auto)]

mod clause;
mod header;
mod productions;
mod source;
mod stmt;

pub use productions::productions_law;
pub use source::{parse, parser_law};
