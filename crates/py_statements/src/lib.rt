//! Statements of one line, read from tokens.
#![tactic(auto)]

mod imports;
mod line;
mod names;
mod simple;
mod small;

pub use line::{lines_law, read_line};
