//! Expressions and targets, read from tokens.
#![tactic(auto)]

mod atoms;
mod calls;
mod conditions;
mod cursor;
mod expressions;
mod grammar;
mod members;
mod name_table;
mod operators;
mod targets;

pub use calls::Arguments;
pub use cursor::{Cursor, Mark, Syntax, release};
pub use expressions::{expressions_law, read_test, read_tests};
pub use grammar::Rule;
pub use name_table::{FEW_NAMES, NameTable};
pub use targets::{read_gone, read_one, read_targets, target_of, targets_law};
