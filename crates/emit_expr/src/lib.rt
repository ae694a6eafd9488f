//! The code of expressions.
#![tactic(auto)]

mod expr;
mod puts;

pub use expr::emit_expr;
