//! The tree of a source: what the parser gives, and what everything behind it reads.
#![tactic(auto)]

mod expr;
mod stmt;

pub use expr::{BinaryOp, CompareOp, Expr, UnaryOp};
pub use stmt::{Alias, Branch, Handler, Module, Param, Stmt, StmtKind, Target};
