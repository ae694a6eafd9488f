//! Code in the making: instructions whose jumps name labels, the names that they are made for, and the
//! codes of a module that drafts become.
#![tactic(auto)]

mod children;
mod codes;
mod draft;
mod measures;
mod names;
mod operators;
mod scope;
mod scopes;
mod wide;

pub use children::{numbers_law, tree_law};
pub use codes::{CodeHead, CodeLines, body_law, code_of, finish};
pub use draft::{Draft, DraftItem, DraftLine};
pub use measures::measure;
pub use names::{delete_name, load_name, store_name};
pub use operators::{arithmetic_number, comparing_number, is_negated, unary_number};
pub use scope::Scope;
pub use scopes::{function_scope, module_scope};
pub use wide::wide_length;
