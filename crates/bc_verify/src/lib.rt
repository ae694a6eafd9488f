//! Modules whose codes keep the rules: told apart from others, and held as such.
#![tactic(auto)]

mod code;
mod fault;
mod instruction;
mod tree;
mod verified;

pub use code::shapes;
pub use fault::{Rule, VerifyFault};
pub use mpy_tree::{Constant, Qstr, RawCode, RawModule, module_law, parts_of, resolving_law};
pub use tree::count;
pub use verified::{Verified, codes_law, known_verified, one_fault, order, verified_law, verify};
