//! Files' modules have trees, which the machine runs alone; the verifier's rules of a tree, of its bytes and of
//! the machine's module.
#![tactic(auto)]

mod resolved;
mod verified;

pub use resolved::{alike_law, resolves_law, stored_law};
pub use verified::{file_law, module_law, raw_law, tree_law};
