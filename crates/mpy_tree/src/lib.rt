//! Modules: as a tree with texts, objects and positions in it, and as a file holds them.
#![tactic(auto)]

mod module;
mod raw;

pub use bc_prelude::parts_of;
pub use module::{Code, Constant, Item, ModuleCode};
pub use raw::{Qstr, RawCode, RawModule, module_law, preorder_law, resolving_law};
