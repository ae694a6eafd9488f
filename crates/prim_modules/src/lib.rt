//! Modules over an arena: those that are registered, functions and modules that are made, and a module that is stored in
//! the namespace of the one before it.
#![tactic(auto)]

mod dots;
mod entry;
mod makings;
mod names;
mod registry;
mod stores;

pub use entry::Entry;
pub use makings::{Made, NewFunction, make_function, make_module};
pub use prim_assignments::{Fault, Stop, ValueType, name_bytes};
pub use registry::Modules;
pub use stores::store_module;
