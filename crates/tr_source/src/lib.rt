//! What an accepted source keeps and spells, and laws of its translation: that it is verified, and that there
//! is one.
#![tactic(auto)]

mod asked;
mod spelled;
mod text_names;
mod undotted;
mod verified;

pub use asked::{accepted_law, compiled_law, limits_law, unit_law};
pub use bc_resolved::{file_law, raw_law, resolves_law, tree_law};
pub use py_source::{Accepted, asked_law};
pub use spelled::spelled_law;
pub use text_names::texts_law;
pub use undotted::undotted_law;
pub use verified::{merge_law, own_law, unique_law, verified_law};
