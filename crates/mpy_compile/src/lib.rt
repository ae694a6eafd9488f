//! The file of a source: which sources have one, and that their modules may be written.
#![tactic(auto)]

mod compiling;
mod fits;
mod within;
mod written;

pub use compiling::{compile, compile_law, compiled_module};
pub use emit_module::resolved_law;
pub use fits::texts_fit;
pub use py_source::asked_law;
pub use within::{module_law, within_law};
pub use written::{near_law, written_law};
