//! The library of a main module from sources.
#![tactic(auto)]

mod laws;
mod loading;
mod name;
mod source;

pub use laws::compiled_law;
pub use loading::{Sources, load_sources};
pub use mpy_compile::{compile, compile_law, compiled_module, resolved_law, within_law};
pub use name::stored_name;
pub use source::source_module;
