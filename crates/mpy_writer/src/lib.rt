//! Modules written as files.
#![tactic(auto)]

mod code;
mod codes;
mod draft;
mod fault;
mod file;
mod jumps;
mod layout;
mod object;
mod tables;
mod wide;
mod widths;

pub use code::write_code;
pub use fault::WriteFault;
pub use file::{code_law, write, write_law, write_texts};
pub use object::write_constants;
pub use tables::{Tables, use_text};
pub use wide::{first_long, wide_law};
