//! Modules read from the bytes of files.
#![tactic(auto)]

mod body;
mod code;
mod fault;
mod field;
mod file;
mod object;
mod own;
mod qstr;

pub use body::{ModuleBody, body_law, read_body};
pub use fault::FileFault;
pub use file::{file_law, read};
