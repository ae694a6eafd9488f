//! The grammar of images of named modules, its texts read from bytes, and the library that an image may lie
//! over.
#![tactic(auto)]

mod base;
mod entry;
mod fault;
mod field;
mod names;
mod texts;

pub use base::{copy_texts, count_modules, has_name, name_of};
pub use bc_library::{Library, library_law, modules_law};
pub use entry::{Entry, Opened};
pub use fault::ImageFault;
pub use field::{Field, count, number};
pub use names::{Table, qstr_table, use_of, use_part};
pub use texts::table;
