//! The merge of verified modules: their codes with the numbers of one file, whose outermost code calls theirs
//! in order.
#![tactic(auto)]

mod code_names;
mod codes;
mod fault;
mod file;
mod law;
mod lines;
mod moved;
mod names;
mod objects;
mod outer;
mod top;
mod tree;

pub use fault::{MAX_PARTS, MergeFault};
pub use law::moved_law;
pub use moved::{entry_text, text_at};
pub use top::merge;
pub use tree::{write_head, write_tree};
