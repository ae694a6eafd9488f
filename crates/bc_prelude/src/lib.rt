//! The prelude in front of the instructions of a code, and its line table, read and written.
#![tactic(auto)]

mod chain;
mod cursor;
mod fault;
mod lines;
mod names;
mod parts;
mod prelude;
mod signature;
mod size;

pub use cursor::Place;
pub use fault::PreludeFault;
pub use lines::{line_at, lines_law, write_lines};
pub use names::{names_law, read_name_at, read_names};
pub use parts::{Parts, first_index, parts_of};
pub use prelude::{Prelude, prelude_law, read_prelude, write_prelude};
pub use signature::{Signature, read_signature, signature_law, write_signature};
pub use size::{read_size, size_law, write_size};
