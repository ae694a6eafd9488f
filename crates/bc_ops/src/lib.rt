//! The instructions of a code, read from its bytes and written to them.
#![tactic(auto)]

mod decoding;
mod encoding;
mod form;
mod instr;
mod listing;
mod offset;
mod parting;
mod signed;

pub use decoding::{CodeFault, decode_at, instruction_law};
pub use encoding::encode;
pub use instr::{Instr, Op};
pub use listing::{Item, Target, listing_law};
pub use offset::offset_fits;
pub use parting::{Listed, items_of};
pub use signed::{read_signed, signed_law, write_signed};
