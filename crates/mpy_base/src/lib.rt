//! What every other crate stands on: texts, lists and boxes, want of memory, refusals, numbers of the file format,
//! limits, kinds of exceptions, built-ins, and the world of a program with its weights.
#![tactic(auto)]

mod boxed;
mod builtin;
mod items;
mod kind;
pub mod limits;
mod refused;
mod room;
mod source;
mod text;
mod vuint;

pub use boxed::Boxed;
pub use builtin::Builtin;
pub use items::Items;
pub use kind::Kind;
pub use refused::{NoMemory, Refused};
pub use room::{NoRoom, Room, room_for, room_law};
pub use source::{SourceCode, SourceFault};
pub use text::Text;
pub use vuint::{VuintFault, read_vuint, vuint_law, write_vuint};
