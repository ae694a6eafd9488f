//! Interned texts: those that every file may name by number, and pools of a file's own.
#![tactic(auto)]

mod pool;
mod table;

pub use mpy_base::{Builtin, Items, Kind, NoMemory, NoRoom, Room, Text, room_for};
pub use pool::{Full, Pool, pool_law};
pub use table::{FIRST_OWN, STATIC_COUNT, static_law, static_number, static_text};
