//! Which snapshots are states of a library.
#![tactic(auto)]

mod constants;
mod frames;
mod jumps;
mod keys;
mod kinds;
mod known;
mod naming;
mod objects;
mod owners;
mod registered;
mod room;
mod shaped;
mod shapes;
mod slot;
mod slots;
mod texts;
mod values;

pub use frames::are_fine_frames;
pub use known::Known;
pub use naming::{builtin_called, kind_called};
pub use objects::are_fine_objects;
pub use registered::are_registered_parts;
pub use room::has_room;
pub use shaped::is_shaped;
pub use shapes::kinds_at;
