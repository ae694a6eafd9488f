//! Steps of the machine on frames.
#![tactic(auto)]

mod going;
mod handling;
mod jumping;
mod loading;
mod stacking;
mod storing;
mod unwinding;

pub use handling::{pop_except_jump, setup_except, setup_finally};
pub use jumping::{
    jump, jump_if_false_or_pop, jump_if_true_or_pop, pop_jump_if_false, pop_jump_if_true,
};
pub use loading::{load_false, load_int, load_none, load_null, load_object, load_text, load_true};
pub use prim_raising::{Place, raise_value, stop_at};
pub use stacking::{dup_top, dup_top_two, pop_top, rot_three, rot_two};
pub use storing::store_fast;
pub use unwinding::unwind_jump;
pub use vm_frames::{Frames, Role, Slot, moves_law, placed_law};
