//! Instructions of a program that runs over an arena which act on values and frames, and leave the running
//! call running.
#![tactic(auto)]

mod attributes;
mod branching;
mod constants;
mod displays;
mod handlers;
mod iterators;
mod jumping;
mod law;
mod loading;
mod locals;
mod moving;
mod names;
mod operators;
mod slot_moves;
mod storing;
mod subscripts;

pub use attributes::attribute_on;
pub use branching::{jump_by, test_jump};
pub use constants::constants_law;
pub use displays::build_on;
pub use handlers::handle_on;
pub use iterators::{for_iter, get_iter_stack};
pub use jumping::{begin_except, begin_finally, end_except, jump_on, jump_out};
pub use law::acting_law;
pub use loading::{load_constant, load_small, load_str};
pub use locals::local_on;
pub use moving::{
    jump, load_int, load_object, load_text, move_on, store_fast, store_fast_n, unwind_jump,
};
pub use names::name_on;
pub use operators::{binary_op, unary_op, visits_binary_op};
pub use slot_moves::move_slots;
pub use storing::store_local;
pub use subscripts::item_on;
pub use vm_states::{
    Action, AttributeOp, BuildOp, CallOp, End, Fetched, HandlerOp, Instruction, ItemOp, LeaveOp,
    LocalOp, MakeOp, ModuleName, MoveOp, NameOp, Row, Rows, Step, TestOp, assigned, fetch,
    tops_law,
};
