//! Instructions that are carried out at once: they change the running call, or an item of a list, and come to no stop.
#![tactic(auto)]

mod acting;
mod doing;
mod items;
mod iterators;
mod jumps;
mod locals;
mod names;
mod numbers;
mod operators;

pub use acting::{act_at_once, store_at_once};
pub use state_values::{
    Action, CallOp, End, Fetched, Instruction, LeaveOp, MakeOp, ModuleName, Row, Rows, Step, fetch,
    visits_binary_op,
};
