//! The instruction at an offset of a row, decoded in place.
#![tactic(auto)]

mod fetching;
mod instruction;
mod law;
mod lines;
mod looking;
mod operations;

pub use bc_rows::{Row, Rows, rows_law};
pub use fetching::fetch;
pub use instruction::{Action, Fetched, Instruction, Step};
pub use law::step_law;
pub use lines::line_of;
pub use operations::{
    AttributeOp, BuildOp, CallOp, HandlerOp, ItemOp, LeaveOp, LocalOp, MakeOp, MoveOp, NameOp,
    TestOp,
};
