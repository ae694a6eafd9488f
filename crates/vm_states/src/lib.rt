//! Calls that run a program over an arena: what an instruction that is fetched finds on them, and how they
//! stay so.
#![tactic(auto)]

mod call_tops;
mod known;
mod ready;
mod standing;

pub use call_tops::tops_law;
pub use frame_exits::{
    After, End, Import, Library, ModuleName, Modules, begin_import, end_finally, import_name,
    put_import, raise, raise_last, raise_obj, receive, refuse_import, return_value,
};
pub use frame_values::{Place, assigned, top_truth};
pub use known::known_law;
pub use ready::{keeps_law, ready_law};
pub use standing::{locals_law, standing_law};
pub use vm_fetching::{
    Action, AttributeOp, BuildOp, CallOp, Fetched, HandlerOp, Instruction, ItemOp, LeaveOp,
    LocalOp, MakeOp, MoveOp, NameOp, Row, Rows, Step, TestOp, fetch, line_of, rows_law, step_law,
};
