//! Instructions that leave a call, imports, and stops, on calls that run a program with its registered modules.
#![tactic(auto)]

mod finishing;
mod importing;
mod law;
mod raising;
mod returning;

pub use finishing::end_finally_on;
pub use importing::import_on;
pub use law::registered_law;
pub use raising::{raise_again_on, raise_on, stop_on};
pub use returning::return_on;
pub use vm_states::{
    CallOp, End, Fetched, Instruction, LeaveOp, MakeOp, ModuleName, Row, Rows, Step,
};
