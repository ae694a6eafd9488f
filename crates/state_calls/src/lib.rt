//! Functions that are made, and calls, of a program that runs.
#![tactic(auto)]

mod calling;
mod entering;
mod finding;
mod making;
mod taking;

pub use calling::call_on;
pub use frame_calls::{Bindings, CallStop, Invocation, Operands};
pub use making::{make_function, make_function_with};
pub use taking::{take_call, visits_call_on};
