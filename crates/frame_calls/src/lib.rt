//! Calls and functions: what the instructions do that make a function or call a value.
#![tactic(auto)]

mod acting;
mod binding;
mod calling;
mod entering;
mod making;
mod operands;
mod paying;
mod putting;

pub use acting::{act_builtin, act_method, refuse_call};
pub use binding::{Bindings, FunctionCode};
pub use calling::{Invocation, call_function, call_method};
pub use entering::{run_function, skip_function};
pub use making::{Child, make_function, make_function_with};
pub use operands::Operands;
pub use paying::visits_call;
pub use prim_calls::{CallStop, Callee, Function};
