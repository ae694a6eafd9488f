//! Calls over an arena: what a callee is, how arguments are bound to the slots of a function's parameters, and the calls of
//! all built-ins and all methods.
#![tactic(auto)]

mod binding;
mod builtins;
mod callees;
mod calls;
mod defaults;
mod keywords;
mod laws;
mod methods;
mod slots;
mod visits;

pub use binding::{Parameters, bind};
pub use builtins::call_on_heap;
pub use callees::{Callee, Function, callee_of};
pub use calls::{CallStop, call_builtin};
pub use laws::effects_law;
pub use methods::call_method;
pub use visits::{visits_call_builtin, visits_call_method};
