//! The primitives of the language as functions of a heap and operands: the texts and the order of values, operators,
//! indexes, attributes, built-ins and methods.
#![tactic(auto)]

mod laws;

pub use laws::{making_law, names_law, order_law};
pub use py_values::{Builtin, Kind, NoRoom, NumFault, SmallInt, limits};
