//! Values of the language: small integers, and how values in a heap are compared, named and used as keys.
#![tactic(auto)]

mod arithmetic;
mod bits;
mod division;
mod laws;
mod power;
mod shifts;
mod small_int;

pub use bits::bits_law;
pub use division::division_law;
pub use laws::{equality_law, keys_law};
pub use mpy_base::{Builtin, Kind, NoRoom, limits};
pub use small_int::{NumFault, SmallInt};
