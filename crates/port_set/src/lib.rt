//! Ports by number: a call goes to the port of its number and to no other.
#![tactic(auto)]

mod fault;
mod laws;
mod set;

pub use fault::PortFault;
pub use laws::{counts_law, get_law, put_law};
pub use set::PortSet;
