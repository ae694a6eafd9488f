//! The logical lines of a manifest: each a call of a name with literal arguments, and what it orders.
#![tactic(auto)]

mod ahead;
mod call;
mod entry;
mod form;
mod literal;
mod manifest;
mod order;

pub use ahead::NoCall;
pub use call::{Argument, Call};
pub use entry::Entry;
pub use literal::Literal;
pub use manifest::{Line, lines};
pub use order::Order;
