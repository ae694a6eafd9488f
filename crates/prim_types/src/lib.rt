//! Types called and asked for, over an arena: each call is the primitive of its name.
#![tactic(auto)]

mod dicts;
mod exceptions;
mod instances;
mod kinds;
mod matches;
mod members;
mod numerals;
mod texts;

pub use dicts::call_dict;
pub use exceptions::{call_kind, make_tuple};
pub use instances::call_isinstance;
pub use matches::op_match;
pub use numerals::call_int;
pub use prim_operators::{
    Arena, Constants, ExcNo, Fault, Stop, StrNo, TextNo, TupleNo, Value, exc_place, fault_byte,
    fault_kind, fault_len, text_bytes, text_fill, tuple_fill,
};
pub use texts::{call_shown, visits_call_shown};
