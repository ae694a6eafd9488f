//! Instructions of the machine that may raise, on frames and over an arena.
#![tactic(auto)]

mod attributes;
mod displays;
mod iterators;
mod locals;
mod names;
mod operations;
mod operators;
mod slots;
mod subscripts;
mod values;

pub use attributes::{import_from, load_attr, load_method, store_attr};
pub use displays::{build_list, build_map, build_tuple, unpack_sequence};
pub use frame_moves::{Place, placed_law};
pub use iterators::{for_iter, get_iter_stack, top_truth};
pub use locals::{delete_fast, load_fast};
pub use names::{delete_name, load_name, store_name};
pub use operators::{binary_op, unary_op, visits_binary_op};
pub use prim_names::assigned;
pub use subscripts::{delete_subscr, load_subscr, store_map, store_subscr};
