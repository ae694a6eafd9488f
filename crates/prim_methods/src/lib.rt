//! Methods of lists and dicts over an arena: each call is the primitive of its name.
#![tactic(auto)]

mod appends;
mod dict_gets;
mod dict_items;
mod dict_pops;
mod extends;
mod halves;
mod inserts;
mod objects;
mod pops;
mod puts;

pub use appends::call_list_append;
pub use dict_gets::call_dict_get;
pub use dict_items::{call_dict_items, visits_call_dict_items};
pub use dict_pops::call_dict_pop;
pub use extends::{call_list_extend, visits_call_list_extend};
pub use halves::{
    call_dict_keys, call_dict_values, visits_call_dict_keys, visits_call_dict_values,
};
pub use inserts::call_list_insert;
pub use pops::call_list_pop;
pub use prim_assignments::{inplace_add, set_attr, set_item, unpack, visits_inplace_add};
