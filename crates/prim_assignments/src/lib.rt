//! Assignments over an arena: each call is the primitive of its name.
#![tactic(auto)]

mod attributes;
mod extensions;
mod in_place;
mod items;
mod pairs;
mod unpacking;

pub use attributes::set_attr;
pub use extensions::{extend_list, visits_extend};
pub use in_place::{inplace_add, visits_inplace_add};
pub use items::set_item;
pub use prim_operators::{
    Fault, Stop, ValueType, dict_delete, dict_get, items_law, length_of, name_bytes, place_of,
};
pub use unpacking::unpack;
