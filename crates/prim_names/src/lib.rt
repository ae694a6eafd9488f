//! Names over an arena: globals and built-ins, locals, attributes of method calls and imports, displays and their pairs.
#![tactic(auto)]

mod attributes;
mod builtins;
mod displays;
mod globals;
mod locals;
mod pairs;

pub use attributes::{Looked, import_from, load_method};
pub use displays::{make_dict, make_list};
pub use globals::{delete_global, load_global, store_global};
pub use locals::assigned;
pub use pairs::store_pair;
pub use prim_methods::{inplace_add, set_attr, set_item, unpack, visits_inplace_add};
pub use prim_raising::{make_tuple, op_match};
