//! A fixed arena: objects in cells and bytes that are taken once, and what a making takes of them, to the cell.
#![tactic(auto)]

mod arena;
mod building;
mod cells;
mod constants;
mod dicts;
mod heads;
mod keys;
mod links;
mod lists;
mod makings;
mod parts;
mod texts;
mod tuples;
mod value;

pub use arena::Arena;
pub use building::Shell;
pub use constants::Constants;
pub use dicts::{
    dict_at, dict_before, dict_last, dict_last_text, dict_len, dict_named, dict_push,
    dict_remove_at, dict_room, dict_set_at, put_in_dict,
};
pub use lists::{
    list_append, list_at, list_insert, list_len, list_pop, list_room, list_set, put_in_list,
    reserve_list,
};
pub use parts::{
    exc_parts, exc_place, fun_parts, method_parts, module_names, module_parts, object_at,
    range_parts,
};
pub use texts::{made_text, text_fill};
pub use tuples::{tuple_at, tuple_fill, tuple_len};
pub use value::{
    ConstNo, DictNo, ExcNo, FunNo, ListNo, MethodNo, ModuleNo, ObjectNo, RangeNo, StrNo, TextNo,
    TupleNo, Value,
};
