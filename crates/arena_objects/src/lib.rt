//! The calls on the objects of an arena. Those that compare values or read constants stand here: the bytes of a str,
//! dicts by their keys, and lists that take the items of an iterable. The others are passed on.
#![tactic(auto)]

mod dicts;
mod extend;
mod finding;
mod keys;
mod ranges;
mod strs;

pub use arena_heap::{
    Arena, Constants, DictNo, ExcNo, FunNo, ListNo, ModuleNo, RangeNo, StrNo, TextNo, TupleNo,
    Value, dict_at, dict_len, exc_parts, exc_place, fun_parts, list_len, list_pop, list_set,
    module_parts, put_in_list, range_parts, text_fill, tuple_fill, tuple_len,
};
pub use dicts::{dict_delete, dict_get, dict_set};
pub use extend::{item_at, item_count, list_extend, make_byte, make_texts};
pub use ranges::{range_count, range_number};
pub use strs::text_bytes;
