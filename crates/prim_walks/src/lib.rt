//! Walks over the values of an arena: truth, identity, equality, order, the search for an item and texts, and how
//! many visits each makes.
#![tactic(auto)]

mod budget;
mod containing;
mod equality;
mod exceptions;
mod identity;
mod leaves;
mod look;
mod meeting;
mod names;
mod ones;
mod orders;
mod pairs;
mod parts;
mod pen;
mod pieces;
mod ranges;
mod ranking;
mod ruler;
mod texts;
mod truths;
mod tuples;
mod writer;
mod writing;

pub use arena_objects::{
    Arena, Constants, DictNo, ExcNo, ListNo, ModuleNo, StrNo, TextNo, TupleNo, Value, dict_delete,
    dict_get, dict_len, dict_set, exc_parts, exc_place, item_at, item_count, list_extend, list_pop,
    list_set, make_byte, make_texts, module_parts, put_in_list, range_count, range_number,
    text_bytes, text_fill, tuple_fill,
};
pub use containing::{contains, visits_contains};
pub use equality::{equal, visits_equal};
pub use look::{Look, look_at};
pub use names::{builtin_name, global_builtins};
pub use ones::is_one;
pub use orders::{Unordered, order, visits_order};
pub use parts::TextPart;
pub use pen::Pen;
pub use py_primitives::{Builtin, Kind, NoRoom, NumFault, SmallInt};
pub use texts::{text_len, text_part, visits_text, whole_text, write_text};
pub use truths::truth;
