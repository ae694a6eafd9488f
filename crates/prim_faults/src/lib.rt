//! Faults of the primitives over an arena: the names of types, faults with their kinds and texts, and what a primitive's
//! call answers.
#![tactic(auto)]

mod fault;
mod keys;
mod kinds;
mod method;
mod names;
mod piece;
mod seen_names;
mod stop;
mod texts;
mod types;
mod wording;

pub use fault::Fault;
pub use keys::is_key;
pub use kinds::fault_kind;
pub use method::SpecialMethod;
pub use prim_walks::{
    Arena, Builtin, Constants, DictNo, ExcNo, ListNo, Look, ModuleNo, NumFault, SmallInt, StrNo,
    TextNo, TextPart, TupleNo, Unordered, Value, builtin_name, contains, dict_delete, dict_get,
    dict_len, dict_set, equal, exc_parts, exc_place, global_builtins, is_one, item_at, item_count,
    list_extend, list_pop, list_set, look_at, make_byte, make_texts, module_parts, order,
    put_in_list, range_count, range_number, text_bytes, text_fill, text_len, text_part, truth,
    tuple_fill, visits_contains, visits_equal, visits_order, visits_text, whole_text,
};
pub use seen_names::name_bytes;
pub use stop::Stop;
pub use texts::{fault_byte, fault_len};
pub use types::{ValueType, type_name, type_of};
