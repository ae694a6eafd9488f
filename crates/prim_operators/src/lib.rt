//! Operators and uses of values over an arena: each call is the primitive of its name.
#![tactic(auto)]

mod attributes;
mod containers;
mod deletions;
mod indexes;
mod item_joins;
mod items;
mod joins;
mod keys;
mod lengths;
mod numbers;
mod one_operand;
mod operand;
mod operands;
mod operators;
mod places;
mod sources;
mod two_operands;

pub use attributes::{Attribute, attribute_of, bind_method, get_attr};
pub use containers::{Container, container_of};
pub use deletions::delete_item;
pub use indexes::{get_item, place_of};
pub use items::{item_of, items_law, use_iter};
pub use lengths::length_of;
pub use one_operand::{unary, unary_not};
pub use operand::number_of;
pub use operators::{Operator, UnaryOperator};
pub use prim_faults::{
    Arena, Constants, DictNo, ExcNo, Fault, ListNo, Look, ModuleNo, NumFault, SpecialMethod, Stop,
    StrNo, TextNo, TextPart, TupleNo, Value, ValueType, builtin_name, dict_delete, dict_get,
    dict_set, exc_parts, exc_place, fault_byte, fault_kind, fault_len, global_builtins, is_key,
    item_at, item_count, list_extend, list_set, look_at, make_byte, make_texts, module_parts,
    name_bytes, text_bytes, text_fill, text_len, text_part, truth, tuple_fill, type_name, type_of,
    visits_text, whole_text,
};
pub use two_operands::binary;
