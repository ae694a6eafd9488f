//! Built-in functions over an arena: each call is the primitive of its name.
#![tactic(auto)]

mod arguments;
mod characters;
mod counts;
mod lengths;
mod magnitudes;
mod numbers;
mod ordinals;
mod ranges;
mod truths;

pub use arguments::{one_argument, only_between, only_so_many};
pub use characters::{call_chr, letter};
pub use counts::gives_count;
pub use lengths::call_len;
pub use magnitudes::call_abs;
pub use numbers::number_of;
pub use ordinals::call_ord;
pub use prim_operators::{
    Fault, SpecialMethod, Stop, ValueType, is_key, items_law, length_of, name_bytes, type_of,
    use_iter,
};
pub use ranges::call_range;
pub use truths::call_bool;
