//! What the code of a text comes to, counted on its tree: its height, its handler entries, its bytes and the
//! locals that it names, and whether these pass a limit.
#![tactic(auto)]

mod counts;
mod entries;
mod expr_heights;
mod expr_lengths;
mod faults;
mod imports;
mod number_lengths;
mod statement_heights;
mod statement_lengths;
mod target_heights;
mod target_lengths;
mod text_faults;

pub use counts::{lengths_law, locals_law, own_locals_law};
pub use entries::block_entries;
pub use faults::{Measures, within_law};
pub use statement_heights::block_height;
pub use statement_lengths::text_length;
pub use text_faults::many_locals_fault;
