//! Instructions whose jumps name labels: what their layout with the fewest wide offsets is.
#![tactic(auto)]

mod fetching;
mod labelled;
mod layout;
mod offsets;

pub use fetching::{fetch, jump_target};
pub use labelled::Labelled;
pub use layout::layout_law;
pub use offsets::offsets_law;
