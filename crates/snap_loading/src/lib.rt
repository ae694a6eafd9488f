//! The machine of a snapshot.
#![tactic(auto)]

mod anywhere;
mod arena;
mod filling;
mod frames;
mod held;
mod loading;
mod lookup;
mod making;
mod names;
mod one_state;
mod paying;
mod resumed;
mod safe;
mod same;
mod saved;
mod shells;
mod shown;
mod strs;
mod suspended;
mod titles;
mod values;

pub use anywhere::paid_anywhere_law;
pub use held::{held_law, tables_law};
pub use loading::load;
pub use one_state::one_state_law;
pub use resumed::{paid_too_law, resumes_law};
pub use safe::{safe_law, shells_law};
pub use same::{files_law, loaded_law, same_law, states_same_law};
pub use saved::{objects_law, saved_law};
pub use shown::shown_law;
pub use snap_grammar::SnapFault;
pub use suspended::{
    continues_law, first_law, goes_on_law, kept_law, loads_law, saved_frames_law, shaped_law,
    state_law, suspended_law,
};
pub use titles::titles_law;
