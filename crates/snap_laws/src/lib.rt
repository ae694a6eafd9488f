//! Laws on states that are saved and loaded again: the least assignment of a code stands for each other one, and a heap whose objects have
//! other numbers is seen the same. And what each state of a run keeps, which a reader of saved states asks.
#![tactic(auto)]

mod calls;
mod effects;
mod flow;
mod heaps;
mod iterables;
mod kept;
mod machine;
mod methods;
mod operators;
mod outputs;
mod texts;
mod uses;

pub use calls::{calls_law, faults_law};
pub use effects::{callees_law, effects_law, modules_law, names_law, raises_law};
pub use flow::{frames_law, least_law, rooms_law};
pub use heaps::{heap_law, sight_law};
pub use iterables::iterables_law;
pub use kept::{bytes_law, filled_law, paid_law, waits_law};
pub use machine::{constants_law, states_law, step_law};
pub use methods::methods_law;
pub use operators::{comparisons_law, operator_law, operators_law};
pub use outputs::output_law;
pub use texts::texts_law;
pub use uses::{attributes_law, items_law};
