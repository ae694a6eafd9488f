//! The codes of a library by their modules and numbers: for each, what a run of it in its bytes asks for.
#![tactic(auto)]

mod codes;
mod law;
mod row;
mod rows;

pub use bc_library::Library;
pub use law::rows_law;
pub use row::Row;
pub use rows::Rows;
