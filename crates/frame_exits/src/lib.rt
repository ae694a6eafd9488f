//! Ways out of a code, over frames and an arena: raises, returns, what finallys keep, and imports.
#![tactic(auto)]

mod beginning;
mod causes;
mod ends;
mod finishing;
mod importing;
mod names;
mod operands;
mod prefixes;
mod putting;
mod raising;
mod refusing;
mod returning;
mod throwing;

pub use bc_library::Library;
pub use beginning::begin_import;
pub use causes::Cause;
pub use ends::{After, End};
pub use finishing::end_finally;
pub use importing::{Import, Refusal, import_name};
pub use names::ModuleName;
pub use prim_modules::Modules;
pub use putting::put_import;
pub use raising::{raise, raise_last, raise_obj};
pub use refusing::refuse_import;
pub use returning::{receive, return_value};
