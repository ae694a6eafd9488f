//! The machine's instructions with what their stops come to, on calls that run a program with its registered modules.
#![tactic(auto)]

mod calling;
mod finishing;
mod imports;
mod leaving;
mod making;
mod values;

pub use calling::call;
pub use finishing::finish;
pub use imports::import;
pub use leaving::leave;
pub use making::{make, make_with};
pub use values::{operate, operate_binary};
