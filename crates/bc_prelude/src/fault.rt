//! Faults of a prelude.

use thiserror::Error;

/// Why no prelude could be read.
#[derive(Clone, Copy, Debug, PartialEq, Eq, Error)]
pub enum PreludeFault {
    /// The bytes end inside the prelude, or the information inside its names.
    #[error("the bytes end inside a prelude")]
    Truncated,
    /// A number of the signature passes its limit, or the index of a name has no spelling.
    #[error("a number of a prelude is too big")]
    TooBig,
    /// There are flags, keyword-only arguments or cells.
    #[error("a prelude isn't supported")]
    Outside,
}
