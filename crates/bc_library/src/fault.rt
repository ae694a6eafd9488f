//! What a library refuses, and what a name leads to.

use thiserror::Error;

/// Why a library takes no further entry.
#[derive(Clone, Copy, Debug, PartialEq, Eq, Error)]
pub enum LibFault {
    /// The name is there.
    #[error("the name is there")]
    Twice,
    /// The library has as many entries as it may have.
    #[error("too many modules")]
    TooMany,
    /// The pool has no room for the module's texts.
    #[error("too many texts")]
    Names,
}

/// What a name leads to.
#[derive(Clone, Copy, Debug, PartialEq, Eq)]
pub enum Member {
    /// A module, by its number: modules count from 0 in the order of adding, refused entries aside.
    Module(u32),
    /// An entry whose file was refused.
    Refused,
}
