//! The limits of a library, and why none is loaded.

use mpy_base::{SourceFault, Text};

/// The most bytes that the files of a library's modules have together, the main file's among them.
pub const MAX_LIBRARY_BYTES: usize = 16_777_216;

/// A limit that a library passes.
#[derive(Clone, Copy, Debug, PartialEq, Eq)]
pub enum Limit {
    /// It has more entries than a library may have, or its modules' files have more bytes.
    TooMany,
    /// Its pool has no room for a module's texts.
    Names,
}

/// The read of the file of this path failed outside.
#[derive(Debug, Drop)]
pub struct FailedRead {
    pub path: Text,
}

/// The source of this path isn't accepted, with its first fault.
#[derive(Debug, Drop)]
pub struct UnacceptedSource {
    pub path: Text,
    pub fault: SourceFault,
}

/// Why no library is loaded.
#[derive(Debug, Drop)]
pub enum LoadFault {
    /// It passes a limit.
    Past(Limit),
    /// The read of a file failed outside.
    Failed(FailedRead),
    /// A source isn't accepted.
    Unaccepted(UnacceptedSource),
}
