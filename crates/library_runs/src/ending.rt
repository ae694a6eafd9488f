//! How runs of libraries end, as callers are told.

/// How a run of a library ended.
#[derive(Clone, Copy, Debug, PartialEq, Eq)]
pub enum RunEnd {
    /// Its last call returned.
    Ended,
    /// An exception that nothing caught ended it; its report was said.
    Raised,
    /// A making didn't fit the arena; its line was said.
    Memory,
    /// It took all its steps, and didn't end.
    Limit,
    /// The sink of its output failed.
    WriteFault,
    /// Memory for it wasn't found, and it didn't begin.
    NoMemory,
}
