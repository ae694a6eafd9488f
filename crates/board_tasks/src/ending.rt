//! How turns and tasks end.

use mpy_base::Kind;

/// How a turn went.
#[derive(Clone, Copy, Debug, PartialEq, Eq)]
pub enum TurnEnd {
    /// Its steps were made, or the task ended within them.
    Went,
    /// The task had ended before, and nothing was done.
    Over,
    /// The sink of its output failed, which ends the task.
    WriteFault,
}

/// How a task ended.
#[derive(Clone, Copy, Debug, PartialEq, Eq)]
pub enum TaskEnd {
    /// Its last call returned.
    Ended,
    /// An exception of this kind ended it, which nothing caught.
    Raised(Kind),
    /// A making didn't fit its arena.
    Memory,
    /// The sink of its output failed.
    WriteFault,
}
