//! How runs end, and where they are.

use arena_heap::{ExcNo, Value};
use mpy_base::NoRoom;

/// How a run ends.
#[derive(Clone, Copy, Debug, PartialEq, Eq)]
pub enum End {
    /// Its last call returned.
    Ended,
    /// No call handled this exception.
    Raised(ExcNo),
    /// A making didn't fit.
    Memory(NoRoom),
}

/// Where a run is after an instruction that may leave calls.
#[derive(Clone, Copy, Debug, PartialEq, Eq)]
pub enum After {
    /// The calls run.
    Runs,
    /// The running call's callee was left: the call takes this value, and goes on behind its instruction.
    Gives(Value),
    Ends(End),
}
