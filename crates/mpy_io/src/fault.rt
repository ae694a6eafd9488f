//! How a call on the outside fails.

use thiserror::Error;

/// A write or a put failed outside.
#[derive(Clone, Copy, Debug, PartialEq, Eq, Error)]
#[error("a write failed")]
pub struct Failed;

/// Why a read gives no bytes.
#[derive(Clone, Copy, Debug, PartialEq, Eq, Error)]
pub enum ReadFault {
    /// The folder has no such file.
    #[error("no such file")]
    Absent,
    /// The file is longer than any file that is read.
    #[error("the file is too long")]
    TooLong,
    /// The read failed outside.
    #[error("the read failed")]
    Failed,
    #[error("out of memory")]
    NoMemory,
}
