//! Places where exceptions are raised.

/// Where an exception is raised: a line, and the numbers of the names of its file and of its code.
#[derive(Clone, Copy, Debug, PartialEq, Eq)]
pub struct Place {
    pub file: u32,
    pub line: u32,
    pub name: u32,
}
