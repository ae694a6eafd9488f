//! Entries of the registered modules.

use arena_heap::ModuleNo;

/// A registered module: the number of its name, and its object.
#[derive(Clone, Copy, Debug, PartialEq, Eq)]
pub struct Entry {
    pub name: u32,
    pub object: ModuleNo,
}
