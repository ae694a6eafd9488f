//! The modules of an image.

use bc_library::Verified;
use mpy_base::{Items, Text};

/// A module of an image and its name.
#[derive(Drop)]
pub struct Entry {
    pub name: Text,
    pub held: Verified,
}

/// The modules that were read of an image.
#[derive(Drop)]
pub struct Opened {
    pub entries: Items<Entry>,
    /// How many texts of the pool they use.
    pub used: u64,
}
