//! Modules that are to be in an image.

use mpy_base::Text;
use mpy_tree::RawModule;

/// A module that is to be in an image, and its name there.
#[derive(Drop)]
pub struct Named {
    pub name: Text,
    pub held: RawModule,
}
