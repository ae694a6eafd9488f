//! Why an image isn't migrated.

use image_grammar::ImageFault;

/// Why an image isn't migrated.
#[derive(Debug, Drop)]
pub enum MigrateFault {
    /// It isn't opened.
    Opening(ImageFault),
    /// Its modules have no image of version 2.
    Freezing(ImageFault),
}
