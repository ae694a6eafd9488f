//! Why an image has no main module.

use image_open::ImageFault;
use mpy_base::Text;

/// Why there is no main module.
#[derive(Debug, Drop)]
pub enum MainFault {
    /// The bytes are no image.
    Image(ImageFault),
    /// The image has no module of this name.
    NoMain(Text),
}
