//! Images opened over what lies below, and modules copied.
#![tactic(auto)]

mod codes;
mod copies;
mod entry;
mod image;
mod laws;
mod modules;
mod objects;
mod opening;
mod shelving;

pub use image::read_image;
pub use image_grammar::ImageFault;
pub use laws::{image_law, over_law};
pub use modules::copy_module;
pub use opening::open_image;
