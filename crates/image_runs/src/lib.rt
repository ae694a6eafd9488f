//! The library of an image, and its main module.
#![tactic(auto)]

mod fault;
mod main_module;

pub use fault::MainFault;
pub use image_open::{open_image, over_law};
pub use library_files::{Limit, UnacceptedSource};
pub use main_module::image_library;
