//! Modules written as an image, and images written once more in version 2.
#![tactic(auto)]

mod codes;
mod fault;
mod image;
mod laws;
mod migrate;
mod modules;
mod named;
mod names;
mod objects;
mod texts;

pub use fault::MigrateFault;
pub use image::freeze;
pub use laws::freeze_law;
pub use migrate::migrate_image;
pub use named::Named;
