//! What the tool's commands find in a folder: the bytes of a file, its verified module, and the library of an image.
#![tactic(auto)]

mod images;
mod opening;
mod reading;

pub use images::{open_base, open_image_file};
pub use mpy_endings::{
    BoardFault, Difference, Ended, Ending, MainFault, Stop, image_library, open_image, put_three,
    say_ending, word_at,
};
pub use opening::{opened, verified};
pub use reading::read_file;
pub use source_files::{
    compile, compile_law, compiled_module, load_sources, source_module, stored_name,
};
