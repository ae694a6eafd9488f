//! The outside as the tool chain sees it: a folder of files and a sink of bytes, each with a count of its faults.
//!
//! The forms in memory tell what they hold, so that contracts can speak of it. The real ends tell nothing.
#![tactic(auto)]

mod cut;
mod disk;
mod fault;
mod folder;
mod input_port;
mod mem_folder;
mod mem_sink;
mod out_sink;
mod place;
mod port;
mod real_disk;
mod script_port;
mod sink;
mod whole_file;

pub use disk::DiskFolder;
pub use fault::{Failed, ReadFault};
pub use folder::Folder;
pub use input_port::InputPort;
pub use mem_folder::MemFolder;
pub use mem_sink::MemSink;
pub use out_sink::OutSink;
pub use port::Port;
pub use real_disk::Disk;
pub use script_port::ScriptPort;
pub use sink::Sink;
