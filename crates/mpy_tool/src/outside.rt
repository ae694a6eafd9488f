//! What a command reaches outside of the tool.

use port_set::PortSet;

/// What a command reads and writes, prints on, says its lines on, and calls.
#[derive(Drop)]
pub struct Outside<F, S, P, E> {
    /// The files that it reads and writes.
    pub folder: F,
    /// Where it prints. With status 0 nothing is held back.
    pub out: S,
    /// Where it says its lines. They aren't flushed: give it a sink that holds nothing back, or flush it after the call.
    pub say: E,
    /// The ports that a run puts numbers to and gets numbers from.
    pub ports: PortSet<P>,
}
