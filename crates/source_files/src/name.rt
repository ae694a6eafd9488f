//! The names that files store of their sources.

ghost use Rattle.std.specs.Prelude.{◌≡◌, IfOk};
ghost use Rattle.source_files.specs.Sources.{ascii_of, stored};

use mpy_base::{NoMemory, Text};
use std::alloc::Global;

/// A byte, and `?` in place of one that isn't ASCII.
fn ascii_byte(byte: u8) -> u8
    ensures { result ≡ ascii_of byte }
{
    if byte < 128 { byte } else { b'?' }
}

/// The name that a file stores of the source of this path.
pub fn stored_name(alloc: Global, path: &[u8]) -> Result<Text, NoMemory>
    ensures { IfOk result (λ text. text ≡ stored path.now) }
{
    let bytes: Vec<u8> = path.iter().map(|byte| ascii_byte(*byte)).collect(alloc)?;
    Text::new(alloc, &bytes)
}
