//! A text that definitions can compare.

ghost use Rattle.std.specs.Prelude.{◌≡◌, [], IfOk};

use crate::NoMemory;
use smallvec::SmallVec;
use std::alloc::Global;
use std::marker::Model;

/// The longest text that takes no memory of its own, in bytes.
const IN_PLACE: usize = 24;

/// Bytes that contracts see as their list, so that two texts with the same bytes are one. Texts of up to 24 bytes, as most
/// names are, stand in place; longer ones take a block.
#[derive(Debug, Drop)]
pub struct Text {
    bytes: SmallVec<u8, IN_PLACE>,
}

impl Model for Text {
    ghost use Rattle.std.specs.Prelude.{List, ℕ};

    ghost Value = { List ℕ };

    ghost view = { λ t. t.bytes.items };
}

impl Text {
    /// The text of no bytes, which takes no memory.
    pub fn empty(alloc: Global) -> Text
        ensures { result ≡ [] }
    {
        Text {
            bytes: SmallVec::new(alloc),
        }
    }

    /// A copy of the bytes.
    pub fn new(alloc: Global, bytes: &[u8]) -> Result<Text, NoMemory>
        ensures { IfOk result (λ text. text ≡ bytes.now) }
    {
        Ok(Text {
            bytes: SmallVec::from_slice(alloc, bytes)?,
        })
    }

    /// The bytes of the text, lent for reading.
    pub fn bytes(&self) -> &[u8]
        ensures { result.now ≡ self.now }
    {
        self.bytes.as_slice()
    }
}
