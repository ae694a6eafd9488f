//! What keeps a whole text.

ghost use Rattle.std.specs.Prelude.{◌<◌, All};

use crate::pen::Pen;

/// Puts the pieces of a text one behind the other.
#[derive(Drop)]
pub(crate) struct Writer {
    pub(crate) bytes: Vec<u8>,
    ghost ascii: { All (λ b. b < 128) bytes.items },
}

impl Pen for Writer {
    ghost use Rattle.prim_walks.specs.Pens.{Appends};

    ghost Takes = { λ old piece new. Appends old.bytes piece new.bytes };

    fn put(&mut self, piece: &[u8]) {
        let _ = self.bytes.extend_from_slice(piece);
    }
}
