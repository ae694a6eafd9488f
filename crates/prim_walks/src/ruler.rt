//! How long a text is.

use crate::pen::Pen;

/// Counts the bytes of a text. The count stands still at 2^64 - 1.
#[derive(Clone, Copy)]
pub(crate) struct Ruler {
    pub(crate) bytes: u64,
}

impl Pen for Ruler {
    ghost use Rattle.std.specs.Prelude.{◌≡◌, ◌+◌, ◌-◌, ◌^◌, length, min};

    ghost Takes = { λ old piece new. new.bytes ≡ min (old.bytes + length piece) (2 ^ 64 - 1) };

    fn put(&mut self, piece: &[u8]) {
        self.bytes = self.bytes.saturating_add(piece.len() as u64);
    }
}
