//! Parts of texts.

ghost use Rattle.std.specs.Prelude.{◌≡◌, ◌≤◌, ◌<◌, ◌+◌, ◌-◌, ◌++◌, [], take, drop, length, min, All};

use crate::pen::Pen;

/// The bytes of a text from a place on, 4,096 at most.
#[derive(Clone, Copy)]
pub struct TextPart {
    pub bytes: [u8; 4096],
    pub count: usize,
}

/// Keeps a part of a text: the bytes behind those that it skips.
#[derive(Clone, Copy)]
pub(crate) struct Cutter {
    pub(crate) skip: u64,
    pub(crate) part: TextPart,
    ghost room: { length part.bytes ≡ 4096 },
    ghost within: { part.count ≤ 4096 },
    ghost ascii: { All (λ b. b < 128) (take part.count part.bytes) },
}

/// Copies a piece to its place, as far as there is room, and gives where it ends.
fn fill(bytes: &mut [u8], start: usize, piece: &[u8]) -> usize
    requires start { start ≤ length bytes.old }
    ensures room { length bytes.new ≡ length bytes.old }
    ensures end { result ≤ length bytes.new }
    ensures filled { take result bytes.new ≡ take (length bytes.old) (take start bytes.old ++ piece.now) }
{
    let count = piece.len().min(bytes.len() - start);
    let end = start + count;
    bytes[start..end].copy_from_slice(&piece[..count]);
    end
}

impl Cutter {
    /// Keeps a piece behind what was kept, as far as the part has room.
    fn keep(&mut self, piece: &[u8])
        requires ascii { All (λ b. b < 128) piece.now }
        ensures skip { self.new.skip ≡ self.old.skip }
        ensures kept { take self.new.part.count self.new.part.bytes ≡ take 4096 (take self.old.part.count self.old.part.bytes ++ piece.now) }
    {
        self.part.count = fill(&mut self.part.bytes, self.part.count, piece);
    }
}

impl Pen for Cutter {
    ghost use Rattle.std.specs.Prelude.{◌≡◌, ◌-◌, ◌++◌, length, take, drop};

    ghost Takes = { λ old piece new. (new.skip ≡ old.skip - length piece)
        × (take new.part.count new.part.bytes ≡ take 4096 (take old.part.count old.part.bytes ++ drop old.skip piece)) };

    fn put(&mut self, piece: &[u8]) {
        let length = piece.len() as u64;
        if length <= self.skip {
            self.skip -= length;
        } else {
            let rest = &piece[self.skip as usize..];
            self.skip = 0;
            self.keep(rest);
        }
    }
}
