//! Texts of a few bytes.

ghost use Rattle.std.specs.Prelude.{◌≡◌, ◌≤◌, ◌+◌, ◌++◌, [], length};

/// How many bytes a short text has at most.
pub(crate) const SHORT_BYTES: usize = 32;

/// A text that is the front of an array, so that the array can be copied in place of it.
#[derive(Clone, Copy)]
pub(crate) struct Short {
    pub bytes: [u8; SHORT_BYTES],
    pub len: usize,
    ghost within: { len ≤ 32 },
}

impl Short {
    ghost use Rattle.mpy_dump.specs.Short.{short_text};

    /// A text of no byte.
    pub(crate) fn new() -> Short
        ensures text { short_text result ≡ [] }
        ensures len { result.len ≡ 0 }
    {
        Short {
            bytes: [0; SHORT_BYTES],
            len: 0,
        }
    }

    /// Puts the bytes behind the others. There is room for 32 in all.
    pub(crate) fn add(&mut self, piece: &[u8])
        requires { self.old.len + length piece.now ≤ 32 }
        ensures text { short_text self.new ≡ short_text self.old ++ piece.now }
        ensures len { self.new.len ≡ self.old.len + length piece.now }
    {
        let start = self.len;
        let end = start + piece.len();
        self.bytes[start..end].copy_from_slice(piece);
        self.len = end;
    }
}
