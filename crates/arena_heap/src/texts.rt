//! Calls on texts that were made.

ghost use Rattle.std.specs.Prelude.{◌≡◌, ◌<◌, ◌^◌, length, slice_set, All};
ghost use Rattle.qstr_pool.specs.mpy_base.World.{AText, IsA, Later, text_at, with_text};

use crate::arena::Arena;
use crate::heads::text_span;
use crate::keys::without_text;
use crate::value::TextNo;

/// The bytes of a text that was made, each below 0x80.
pub fn made_text(arena: &Arena, t: TextNo) -> &[u8]
    requires { IsA arena.now.objects AText t.cell }
    ensures bytes { result.now ≡ text_at arena.now t.cell }
    ensures ascii { All (λ b. b < 128) result.now }
    ensures few { length result.now < 2 ^ 32 }
{
    let span = text_span(&arena.cells, t.cell);
    let start = span.start as usize;
    &arena.bytes[start..start + span.len as usize]
}

/// Sets a byte of a text that is being made.
pub fn text_fill(arena: &mut Arena, t: TextNo, at: u32, byte: u8)
    requires text { IsA arena.old.objects AText t.cell }
    requires within { at < length (text_at arena.old t.cell) }
    requires ascii { byte < 128 }
    ensures filled { arena.new ≡ with_text arena.old t.cell (slice_set (text_at arena.old t.cell) at byte) }
    ensures later { Later arena.old.objects arena.new.objects }
{
    let span = text_span(&arena.cells, t.cell);
    arena.bytes[(span.start + at) as usize] = byte;
    let keys = without_text(arena.keys, t.cell);
    arena.keys = keys;
}
