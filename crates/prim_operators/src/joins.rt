//! Strs that are joined and repeated.

ghost use Rattle.std.specs.Prelude.{◌≡◌, length};
ghost use Rattle.prim_faults.specs.mpy_base.World.{AText, IsA, Later, text_at, with_text};
ghost use Rattle.prim_faults.specs.py_primitives.Outcome.{making_text};
ghost use Rattle.prim_faults.specs.Sights.{under, TellsAll, Does};
ghost use Rattle.prim_operators.specs.Sources.{source_bytes, AreStrs, IsApart};

use crate::sources::{Source, byte_at, bytes_len};
use prim_faults::{Arena, Constants, Stop, StrNo, TextNo, Value, text_fill};

/// Writes the bytes of strs to a text of their length.
fn fill_text<C: Constants>(arena: &mut Arena, consts: &C, t: TextNo, count: u32, source: Source)
    requires text { IsA arena.old.objects AText t.cell }
    requires strs { under C.Constants consts.now AreStrs arena.old.objects source }
    requires apart { IsApart t.cell source }
    requires bytes { length (source_bytes (C.text_of consts.now) arena.old source) ≡ count }
    requires room { length (text_at arena.old t.cell) ≡ count }
    ensures filled { arena.new ≡ with_text arena.old t.cell (source_bytes (C.text_of consts.now) arena.old source) }
    ensures later { Later arena.old.objects arena.new.objects }
{
    for at in 0..count {
        let byte = byte_at(arena, consts, source, at as usize);
        text_fill(arena, t, at, byte);
    }
}

/// A text of the bytes of strs. The empty one is a constant.
pub(crate) fn make_joined<C: Constants>(
    arena: &mut Arena,
    consts: &C,
    source: Source,
) -> Result<Value, Stop>
    requires strs { under C.Constants consts.now AreStrs arena.old.objects source }
    requires all_told { TellsAll C.Constants consts.now arena.old }
    ensures { Does C.Constants consts.now arena.old arena.new result (λ heap see. making_text heap (source_bytes see.texts arena.old source)) }
{
    let len = bytes_len(arena, consts, source);
    if len == 0 {
        consts.empty_law();
        return Ok(Value::Str(StrNo::Pool(1)));
    }
    let before = arena.used().bytes;
    match arena.make_text(len) {
        Ok(t) => {
            let count = arena.used().bytes - before;
            fill_text(arena, consts, t, count, source);
            Ok(Value::Text(t))
        }
        Err(room) => Err(Stop::Full(room)),
    }
}
