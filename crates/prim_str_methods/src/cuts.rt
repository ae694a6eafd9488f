//! Parts of strs.

ghost use Rattle.std.specs.Prelude.{◌≡◌, ◌+◌, ◌<◌, ◌≤◌, ◌^◌, length, slice_index};
ghost use Rattle.mpy_base.specs.World.{AText, IsA, Later, text_at, with_text};
ghost use Rattle.prim_builtins.specs.arena_objects.Iterables.{spelled};
ghost use Rattle.prim_builtins.specs.prim_faults.Sights.{under, KnowsStr};
ghost use Rattle.prim_builtins.specs.prim_operators.Sources.{IsOtherThan};
ghost use Rattle.prim_str_methods.specs.Parts.{IsCut, cut_bytes, written};

use arena_heap::{Arena, Constants, TextNo, Value, text_fill};
use arena_objects::text_bytes;

/// The bytes of a str from a place on.
#[derive(Clone, Copy)]
pub(crate) struct Cut {
    pub(crate) of: Value,
    pub(crate) start: u32,
    pub(crate) len: u32,
}

/// How many bytes a str has.
pub(crate) fn str_len<C: Constants>(arena: &Arena, consts: &C, s: Value) -> u32
    requires { KnowsStr C.Constants consts.now arena.now s }
    ensures { result ≡ length (spelled (C.text_of consts.now) arena.now s) }
{
    text_bytes(arena, consts, s).len() as u32
}

fn str_byte<C: Constants>(arena: &Arena, consts: &C, s: Value, at: u32) -> u8
    requires str { KnowsStr C.Constants consts.now arena.now s }
    requires within { at < length (spelled (C.text_of consts.now) arena.now s) }
    ensures byte { result ≡ slice_index (spelled (C.text_of consts.now) arena.now s) at }
    ensures ascii { result < 128 }
{
    text_bytes(arena, consts, s)[at as usize]
}

/// Writes a part of a str to a text, from a place on.
pub(crate) fn put_cut<C: Constants>(arena: &mut Arena, consts: &C, t: TextNo, from: u32, cut: Cut)
    requires text { IsA arena.old.objects AText t.cell }
    requires cut { under C.Constants consts.now IsCut arena.old cut }
    requires apart { IsOtherThan t.cell cut.of }
    requires room { from + cut.len ≤ length (text_at arena.old t.cell) }
    requires few { from + cut.len < 2 ^ 32 }
    ensures put { arena.new ≡ with_text arena.old t.cell (written (text_at arena.old t.cell) from (cut_bytes (C.text_of consts.now) arena.old cut)) }
    ensures later { Later arena.old.objects arena.new.objects }
{
    for k in 0..cut.len {
        let byte = str_byte(arena, consts, cut.of, cut.start + k);
        text_fill(arena, t, from + k, byte);
    }
}

/// A whole str.
pub(crate) fn whole<C: Constants>(arena: &Arena, consts: &C, s: Value) -> Cut
    requires { KnowsStr C.Constants consts.now arena.now s }
    ensures bytes { cut_bytes (C.text_of consts.now) arena.now result ≡ spelled (C.text_of consts.now) arena.now s }
    ensures cut { under C.Constants consts.now IsCut arena.now result }
    ensures of { result.of ≡ s }
{
    let len = str_len(arena, consts, s);
    Cut {
        of: s,
        start: 0,
        len,
    }
}
