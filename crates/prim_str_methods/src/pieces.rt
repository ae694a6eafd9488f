//! The pieces of strs.

ghost use Rattle.std.specs.Prelude.{◌≡◌, ◌≢◌, ℕ, ◌<◌, ◌≤◌, ◌^◌, [], length, drop, slice_index, IfSome, IfNone};
ghost use Rattle.prim_builtins.specs.arena_objects.Iterables.{spelled};
ghost use Rattle.prim_builtins.specs.py_primitives.Methods.{is_space as is_space_byte, words_of};
ghost use Rattle.prim_builtins.specs.prim_faults.Sights.{under, KnowsStr};
ghost use Rattle.prim_str_methods.specs.Pieces.{between, IsSpan, IsSplit, IsPiece, pieces_from};

use crate::cuts::Cut;
use arena_heap::{Arena, Constants, Value};
use arena_objects::text_bytes;
use memchr::memmem;

/// How a str is split: into words, or by a separator.
#[derive(Clone, Copy)]
pub(crate) enum Split {
    Words,
    By(Value),
}

/// A piece of a str, and the place where the next one is looked for.
#[derive(Clone, Copy)]
pub(crate) struct Piece {
    pub(crate) cut: Cut,
    pub(crate) next: u64,
}

fn is_space(byte: u8) -> bool
    ensures { result ≡ is_space_byte byte }
{
    byte == 32 || (9 <= byte && byte <= 13)
}

/// The first place from here on whose byte isn't a space, or is one, or else the end.
fn skip(bytes: &[u8], from: usize, spaces: bool) -> usize
    requires { from ≤ length bytes.now }
    ensures within { result ≤ length bytes.now }
    ensures further { from ≤ result }
    ensures passed { (k : ℕ) → from ≤ k → k < result → is_space_byte (slice_index bytes.now k) ≡ spaces }
    ensures stops { result < length bytes.now → is_space_byte (slice_index bytes.now result) ≢ spaces }
{
    for at in from..bytes.len() {
        if is_space(bytes[at]) != spaces {
            return at;
        }
    }
    bytes.len()
}

/// Where a piece stands, and the place where the next one is looked for.
#[derive(Clone, Copy)]
struct Span {
    start: usize,
    end: usize,
    next: usize,
}

/// The first word from a place on.
fn next_word(bytes: &[u8], from: usize) -> Option<Span>
    requires { from ≤ length bytes.now }
    ensures some { IfSome result (IsSpan (λ at. words_of (drop at bytes.now)) bytes.now from) }
    ensures none { IfNone result (words_of (drop from bytes.now) ≡ []) }
{
    let start = skip(bytes, from, true);
    if start == bytes.len() {
        return None;
    }
    let end = skip(bytes, start, false);
    Some(Span {
        start,
        end,
        next: end,
    })
}

/// The piece up to the next separator, or up to the end.
fn next_between(bytes: &[u8], separator: &[u8], from: usize) -> Span
    requires within { from ≤ length bytes.now }
    requires separator { 0 < length separator.now }
    ensures { IsSpan (between separator.now bytes.now) bytes.now from result }
{
    match memmem::find(&bytes[from..], separator) {
        Some(at) => Span {
            start: from,
            end: from + at,
            next: from + at + separator.len(),
        },
        None => Span {
            start: from,
            end: bytes.len(),
            next: bytes.len() + 1,
        },
    }
}

/// Where the first piece from a place on stands.
fn next_span<C: Constants>(
    arena: &Arena,
    consts: &C,
    object: Value,
    split: Split,
    at: u64,
) -> Option<Span>
    requires object { KnowsStr C.Constants consts.now arena.now object }
    requires split { under C.Constants consts.now IsSplit arena.now split }
    ensures some { IfSome result (IsSpan (pieces_from (C.text_of consts.now) arena.now split object) (spelled (C.text_of consts.now) arena.now object) at) }
    ensures none { IfNone result (pieces_from (C.text_of consts.now) arena.now split object at ≡ []) }
    ensures few { length (spelled (C.text_of consts.now) arena.now object) < 2 ^ 32 }
{
    let bytes = text_bytes(arena, consts, object);
    if at > bytes.len() as u64 {
        return None;
    }
    match split {
        Split::Words => next_word(bytes, at as usize),
        Split::By(separator) => {
            let separator = text_bytes(arena, consts, separator);
            Some(next_between(bytes, separator, at as usize))
        }
    }
}

/// The first piece from a place on.
pub(crate) fn next_piece<C: Constants>(
    arena: &Arena,
    consts: &C,
    object: Value,
    split: Split,
    at: u64,
) -> Option<Piece>
    requires object { KnowsStr C.Constants consts.now arena.now object }
    requires split { under C.Constants consts.now IsSplit arena.now split }
    ensures some { IfSome result (under C.Constants consts.now IsPiece arena.now split object at) }
    ensures none { IfNone result (pieces_from (C.text_of consts.now) arena.now split object at ≡ []) }
{
    match next_span(arena, consts, object, split, at) {
        Some(span) => {
            let cut = Cut {
                of: object,
                start: span.start as u32,
                len: (span.end - span.start) as u32,
            };
            Some(Piece {
                cut,
                next: span.next as u64,
            })
        }
        None => None,
    }
}
