//! The links of a dict's pairs, by which a look-up follows a bucket.

ghost use Rattle.std.specs.Prelude.{◌≡◌, ℕ, List, ◌+◌, ◌*◌, ◌%◌, ◌^◌, ◌≤◌, ◌<◌, vec_len};
ghost use Rattle.std.specs.Vec.{vec_capacity};
ghost use Rattle.arena_heap.specs.Links.{spread, code_after, text_code, code_of, bucket_of};
ghost use Rattle.arena_heap.specs.Cells.{In, heads, part, blank, byte_first, byte_size, texts_in, HaveBytes, AreLinked, Relinked};

use crate::cells::{Cell, Region, Span};
use crate::value::{StrNo, Value};

/// The number, spread so that numbers that follow one another fall into different buckets.
#[tactic(auto, unfolding(crate::specs::Links::spread))]
fn spread(n: u32) -> u64
    ensures { result ≡ spread n }
{
    n as u64 * 2654435769 / 65536
}

/// The code of a text with a byte more.
#[tactic(auto, unfolding(crate::specs::Links::code_after))]
fn code_after(code: u64, byte: u8) -> u64
    requires { code < 2 ^ 32 }
    ensures code { result ≡ code_after code byte }
    ensures small { result < 2 ^ 32 }
{
    (code * 31 + byte as u64) % 4294967296
}

/// The number that puts a text into a bucket.
fn text_code(bytes: &[u8]) -> u64
    ensures { result ≡ text_code bytes.now }
{
    let mut code = 0u64;
    for byte in bytes {
        code = code_after(code, *byte);
    }
    code
}

/// Where the bytes of the text lie whose first cell this is. Other cells have none.
fn span_at(cells: &Vec<Cell>, at: u32) -> Span
    ensures start { result.start ≡ byte_first at (heads cells.now.items at) }
    ensures len { result.len ≡ byte_size (heads cells.now.items at) }
{
    let head = if (at as usize) < cells.len() {
        cells[at as usize]
    } else {
        Cell::None
    };
    match head {
        Cell::TextHead(span) => span,
        _ => Span { start: 0, len: 0 },
    }
}

/// The code of the text that was made at a cell, by which its bucket is found.
fn made_code(cells: &Vec<Cell>, bytes: &Vec<u8>, at: u32) -> u64
    requires { HaveBytes cells.now.items bytes.now.items }
    ensures { result ≡ text_code (texts_in cells.now.items bytes.now.items at) }
{
    let span = span_at(cells, at);
    let start = span.start as usize;
    text_code(&bytes[start..start + span.len as usize])
}

/// The number that puts a key into a bucket. It takes time linear in a text that was made, and constant time for other keys.
fn code_of(cells: &Vec<Cell>, bytes: &Vec<u8>, key: Value) -> u64
    requires { HaveBytes cells.now.items bytes.now.items }
    ensures { result ≡ code_of (texts_in cells.now.items bytes.now.items) key }
{
    match key {
        Value::Bool(true) => spread(1),
        Value::Bool(false) => spread(0),
        Value::Int(n) => spread(n.unsigned_abs()),
        Value::Str(StrNo::Pool(n)) => spread(n),
        Value::Text(t) => made_code(cells, bytes, t.cell),
        _ => 0,
    }
}

/// The bucket of a key in a dict of this room.
pub(crate) fn bucket_of(cells: &Vec<Cell>, bytes: &Vec<u8>, room: u32, key: Value) -> u32
    requires room { 0 < room }
    requires bytes { HaveBytes cells.now.items bytes.now.items }
    ensures bucket { result ≡ bucket_of (texts_in cells.now.items bytes.now.items) room key }
    ensures within { result < room }
{
    (code_of(cells, bytes, key) % room as u64) as u32
}

/// The bucket of a text in a dict of this room.
pub(crate) fn text_bucket(room: u32, bytes: &[u8]) -> u32
    requires { 0 < room }
    ensures bucket { result ≡ text_code bytes.now % room }
    ensures within { result < room }
{
    (text_code(bytes) % room as u64) as u32
}

/// Puts the pair at a place in front of the others of its bucket.
pub(crate) fn link(cells: &mut Vec<Cell>, bytes: &Vec<u8>, region: Region, at: u32)
    requires inside { region.start + 3 * region.room ≤ vec_len cells.old }
    requires within { at < region.room }
    requires plain { (c : ℕ) → In region.start (3 * region.room) c → heads cells.old.items c ≡ blank }
    requires bytes { HaveBytes cells.old.items bytes.now.items }
    ensures linked { AreLinked (texts_in cells.old.items bytes.now.items) (part cells.old.items region.start (3 * region.room)) region.room at
        → AreLinked (texts_in cells.old.items bytes.now.items) (part cells.new.items region.start (3 * region.room)) region.room (at + 1) }
    ensures relinked { Relinked region.start region.room cells.old.items cells.new.items }
    ensures capacity { vec_capacity cells.old ≤ vec_capacity cells.new }
{
    let own = region.start as usize + 3 * at as usize;
    let bucket = bucket_of(cells, bytes, region.room, cells[own].value());
    let front = region.start as usize + 3 * bucket as usize + 2;
    let first = cells[front].first();
    cells[own + 2] = Cell::Links {
        first: cells[own + 2].first(),
        next: first,
    };
    cells[front] = Cell::Links {
        first: at + 1,
        next: cells[front].next(),
    };
}

/// Empties all buckets of a dict, and takes the links of its pairs out.
fn unlink(cells: &mut Vec<Cell>, region: Region)
    requires inside { region.start + 3 * region.room ≤ vec_len cells.old }
    requires plain { (c : ℕ) → In region.start (3 * region.room) c → heads cells.old.items c ≡ blank }
    ensures linked { (texts : ℕ → List ℕ) → AreLinked texts (part cells.new.items region.start (3 * region.room)) region.room 0 }
    ensures relinked { Relinked region.start region.room cells.old.items cells.new.items }
    ensures capacity { vec_capacity cells.old ≤ vec_capacity cells.new }
{
    for place in 0..region.room {
        cells[region.start as usize + 3 * place as usize + 2] = Cell::Links { first: 0, next: 0 };
    }
}

/// Makes the links of a dict's pairs anew.
pub(crate) fn link_all(cells: &mut Vec<Cell>, bytes: &Vec<u8>, region: Region)
    requires inside { region.start + 3 * region.room ≤ vec_len cells.old }
    requires within { region.len ≤ region.room }
    requires plain { (c : ℕ) → In region.start (3 * region.room) c → heads cells.old.items c ≡ blank }
    requires bytes { HaveBytes cells.old.items bytes.now.items }
    ensures linked { AreLinked (texts_in cells.old.items bytes.now.items) (part cells.new.items region.start (3 * region.room)) region.room region.len }
    ensures relinked { Relinked region.start region.room cells.old.items cells.new.items }
    ensures capacity { vec_capacity cells.old ≤ vec_capacity cells.new }
{
    unlink(cells, region);
    for at in 0..region.len {
        link(cells, bytes, region, at);
    }
}
