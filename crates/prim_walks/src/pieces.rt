//! Pieces of texts.

ghost use Rattle.std.specs.Prelude.{◌≡◌, ◌<◌, ◌++◌, ◌∷◌, Bool, All, false};
ghost use Rattle.std.specs.Fmt.{digit_glyph, signed_decimal};
ghost use Rattle.py_primitives.specs.Texts.{quote_of as quote_in, coded, escaped, quoted, str_text};
ghost use Rattle.prim_walks.specs.Leaves.{separator};
ghost use Rattle.prim_walks.specs.Pens.{Wrote};

use crate::pen::Pen;
use itoa::Buffer;

/// Writes a piece.
#[tactic(auto, using(crate::proofs::PenSteps::wrote_piece))]
pub(crate) fn put<P: Pen>(pen: &mut P, piece: &[u8])
    requires ascii { All (λ b. b < 128) piece.now }
    ensures { Wrote P.Takes pen.old piece.now pen.new }
{
    pen.put(piece)
}

/// Writes a number.
pub(crate) fn put_number<P: Pen>(pen: &mut P, n: i32)
    ensures { Wrote P.Takes pen.old (signed_decimal n) pen.new }
{
    let mut buffer = Buffer::new();
    put(pen, buffer.format(n).as_bytes())
}

/// Writes what stands in front of an item.
#[tactic(auto, using(crate::proofs::PenSteps::wrote_nothing, crate::proofs::PenSteps::separator_is))]
pub(crate) fn put_separator<P: Pen>(pen: &mut P, at: u32)
    ensures { Wrote P.Takes pen.old (separator at) pen.new }
{
    if at != 0 {
        put(pen, b", ")
    }
}

/// The quotes that a str has in its repr.
fn quote_of(bytes: &[u8]) -> u8
    ensures quote { result ≡ quote_in bytes.now }
    ensures ascii { result < 128 }
{
    if bytes.contains(&b'\'') && !bytes.contains(&b'"') {
        b'"'
    } else {
        b'\''
    }
}

/// A digit of sixteen.
fn hex_digit(n: u8) -> u8
    requires { n < 16 }
    ensures digit { result ≡ digit_glyph false n }
    ensures ascii { result < 128 }
{
    if n < 10 { b'0' + n } else { b'a' - 10 + n }
}

/// Writes a byte that has no sign of its own.
fn put_coded<P: Pen>(pen: &mut P, byte: u8)
    ensures { Wrote P.Takes pen.old (coded byte) pen.new }
{
    if byte == b'\n' {
        put(pen, b"\\n")
    } else if byte == b'\r' {
        put(pen, b"\\r")
    } else if byte == b'\t' {
        put(pen, b"\\t")
    } else {
        put(
            pen,
            &[b'\\', b'x', hex_digit(byte / 16), hex_digit(byte % 16)],
        )
    }
}

/// Writes a byte between such quotes.
fn put_escaped<P: Pen>(pen: &mut P, quote: u8, byte: u8)
    requires ascii { byte < 128 }
    ensures { Wrote P.Takes pen.old (escaped quote byte) pen.new }
{
    if byte == quote || byte == b'\\' {
        put(pen, &[b'\\', byte])
    } else if byte < 32 || byte == 127 {
        put_coded(pen, byte)
    } else {
        put(pen, &[byte])
    }
}

/// Writes the repr of a str.
fn put_quoted<P: Pen>(pen: &mut P, bytes: &[u8])
    requires ascii { All (λ b. b < 128) bytes.now }
    ensures { Wrote P.Takes pen.old (quoted bytes.now) pen.new }
{
    let quote = quote_of(bytes);
    put(pen, &[quote]);
    for byte in bytes {
        put_escaped(pen, quote, *byte);
    }
    put(pen, &[quote])
}

/// Writes a str by itself, or its repr.
pub(crate) fn put_str<P: Pen>(pen: &mut P, bytes: &[u8], raw: bool)
    requires ascii { All (λ b. b < 128) bytes.now }
    ensures { Wrote P.Takes pen.old (str_text raw bytes.now) pen.new }
{
    if raw {
        put(pen, bytes)
    } else {
        put_quoted(pen, bytes)
    }
}

/// Writes three texts.
#[tactic(auto, using(crate::proofs::PenSteps::wrote_then))]
pub(crate) fn put_three<P: Pen>(pen: &mut P, front: &[u8], middle: &[u8], back: &[u8])
    requires front { All (λ b. b < 128) front.now }
    requires middle { All (λ b. b < 128) middle.now }
    requires back { All (λ b. b < 128) back.now }
    ensures { Wrote P.Takes pen.old (front.now ++ middle.now ++ back.now) pen.new }
{
    put(pen, front);
    put(pen, middle);
    put(pen, back)
}
