//! Escapes: a backslash and what it makes of the bytes behind it.

ghost use Rattle.std.specs.Prelude.{◌≡◌, ◌+◌, ◌≤◌, ◌<◌, ◌∷◌, length, take, drop, MatchOption, MatchResult};
ghost use Rattle.py_tokens.specs.LineEnd.{Begins, IsLineByte, IsLineEnd};
ghost use Rattle.py_tokens.specs.Digits.{IsDigitOf};
ghost use Rattle.py_tokens.specs.declared.escape.Mark.{Mark};
ghost use Rattle.py_tokens.specs.declared.escape.Mark.TheVariants as marks;
ghost use Rattle.py_tokens.specs.Escape.{mark_of, IsCode, HasNoCode, IsEscape, IsEscapeFault};
ghost use Rattle.py_tokens.specs.Literal.{given_text};

use crate::digits::digit_of;

/// Why bytes that begin with a quote are no string of this language.
#[derive(Clone, Copy, Debug, PartialEq, Eq)]
pub enum StringFaultKind {
    /// A byte that may stand nowhere.
    BadByte,
    /// The string isn't closed, or an `\x` has no two digits.
    BadToken,
    /// One of the escapes `\u`, `\U` and `\N`.
    Escape,
    /// A character past 127.
    NonAscii,
}

/// What a piece of a literal stands for.
#[derive(Clone, Copy)]
pub(crate) enum Given {
    Empty,
    Byte(u8),
    Itself,
}

/// The first `len` bytes of a literal, and what they give.
#[derive(Clone, Copy)]
pub(crate) struct Piece {
    pub(crate) len: usize,
    pub(crate) given: Given,
}

/// What the byte behind a backslash makes of it.
#[derive(Clone, Copy)]
enum Mark {
    /// The two stand for one byte.
    StandsFor(u8),
    /// The line end is passed over.
    LineEnd,
    Octal,
    Hexadecimal,
    Unicode,
    /// The backslash stands for itself.
    Nothing,
}

/// The length of the line end in front, and 0 where there is none.
pub(crate) fn line_end_len(bytes: &[u8]) -> usize
    requires { Begins IsLineByte bytes.now }
    ensures within { result ≤ length bytes.now }
    ensures some { 1 ≤ result }
    ensures line_end { IsLineEnd (take result bytes.now) (drop result bytes.now) }
{
    match bytes {
        [b'\r', b'\n', ..] => 2,
        _ => 1,
    }
}

/// What the bytes behind a backslash stand for, by the first of them.
fn mark_of(behind: &[u8]) -> Mark
    ensures { result ≡ mark_of behind.now }
{
    let [byte, ..] = behind else {
        return Mark::Nothing;
    };
    match byte {
        b'\\' | b'\'' | b'"' => Mark::StandsFor(*byte),
        b'a' => Mark::StandsFor(7),
        b'b' => Mark::StandsFor(8),
        b'f' => Mark::StandsFor(12),
        b'n' => Mark::StandsFor(b'\n'),
        b'r' => Mark::StandsFor(b'\r'),
        b't' => Mark::StandsFor(b'\t'),
        b'v' => Mark::StandsFor(11),
        b'\n' | b'\r' => Mark::LineEnd,
        b'0'..=b'7' => Mark::Octal,
        b'x' => Mark::Hexadecimal,
        b'u' | b'U' | b'N' => Mark::Unicode,
        _ => Mark::Nothing,
    }
}

/// How many octal digits stand in front, of at most three, and their value.
fn octal(behind: &[u8]) -> (usize, u64)
    requires { Begins (IsDigitOf 8) behind.now }
    ensures within { result.0 ≤ length behind.now }
    ensures code { IsCode marks.Octal (take result.0 behind.now) (drop result.0 behind.now) result.1 }
{
    let value = |digit: u8| u64::from(digit - b'0');
    match behind {
        [a @ b'0'..=b'7', b @ b'0'..=b'7', c @ b'0'..=b'7', ..] => (
            3,
            8 * (8 * value(*a) + value(*b)) + value(*c),
        ),
        [a @ b'0'..=b'7', b @ b'0'..=b'7', ..] => (2, 8 * value(*a) + value(*b)),
        [a @ b'0'..=b'7', ..] => (1, value(*a)),
        _ => unreachable!(),
    }
}

/// The value of the two digits behind an `x`, where they stand there.
fn hexadecimal(behind: &[u8]) -> Option<u64>
    ensures { MatchOption result (HasNoCode marks.Hexadecimal behind.now)
        (λ value. (3 ≤ length behind.now) × IsCode marks.Hexadecimal (take 3 behind.now) (drop 3 behind.now) value) }
{
    match behind {
        [b'x', high, low, ..] => Some(16 * digit_of(*high, 16)? + digit_of(*low, 16)?),
        _ => None,
    }
}

/// The character of the number `value`, written in `len` bytes behind the backslash.
fn character(len: usize, value: u64) -> Result<Piece, StringFaultKind>
    requires { len ≤ 3 }
    ensures { MatchResult result
        (λ piece. (value < 128) × (piece ≡ record { len = 1 + len; given = Given.Byte value }))
        (λ kind. (128 ≤ value) × (kind ≡ StringFaultKind.NonAscii)) }
{
    if value < 128 {
        Ok(Piece {
            len: 1 + len,
            given: Given::Byte(value as u8),
        })
    } else {
        Err(StringFaultKind::NonAscii)
    }
}

/// The escape in front.
pub(crate) fn escape_at(bytes: &[u8]) -> Result<Piece, StringFaultKind>
    requires { Begins (λ byte. byte ≡ 92) bytes.now }
    ensures { MatchResult result
        (λ piece. (piece.len ≤ length bytes.now) × IsEscape (take piece.len bytes.now) (drop piece.len bytes.now)
        (given_text piece.given (take piece.len bytes.now)))
        (IsEscapeFault bytes.now) }
{
    let behind = &bytes[1..];
    match mark_of(behind) {
        Mark::StandsFor(byte) => Ok(Piece {
            len: 2,
            given: Given::Byte(byte),
        }),
        Mark::LineEnd => Ok(Piece {
            len: 1 + line_end_len(behind),
            given: Given::Empty,
        }),
        Mark::Octal => {
            let (len, value) = octal(behind);
            character(len, value)
        }
        Mark::Hexadecimal => match hexadecimal(behind) {
            Some(value) => character(3, value),
            None => Err(StringFaultKind::BadToken),
        },
        Mark::Unicode => Err(StringFaultKind::Escape),
        Mark::Nothing => Ok(Piece {
            len: 1,
            given: Given::Itself,
        }),
    }
}
