//! String literals behind their prefix.

ghost use Rattle.std.specs.Prelude.{◌≡◌, ◌⊎◌, ℕ, ◌≤◌, List, ◌++◌, length, take, drop, Bool, Ok, IfOk, OnOk, Err};
ghost use Rattle.mpy_base.specs.declared.refused.Refused.TheVariants as refused;
ghost use Rattle.py_tokens.specs.declared.string.StringFault.{StringFault};
ghost use Rattle.py_tokens.specs.LineEnd.{Begins};
ghost use Rattle.py_tokens.specs.Literal.{IsQuote, Opens, IsRaw, IsLiteral, IsLiteralFault, given_text, IsFront, Reads};

use crate::escape::{Given, Piece, StringFaultKind, escape_at, line_end_len};
use mpy_base::{NoMemory, Refused, Text};
use std::alloc::Global;

/// A fault in a string.
#[derive(Clone, Copy, Debug, PartialEq, Eq)]
pub struct StringFault {
    pub kind: StringFaultKind,
    /// Its place, counted from the first quote.
    pub at: usize,
}

/// The quotes in front.
fn quotes_of(bytes: &[u8]) -> &[u8]
    requires { Begins IsQuote bytes.now }
    ensures { (rest : List ℕ) × (bytes.now ≡ result.now ++ rest) × Opens result.now rest }
{
    match bytes {
        [first, second, third, ..] if first == second && second == third => &bytes[..3],
        _ => &bytes[..1],
    }
}

/// The length of a backslash in a raw literal with the quote that it keeps.
fn raw_len(bytes: &[u8]) -> usize
    requires { Begins (λ byte. byte ≡ 92) bytes.now }
    ensures within { result ≤ length bytes.now }
    ensures raw { IsRaw (take result bytes.now) (drop result bytes.now) }
{
    match bytes {
        [_, b'"' | b'\'', ..] => 2,
        _ => 1,
    }
}

/// The piece in front inside a literal of these quotes, or `None` where they close it.
fn piece_at(bytes: &[u8], quotes: &[u8], raw: bool) -> Result<Option<Piece>, StringFaultKind>
    requires { (rest : List ℕ) × Opens quotes.now rest }
    ensures { IsFront raw quotes.now bytes.now result }
{
    let [byte, ..] = bytes else {
        return Err(StringFaultKind::BadToken);
    };
    let piece = match byte {
        b'\n' | b'\r' if quotes.len() == 1 => return Err(StringFaultKind::BadToken),
        b'\n' | b'\r' => Piece {
            len: line_end_len(bytes),
            given: Given::Byte(b'\n'),
        },
        b'\\' if raw => Piece {
            len: raw_len(bytes),
            given: Given::Itself,
        },
        b'\\' => escape_at(bytes)?,
        b'"' | b'\'' if bytes.starts_with(quotes) => return Ok(None),
        b'\t' | b' '..=b'~' => Piece {
            len: 1,
            given: Given::Byte(*byte),
        },
        _ => return Err(StringFaultKind::BadByte),
    };
    Ok(Some(piece))
}

/// Adds what the piece in front gives.
fn add_given(text: &mut Vec<u8>, bytes: &[u8], piece: Piece) -> Result<(), NoMemory>
    requires { piece.len ≤ length bytes.now }
    ensures { OnOk result (text.new.items ≡ text.old.items ++ given_text piece.given (take piece.len bytes.now)) }
{
    match piece.given {
        Given::Empty => {}
        Given::Byte(byte) => text.push(byte)?,
        Given::Itself => text.extend_from_slice(&bytes[..piece.len])?,
    }
    Ok(())
}

/// The text of a string from its quote on, and how many bytes the string takes; or its first fault.
pub(crate) fn read_string(
    alloc: Global,
    bytes: &[u8],
    raw: bool,
) -> Result<(Text, usize), Refused<StringFault>>
    requires { Begins IsQuote bytes.now }
    ensures { Reads raw bytes.now result }
{
    let quotes = quotes_of(bytes);
    let mut text = Vec::with_capacity(alloc, 32)?;
    let mut at = quotes.len();
    loop {
        let rest = &bytes[at..];
        match piece_at(rest, quotes, raw) {
            Ok(Some(piece)) => {
                add_given(&mut text, rest, piece)?;
                at += piece.len;
            }
            Ok(None) => return Ok((Text::new(alloc, &text)?, at + quotes.len())),
            Err(kind) => return Err(Refused::Fault(StringFault { kind, at })),
        }
    }
}

/// The text of the literal in front, with its length.
pub fn string_of(
    alloc: Global,
    bytes: &[u8],
    raw: bool,
) -> Result<(Text, usize), Refused<StringFault>>
    requires { Begins IsQuote bytes.now }

    // What is read stands there, and what stands there is read, unless memory isn't found.
    ensures found { IfOk result (λ found. (text rest : List ℕ) × IsLiteral raw text rest found.0
        × (bytes.now ≡ text ++ rest) × (found.1 ≡ length text)) }
    ensures only { (text rest value : List ℕ) → IsLiteral raw text rest value → bytes.now ≡ text ++ rest
        → (result ≡ Ok (value, length text)) ⊎ (result ≡ Err refused.NoMemory) }

    ensures fault { (fault : StringFault) → result ≡ Err (refused.Fault fault) → IsLiteralFault raw bytes.now fault }
    ensures fault_only { (fault : StringFault) → IsLiteralFault raw bytes.now fault
        → (result ≡ Err (refused.Fault fault)) ⊎ (result ≡ Err refused.NoMemory) }
{
    read_string(alloc, bytes, raw)
}

/// Bytes begin with one literal at most, of one text, or have one first fault, and never both.
pub fn string_law()
    ensures one_literal { (raw : Bool) (text rest value : List ℕ) (other behind its : List ℕ)
        → IsLiteral raw text rest value → IsLiteral raw other behind its
        → text ++ rest ≡ other ++ behind → (text ≡ other) × (value ≡ its) }
    ensures one_fault { (raw : Bool) (bytes : List ℕ) (first second : StringFault)
        → IsLiteralFault raw bytes first → IsLiteralFault raw bytes second → first ≡ second }
    ensures apart { (raw : Bool) (text rest value : List ℕ) (fault : StringFault)
        → IsLiteral raw text rest value → ¬ IsLiteralFault raw (text ++ rest) fault }
{}
