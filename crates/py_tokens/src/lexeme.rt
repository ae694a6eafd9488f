//! What stands in front of the bytes of a source: a blank, a comment, a join, a line end or a token.

ghost use Rattle.std.specs.Prelude.{◌≡◌, ◌≤◌, ◌<◌, ◌↔◌, ℕ, All, length, take, drop, IsTrue, []};
ghost use Rattle.mpy_base.specs.declared.source.SourceCode.TheVariants as code;
ghost use Rattle.py_tokens.specs.declared.lexeme.Class.TheVariants as classes;
ghost use Rattle.py_tokens.specs.declared.lexeme.Lexeme.TheVariants as lexemes;
ghost use Rattle.py_tokens.specs.declared.token.Tok.TheVariants as toks;
ghost use Rattle.py_tokens.specs.LineEnd.{Begins, IsLineByte};
ghost use Rattle.py_tokens.specs.Name.{IsNameStart, IsName};
ghost use Rattle.py_tokens.specs.Number.{BeginsRun};
ghost use Rattle.py_tokens.specs.Literal.{IsQuote};
ghost use Rattle.py_tokens.specs.Lexeme.{IsBlank, IsInLine, IsMark, IsRunOf, Announces, WordAnswers, PrefixAnswers};
ghost use Rattle.py_tokens.specs.Lexeme.{StringAnswers, Answers, IsFront, string_fault, Refuses, Finds, may_span};

use crate::escape::{StringFaultKind, line_end_len};
use crate::name::name_len;
use crate::number::{NumberFault, number_len, read_number};
use crate::operator::{Operator, operator_at};
use crate::prefix::{Prefix, prefix_of};
use crate::string::read_string;
use crate::token::Tok;
use crate::word::{Spelled, read_word};
use mpy_base::{Refused, SourceCode, Text};
use std::alloc::Global;

/// What a piece of a source is.
#[derive(Debug, Drop)]
pub(crate) enum Lexeme {
    /// Blanks and tabs.
    Blank,
    Comment,
    /// A backslash and the line end directly behind it.
    Join,
    LineEnd,
    Token(Tok),
}

impl Lexeme {
    /// Whether its text may hold a line end.
    pub(crate) fn may_span(&self) -> bool
        ensures { result ≡ may_span self.now }
    {
        matches!(
            self,
            Lexeme::Join | Lexeme::LineEnd | Lexeme::Token(Tok::Str(_))
        )
    }
}

/// Why no lexeme stands in front.
#[derive(Debug, Drop)]
pub(crate) struct LexemeFault {
    pub(crate) code: SourceCode,
    /// Its place, counted from the front.
    pub(crate) at: usize,
    pub(crate) word: Text,
}

/// What bytes begin.
#[derive(Clone, Copy)]
enum Class {
    Blank,
    Comment,
    Backslash,
    LineEnd,
    Name,
    Number,
    Quote,
    /// An operator, or nothing.
    Mark,
    BadByte,
}

/// What begins with these bytes, by the first of them, or by two.
fn class_of(bytes: &[u8]) -> Class
    requires { 0 < length bytes.now }
    ensures { Announces result bytes.now }
{
    match bytes {
        [b' ' | b'\t', ..] => Class::Blank,
        [b'#', ..] => Class::Comment,
        [b'\\', ..] => Class::Backslash,
        [b'\n' | b'\r', ..] => Class::LineEnd,
        [b'A'..=b'Z' | b'a'..=b'z' | b'_', ..] => Class::Name,
        [b'0'..=b'9', ..] | [b'.', b'0'..=b'9', ..] => Class::Number,
        [b'"' | b'\'', ..] => Class::Quote,
        [b'!'..=b'~', ..] => Class::Mark,
        _ => Class::BadByte,
    }
}

/// The length of the blanks in front.
fn blank_len(bytes: &[u8]) -> usize
    ensures within { result ≤ length bytes.now }
    ensures all { All IsBlank (take result bytes.now) }
    ensures ends { ¬ Begins IsBlank (drop result bytes.now) }
{
    for (i, byte) in bytes.iter().enumerate() {
        if *byte != b' ' && *byte != b'\t' {
            return i;
        }
    }
    bytes.len()
}

/// The length of what stands in front of the next line end.
fn line_len(bytes: &[u8]) -> usize
    ensures within { result ≤ length bytes.now }
    ensures all { All IsInLine (take result bytes.now) }
    ensures ends { ¬ Begins IsInLine (drop result bytes.now) }
{
    for (i, byte) in bytes.iter().enumerate() {
        if matches!(byte, b'\n' | b'\r') {
            return i;
        }
    }
    bytes.len()
}

/// A refusal at the front that names no word.
fn refusal(alloc: Global, code: SourceCode) -> Refused<LexemeFault>
    ensures { Refuses code 0 [] result }
{
    Refused::Fault(LexemeFault {
        code,
        at: 0,
        word: Text::empty(alloc),
    })
}

/// The refusal of what Python has and this language leaves out.
fn outside(alloc: Global, word: &[u8], at: usize) -> Refused<LexemeFault>
    ensures { Refuses code.NotInProfile at word.now result }
{
    match Text::new(alloc, word) {
        Ok(word) => Refused::Fault(LexemeFault {
            code: SourceCode::NotInProfile,
            at,
            word,
        }),
        Err(error) => error.into(),
    }
}

/// The refusal of a string, by its fault and the fault's place.
fn string_refusal(alloc: Global, kind: StringFaultKind, at: usize) -> Refused<LexemeFault>
    ensures { let fault = string_fault kind at in Refuses fault.code at fault.word result }
{
    let code = match kind {
        StringFaultKind::BadByte => SourceCode::BadByte,
        StringFaultKind::BadToken => SourceCode::BadToken,
        StringFaultKind::Escape => return outside(alloc, b"escape", at),
        StringFaultKind::NonAscii => return outside(alloc, b"non-ascii", at),
    };
    Refused::Fault(LexemeFault {
        code,
        at,
        word: Text::empty(alloc),
    })
}

/// The string literal behind a prefix of that length.
fn string_at(
    alloc: Global,
    bytes: &[u8],
    prefix: usize,
    raw: bool,
) -> Result<(Lexeme, usize), Refused<LexemeFault>>
    requires within { prefix ≤ length bytes.now }
    requires quote { Begins IsQuote (drop prefix bytes.now) }
    ensures { Finds (StringAnswers raw (take prefix bytes.now) (drop prefix bytes.now)) bytes.now result }
{
    let (_, literal) = bytes.split_at(prefix);
    match read_string(alloc, literal, raw) {
        Ok((text, len)) => Ok((Lexeme::Token(Tok::Str(text)), prefix + len)),
        Err(Refused::Fault(fault)) => Err(string_refusal(alloc, fault.kind, prefix + fault.at)),
        Err(Refused::NoMemory) => Err(Refused::NoMemory),
    }
}

/// What stands behind a prefix of that length.
fn prefixed_at(
    alloc: Global,
    bytes: &[u8],
    len: usize,
    prefix: Prefix,
) -> Result<(Lexeme, usize), Refused<LexemeFault>>
    requires within { len ≤ length bytes.now }
    requires quote { Begins IsQuote (drop len bytes.now) }
    ensures { Finds (PrefixAnswers prefix (take len bytes.now) (drop len bytes.now)) bytes.now result }
{
    match prefix {
        Prefix::Plain => string_at(alloc, bytes, len, false),
        Prefix::Raw => string_at(alloc, bytes, len, true),
        Prefix::Bytes => Err(outside(alloc, b"bytes", 0)),
        Prefix::Format => Err(outside(alloc, b"f-string", 0)),
    }
}

/// What a name is that is no prefix.
fn word_at(alloc: Global, name: &[u8], opt: u8) -> Result<(Lexeme, usize), Refused<LexemeFault>>
    requires level { opt ≤ 3 }
    requires some { 1 ≤ length name.now }
    ensures { Finds (WordAnswers opt name.now) name.now result }
{
    let tok = match read_word(name, opt) {
        Spelled::Word(word) => Tok::Word(word),
        Spelled::Refused => return Err(outside(alloc, name, 0)),
        Spelled::Name => Tok::Name(Text::new(alloc, name)?),
    };
    Ok((Lexeme::Token(tok), name.len()))
}

/// Is the first byte a quote?
fn begins_quote(bytes: &[u8]) -> bool
    ensures { IsTrue result ↔ Begins IsQuote bytes.now }
{
    matches!(bytes, [b'"' | b'\'', ..])
}

/// The name, word or prefixed string in front.
fn name_at(alloc: Global, bytes: &[u8], opt: u8) -> Result<(Lexeme, usize), Refused<LexemeFault>>
    requires level { opt ≤ 3 }
    requires begins { Begins IsNameStart bytes.now }
    ensures { Finds (Answers opt classes.Name bytes.now) bytes.now result }
{
    let len = name_len(bytes);
    let (name, behind) = bytes.split_at(len);
    match prefix_of(name) {
        Some(prefix) if begins_quote(behind) => prefixed_at(alloc, bytes, len, prefix),
        _ => word_at(alloc, name, opt),
    }
}

/// A number as a token.
fn int_lexeme(number: i32) -> Lexeme
    ensures { result ≡ lexemes.Token (toks.Int number) }
{
    Lexeme::Token(Tok::Int(number))
}

/// The number in front, or why it is none.
fn number_at(alloc: Global, bytes: &[u8]) -> Result<(Lexeme, usize), Refused<LexemeFault>>
    requires { BeginsRun bytes.now }
    ensures { (opt : ℕ) → Finds (Answers opt classes.Number bytes.now) bytes.now result }
{
    let len = number_len(bytes);
    let (run, _) = bytes.split_at(len);
    match read_number(run) {
        Ok(number) => Ok((int_lexeme(number), len)),
        Err(NumberFault::BadToken) => Err(refusal(alloc, SourceCode::BadToken)),
        Err(NumberFault::Float) => Err(outside(alloc, b"float", 0)),
        Err(NumberFault::Complex) => Err(outside(alloc, b"complex", 0)),
        Err(NumberFault::TooBig) => Err(refusal(alloc, SourceCode::TooBigNumber)),
    }
}

/// The join in front.
fn join_at(alloc: Global, bytes: &[u8]) -> Result<(Lexeme, usize), Refused<LexemeFault>>
    requires { Begins (λ byte. byte ≡ 92) bytes.now }
    ensures { (opt : ℕ) → Finds (Answers opt classes.Backslash bytes.now) bytes.now result }
{
    let (_, behind) = bytes.split_at(1);
    match behind {
        [b'\n' | b'\r', ..] => Ok((Lexeme::Join, 1 + line_end_len(behind))),
        _ => Err(refusal(alloc, SourceCode::BadToken)),
    }
}

/// The operator in front.
fn mark_at(alloc: Global, bytes: &[u8]) -> Result<(Lexeme, usize), Refused<LexemeFault>>
    ensures { (opt : ℕ) → Finds (Answers opt classes.Mark bytes.now) bytes.now result }
{
    match operator_at(bytes) {
        Some((Operator::Op(op), len)) => Ok((Lexeme::Token(Tok::Op(op)), len)),
        Some((Operator::Refused, len)) => {
            let (text, _) = bytes.split_at(len);
            Err(outside(alloc, text, 0))
        }
        None => Err(refusal(alloc, SourceCode::BadToken)),
    }
}

/// The lexeme in front and its length.
pub(crate) fn lexeme_at(
    alloc: Global,
    bytes: &[u8],
    opt: u8,
) -> Result<(Lexeme, usize), Refused<LexemeFault>>
    requires level { opt ≤ 3 }
    requires some { 0 < length bytes.now }
    ensures { Finds (IsFront opt bytes.now) bytes.now result }
{
    match class_of(bytes) {
        Class::Blank => Ok((Lexeme::Blank, blank_len(bytes))),
        Class::Comment => Ok((Lexeme::Comment, line_len(bytes))),
        Class::LineEnd => Ok((Lexeme::LineEnd, line_end_len(bytes))),
        Class::Backslash => join_at(alloc, bytes),
        Class::Name => name_at(alloc, bytes, opt),
        Class::Number => number_at(alloc, bytes),
        Class::Quote => string_at(alloc, bytes, 0, false),
        Class::Mark => mark_at(alloc, bytes),
        Class::BadByte => Err(refusal(alloc, SourceCode::BadByte)),
    }
}
