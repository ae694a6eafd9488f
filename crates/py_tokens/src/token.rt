//! Tokens.

use crate::operator::Op;
use crate::word::Word;
use mpy_base::Text;

/// What a token is.
#[derive(Debug, Drop)]
pub enum Tok {
    Name(Text),
    Int(i32),
    /// What a string literal stands for, without its quotes.
    Str(Text),
    Word(Word),
    Op(Op),
    /// The end of a logical line.
    Newline,
    /// The level of a line is deeper than that of the line before.
    Indent,
    /// A level ends. A line may end several.
    Dedent,
    /// The end of the source.
    End,
}

/// A token and its place.
#[derive(Debug, Drop)]
pub struct Token {
    pub kind: Tok,
    /// The first byte of its text. `Indent`, `Dedent` and `End` have the text of no bytes, and so has a `Newline` at the end of the source.
    pub at: u32,
    /// The byte behind its text.
    pub end: u32,
    /// The line of its first byte, counted from 1.
    pub line: u32,
}
