//! Logical lines: brackets, levels, and the tokens that they give.

ghost use Rattle.std.specs.Prelude.{◌≡◌, ℕ, ◌+◌, ◌^◌, ◌≤◌, ◌<◌, [], ◌++◌, length, drop, if◌then◌else◌, replicate, position};
ghost use Rattle.std.specs.Prelude.{bytes_eq, vec_len, IfSome, IfOk, OnOk, slice_get, Some, true, false};
ghost use Rattle.mpy_base.specs.declared.limits.TheConstants.{MAX_SOURCE_BYTES};
ghost use Rattle.py_tokens.specs.declared.lines.Change.TheVariants as changes;
ghost use Rattle.py_tokens.specs.declared.token.Tok.TheVariants as toks;
ghost use Rattle.py_tokens.specs.Lines.{count_behind, change, empty_token, level_of_first};
ghost use Rattle.py_tokens.specs.Tokens.{line_ends};

use crate::lexeme::Lexeme;
use crate::operator::Op;
use crate::token::{Tok, Token};
use mpy_base::limits::MAX_SOURCE_BYTES;
use mpy_base::{NoMemory, Refused, SourceCode, SourceFault, Text};
use std::alloc::Global;

/// What a line does to the open levels.
#[derive(Clone, Copy)]
enum Change {
    /// That number of levels stay, of which the last is its own.
    Keeps(usize),
    /// Its own is one more.
    Opens,
}

/// Whether a line end, or a rest that begins so, counts as one.
fn ends_line(rest: &[u8]) -> bool
    requires { 0 < length rest.now }
    ensures { line_ends rest.now ≡ (if result then 1 else 0) + line_ends (drop 1 rest.now) }
{
    match rest {
        [b'\r', b'\n', ..] => false,
        [b'\n' | b'\r', ..] => true,
        _ => false,
    }
}

/// How many line ends stand in a text.
pub(crate) fn count_line_ends(text: &[u8]) -> u32
    requires { length text.now ≤ MAX_SOURCE_BYTES }
    ensures value { result ≡ line_ends text.now }
    ensures few { result ≤ length text.now }
{
    let mut count = 0;
    for i in 0..text.len() {
        if ends_line(&text[i..]) {
            count += 1;
        }
    }
    count
}

/// Which of the levels is that one.
fn place_of(levels: &[Text], level: &[u8]) -> Option<usize>
    ensures place { result ≡ position (λ other. bytes_eq other level.now) levels.now }
    ensures within { IfSome result (λ place. place < length levels.now) }
{
    levels.iter().position(|other| other.bytes() == level)
}

/// What a line of that level does to the levels, the outermost first.
fn change_of(levels: &[Text], level: &[u8]) -> Option<Change>
    requires { 0 < length levels.now }
    ensures change { result ≡ change levels.now level.now }
    ensures kept { (count : ℕ) → result ≡ Some (changes.Keeps count)
        → (1 ≤ count) × (count ≤ length levels.now) }
{
    match place_of(levels, level) {
        Some(place) => Some(Change::Keeps(place + 1)),
        None if level.starts_with(levels[levels.len() - 1].bytes()) => Some(Change::Opens),
        None => None,
    }
}

/// The open brackets behind a token.
fn brackets_behind(count: usize, tok: &Tok) -> usize
    requires { count < 2 ^ 63 }
    ensures { result ≡ count_behind count tok.now }
{
    match tok {
        Tok::Op(Op::OpenParen | Op::OpenBracket | Op::OpenBrace) => count + 1,
        Tok::Op(Op::CloseParen | Op::CloseBracket | Op::CloseBrace) => count.saturating_sub(1),
        _ => count,
    }
}

/// A token that has no text.
fn empty_token(kind: Tok, at: u32, line: u32) -> Token
    ensures { result ≡ empty_token kind (record { at = at; line = line }) }
{
    Token {
        kind,
        at,
        end: at,
        line,
    }
}

/// Adds `count` Dedents.
fn push_dedents(tokens: &mut Vec<Token>, count: usize, at: u32, line: u32) -> Result<(), NoMemory>
    ensures ok { OnOk result (tokens.new.items
        ≡ tokens.old.items ++ replicate count (empty_token toks.Dedent (record { at = at; line = line }))) }
    ensures longer { vec_len tokens.old ≤ vec_len tokens.new }
{
    for _dedent in 0..count {
        tokens.push(empty_token(Tok::Dedent, at, line))?;
    }
    Ok(())
}

/// The level that the first lexeme of a line gives it.
fn level_of(alloc: Global, lexeme: &Lexeme, text: &[u8]) -> Result<Text, NoMemory>
    ensures { IfOk result (λ level. level ≡ level_of_first lexeme.now text.now) }
{
    match lexeme {
        Lexeme::Blank => Text::new(alloc, text),
        _ => Ok(Text::empty(alloc)),
    }
}

/// What has been read of a source: the tokens so far, and where the reading stands.
#[derive(Drop)]
pub(crate) struct Lines {
    alloc: Global,
    tokens: Vec<Token>,
    /// The open levels, the outermost first.
    levels: Vec<Text>,
    brackets: usize,
    /// The level of this line, and the line of its first byte.
    level: Text,
    level_line: u32,
    /// Nothing of this line has been read.
    is_new: bool,
    /// This line has a token.
    is_open: bool,
    pub(crate) at: u32,
    pub(crate) line: u32,
    ghost few: { brackets ≤ vec_len tokens },
    ghost outermost: { slice_get levels.items 0 ≡ Some [] },
    ghost fresh: { is_new ≡ true → level ≡ [] },
    ghost closed: { is_new ≡ true → is_open ≡ false },
    ghost short: { at ≤ MAX_SOURCE_BYTES },
    ghost lines: { line ≤ at + 1 },
}

impl Lines {
    ghost use Rattle.std.specs.Prelude.{ℕ, List, IfOk, Result, Ok, Err};
    ghost use Rattle.mpy_base.specs.declared.source.SourceFault.{SourceFault};
    ghost use Rattle.py_tokens.specs.declared.lexeme.Lexeme.{Lexeme};
    ghost use Rattle.py_tokens.specs.declared.lexeme.Lexeme.TheVariants as lexemes;
    ghost use Rattle.py_tokens.specs.declared.token.Tok.{Tok};
    ghost use Rattle.py_tokens.specs.Lexeme.{may_span};
    ghost use Rattle.py_tokens.specs.Lines.{Piece, Place, bad_indent, change_tokens, levels_behind, tokens_of_pieces};
    ghost use Rattle.py_tokens.specs.Going.{goes_on, piece_here, StaysAt, StaysInLine, GoesAlike, Adds, OpensLine};

    /// Where nothing has been read, with room for `room` tokens.
    pub(crate) fn new(alloc: Global, room: usize) -> Result<Lines, NoMemory>
        ensures place { IfOk result (λ here. (here.at ≡ 0) × (here.line ≡ 1)) }
        ensures whole { IfOk result (λ here. (pieces : List Piece) (stop : Result Place SourceFault)
            → goes_on here pieces stop ≡ tokens_of_pieces pieces stop) }
    {
        let tokens = Vec::with_capacity(alloc, room)?;
        let mut levels = Vec::new(alloc);
        levels.push(Text::empty(alloc))?;
        Ok(Lines {
            alloc,
            tokens,
            levels,
            brackets: 0,
            level: Text::empty(alloc),
            level_line: 1,
            is_new: true,
            is_open: false,
            at: 0,
            line: 1,
        })
    }

    /// Notes the level of this line, of which the lexeme is the first.
    fn begin_line(&mut self, lexeme: &Lexeme, text: &[u8]) -> Result<(), NoMemory>
        requires { self.old.is_new ≡ true }
        ensures begun { OnOk result (self.new.is_new ≡ false) }
        ensures stays { OnOk result (StaysAt self.old self.new) }
        ensures alike { OnOk result (GoesAlike (piece_here self.old lexeme.now text.now) self.old self.new) }
    {
        self.level = level_of(self.alloc, lexeme, text)?;
        self.level_line = self.line;
        self.is_new = false;
        Ok(())
    }

    /// Takes a line end, which ends the line outside brackets.
    fn end_line(&mut self, text: &[u8]) -> Result<(), Refused<SourceFault>>
        requires short { self.old.at + length text.now ≤ MAX_SOURCE_BYTES }
        requires begun { self.old.is_new ≡ false }
        ensures stays { OnOk result (StaysAt self.old self.new) }
        ensures adds { Adds (piece_here self.old lexemes.LineEnd text.now) self.old self.new result }
    {
        if self.brackets > 0 {
            return Ok(());
        }
        if self.is_open {
            self.tokens.push(Token {
                kind: Tok::Newline,
                at: self.at,
                end: self.at + text.len() as u32,
                line: self.line,
            })?;
        }
        self.level = Text::empty(self.alloc);
        self.is_new = true;
        self.is_open = false;
        Ok(())
    }

    /// The fault of the indentation of the line.
    fn bad_indent(&self) -> SourceFault
        ensures { result ≡ bad_indent self.now.level_line }
    {
        SourceFault {
            code: SourceCode::BadIndent,
            line: self.level_line,
            word: Text::empty(self.alloc),
        }
    }

    /// Changes the open levels, with the tokens of the change.
    fn change_levels(&mut self, change: Change) -> Result<(), NoMemory>
        requires { (count : ℕ) → change ≡ changes.Keeps count
            → (1 ≤ count) × (count ≤ vec_len self.old.levels) }
        ensures stays { OnOk result (StaysInLine self.old self.new) }
        ensures tokens { OnOk result (self.new.tokens.items ≡ self.old.tokens.items
            ++ change_tokens self.old.levels.items change (record { at = self.old.at; line = self.old.line })) }
        ensures levels { OnOk result (self.new.levels.items
            ≡ levels_behind self.old.levels.items self.old.level change) }
    {
        match change {
            Change::Keeps(count) => {
                let ended = self.levels.len() - count;
                push_dedents(&mut self.tokens, ended, self.at, self.line)?;
                self.levels.truncate(count);
                Ok(())
            }
            Change::Opens => {
                let level = Text::new(self.alloc, self.level.bytes())?;
                self.tokens
                    .push(empty_token(Tok::Indent, self.at, self.line))?;
                self.levels.push(level)?;
                Ok(())
            }
        }
    }

    /// Opens the line in front of its first token.
    fn open_line(&mut self) -> Result<(), Refused<SourceFault>>
        requires begun { self.old.is_new ≡ false }
        ensures open { OnOk result ((self.new.is_open ≡ true) × (self.new.is_new ≡ false)) }
        ensures stays { OnOk result (StaysAt self.old self.new) }
        ensures opens { (tok : Tok) (text : List ℕ) → OpensLine tok text self.old self.new result }
    {
        if self.is_open {
            return Ok(());
        }
        let Some(change) = change_of(&self.levels, self.level.bytes()) else {
            return Err(Refused::Fault(self.bad_indent()));
        };
        self.change_levels(change)?;
        self.is_open = true;
        Ok(())
    }

    /// Takes a token of a line that is open.
    fn push(&mut self, tok: Tok, text: &[u8]) -> Result<(), Refused<SourceFault>>
        requires short { self.old.at + length text.now ≤ MAX_SOURCE_BYTES }
        requires open { self.old.is_open ≡ true }
        ensures stays { OnOk result (StaysAt self.old self.new) }
        ensures adds { Adds (piece_here self.old (lexemes.Token tok) text.now) self.old self.new result }
    {
        let brackets = brackets_behind(self.brackets, &tok);
        self.tokens.push(Token {
            kind: tok,
            at: self.at,
            end: self.at + text.len() as u32,
            line: self.line,
        })?;
        self.brackets = brackets;
        Ok(())
    }

    /// Takes a token.
    fn add_token(&mut self, tok: Tok, text: &[u8]) -> Result<(), Refused<SourceFault>>
        requires short { self.old.at + length text.now ≤ MAX_SOURCE_BYTES }
        requires begun { self.old.is_new ≡ false }
        ensures stays { OnOk result (StaysAt self.old self.new) }
        ensures adds { Adds (piece_here self.old (lexemes.Token tok) text.now) self.old self.new result }
    {
        self.open_line()?;
        self.push(tok, text)
    }

    /// Takes a lexeme of a line that has begun.
    fn take(&mut self, lexeme: Lexeme, text: &[u8]) -> Result<(), Refused<SourceFault>>
        requires short { self.old.at + length text.now ≤ MAX_SOURCE_BYTES }
        requires begun { self.old.is_new ≡ false }
        ensures stays { OnOk result (StaysAt self.old self.new) }
        ensures adds { Adds (piece_here self.old lexeme text.now) self.old self.new result }
    {
        match lexeme {
            Lexeme::Blank | Lexeme::Comment | Lexeme::Join => Ok(()),
            Lexeme::LineEnd => self.end_line(text),
            Lexeme::Token(tok) => self.add_token(tok, text),
        }
    }

    /// Takes the lexeme of that text, which stands here. An `Err` leaves no reading that goes on.
    pub(crate) fn add(&mut self, lexeme: Lexeme, text: &[u8]) -> Result<(), Refused<SourceFault>>
        requires short { self.old.at + length text.now ≤ MAX_SOURCE_BYTES }
        requires plain { may_span lexeme ≡ false → line_ends text.now ≡ 0 }
        ensures at { OnOk result (self.new.at ≡ self.old.at + length text.now) }
        ensures line { OnOk result (self.new.line ≡ self.old.line + line_ends text.now) }
        ensures adds { Adds (piece_here self.old lexeme text.now) self.old self.new result }
    {
        if self.is_new {
            self.begin_line(&lexeme, text)?;
        }
        let line_ends = if lexeme.may_span() {
            count_line_ends(text)
        } else {
            0
        };
        self.take(lexeme, text)?;
        self.line += line_ends;
        self.at += text.len() as u32;
        Ok(())
    }

    /// The first fault, where this one stands here.
    pub(crate) fn fault(&self, fault: SourceFault) -> SourceFault
        ensures { goes_on self.now [] (Err fault) ≡ Err result }
    {
        if self.is_open {
            return fault;
        }
        match change_of(&self.levels, self.level.bytes()) {
            Some(_) => fault,
            None => self.bad_indent(),
        }
    }

    /// The tokens of the source that ends here.
    pub(crate) fn finish(self) -> Result<Vec<Token>, NoMemory>
        ensures { IfOk result (λ tokens.
            goes_on self [] (Ok (record { at = self.at; line = self.line })) ≡ Ok tokens.items) }
    {
        let Lines {
            mut tokens,
            levels,
            is_open,
            at,
            line,
            ..
        } = self;
        if is_open {
            tokens.push(empty_token(Tok::Newline, at, line))?;
        }
        push_dedents(&mut tokens, levels.len() - 1, at, line)?;
        tokens.push(empty_token(Tok::End, at, line))?;
        Ok(tokens)
    }
}
