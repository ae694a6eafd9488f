//! What a token does to the levels.

ghost use Rattle.std.specs.Prelude.{◌≡◌};
ghost use Rattle.py_nest.specs.Nest.{effect_of, effect_of_op, effect_of_word};

use py_tokens::{Op, Tok, Word};

/// What a token does to the levels.
#[derive(Clone, Copy)]
pub(crate) enum Effect {
    /// It pushes a level.
    Pushes,
    /// It takes the level on top away, and counts in the one below.
    Closes,
    /// It takes the level on top away.
    Pops,
    /// It counts in the level on top.
    Counts,
    /// It sets the count on top to 0.
    Clears,
    Keeps,
}

/// What an operator does to the levels.
fn effect_of_op(op: Op) -> Effect
    ensures { result ≡ effect_of_op op }
{
    match op {
        Op::OpenParen | Op::OpenBracket | Op::OpenBrace => Effect::Pushes,
        Op::CloseParen | Op::CloseBracket | Op::CloseBrace => Effect::Closes,
        Op::Comma | Op::Colon | Op::Semicolon | Op::Assign => Effect::Clears,
        Op::PlusAssign | Op::MinusAssign | Op::StarAssign | Op::DoubleSlashAssign => Effect::Clears,
        Op::PercentAssign | Op::DoubleStarAssign | Op::AmpersandAssign => Effect::Clears,
        Op::BarAssign | Op::CaretAssign | Op::ShiftLeftAssign | Op::ShiftRightAssign => {
            Effect::Clears
        }
        _ => Effect::Counts,
    }
}

/// What a word does to the levels.
fn effect_of_word(word: Word) -> Effect
    ensures { result ≡ effect_of_word word }
{
    match word {
        Word::And | Word::Or | Word::Not | Word::In | Word::Is => Effect::Counts,
        Word::If | Word::Else => Effect::Counts,
        _ => Effect::Keeps,
    }
}

/// What a token does to the levels.
pub(crate) fn effect_of(tok: &Tok) -> Effect
    ensures { result ≡ effect_of tok.now }
{
    match tok {
        Tok::Op(op) => effect_of_op(*op),
        Tok::Word(word) => effect_of_word(*word),
        Tok::Indent => Effect::Pushes,
        Tok::Dedent => Effect::Pops,
        Tok::Newline => Effect::Clears,
        _ => Effect::Keeps,
    }
}
