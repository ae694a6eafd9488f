//! Pieces of lines, put on a sink one after another up to the first put that fails.

ghost use Rattle.std.specs.Prelude.{◌≡◌, ◌++◌, codes, decimal};
ghost use Rattle.mpy_endings.specs.Line.{Puts, named_line, spaced, tag_text};

use itoa::Buffer;
use mpy_io::{Failed, Sink};

/// Puts a piece.
pub(crate) fn put<E: Sink>(say: &mut E, piece: &[u8]) -> Result<(), Failed>
    ensures { Puts (E.told say.old) (E.told say.new) (E.count say.old) (E.count say.new) piece.now result }
{
    say.put(piece)
}

/// Puts two pieces, and stops where a put fails.
pub(crate) fn put_two<E: Sink>(say: &mut E, first: &[u8], second: &[u8]) -> Result<(), Failed>
    ensures { Puts (E.told say.old) (E.told say.new) (E.count say.old) (E.count say.new)
        (first.now ++ second.now) result }
{
    put(say, first)?;
    put(say, second)
}

/// Puts three pieces, and stops where a put fails.
pub fn put_three<E: Sink>(
    say: &mut E,
    first: &[u8],
    second: &[u8],
    third: &[u8],
) -> Result<(), Failed>
    ensures { Puts (E.told say.old) (E.told say.new) (E.count say.old) (E.count say.new)
        (first.now ++ second.now ++ third.now) result }
{
    put_two(say, first, second)?;
    put(say, third)
}

/// What stands before a word that a fault names: nothing before an empty one.
pub(crate) fn gap(word: &[u8]) -> &'static [u8]
    ensures { result.now ++ word.now ≡ spaced word.now }
{
    if word.is_empty() { b"" } else { b" " }
}

/// Puts what a line on the file of this name begins with.
pub(crate) fn put_head<E: Sink>(say: &mut E, name: &str, what: &[u8]) -> Result<(), Failed>
    ensures { Puts (E.told say.old) (E.told say.new) (E.count say.old) (E.count say.new)
        (codes "mpy: " ++ name.now ++ what.now) result }
{
    put_three(say, b"mpy: ", name.as_bytes(), what)
}

/// Puts the number and the name of a fault.
pub(crate) fn put_numbered<E: Sink>(say: &mut E, number: u8, name: &str) -> Result<(), Failed>
    ensures { Puts (E.told say.old) (E.told say.new) (E.count say.old) (E.count say.new)
        (decimal number ++ codes " " ++ name.now) result }
{
    let mut digits = Buffer::new();
    let digits = digits.format(number).as_bytes();
    put_three(say, digits, b" ", name.as_bytes())
}

/// Puts a number that a fault tells.
pub(crate) fn put_index<E: Sink>(say: &mut E, index: Option<u32>) -> Result<(), Failed>
    ensures { Puts (E.told say.old) (E.told say.new) (E.count say.old) (E.count say.new) (tag_text index) result }
{
    match index {
        None => put(say, b""),
        Some(index) => {
            let mut digits = Buffer::new();
            put_two(say, b" ", digits.format(index).as_bytes())
        }
    }
}

/// Puts a word that a fault tells.
pub(crate) fn put_word<E: Sink>(say: &mut E, word: &[u8]) -> Result<(), Failed>
    ensures { Puts (E.told say.old) (E.told say.new) (E.count say.old) (E.count say.new) (spaced word.now) result }
{
    put_two(say, gap(word), word)
}

/// Puts a word that a fault tells, and ends the line.
pub(crate) fn put_last_word<E: Sink>(say: &mut E, word: &[u8]) -> Result<(), Failed>
    ensures { Puts (E.told say.old) (E.told say.new) (E.count say.old) (E.count say.new)
        (spaced word.now ++ codes "\n") result }
{
    put_three(say, gap(word), word, b"\n")
}

/// Puts what is said of a name, and the name, and ends the line.
pub(crate) fn put_named<E: Sink>(say: &mut E, what: &[u8], name: &[u8]) -> Result<(), Failed>
    ensures { Puts (E.told say.old) (E.told say.new) (E.count say.old) (E.count say.new) (named_line what.now name.now) result }
{
    put(say, what)?;
    put_last_word(say, name)
}

/// Puts a number that a fault tells, and ends the line.
pub(crate) fn put_last_index<E: Sink>(say: &mut E, index: Option<u32>) -> Result<(), Failed>
    ensures { Puts (E.told say.old) (E.told say.new) (E.count say.old) (E.count say.new)
        (tag_text index ++ codes "\n") result }
{
    match index {
        None => put(say, b"\n"),
        Some(index) => {
            let mut digits = Buffer::new();
            put_three(say, b" ", digits.format(index).as_bytes(), b"\n")
        }
    }
}
