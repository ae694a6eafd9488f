//! Names, with dots and `as`.

ghost use Rattle.std.specs.Prelude.{◌≡◌, ◌∷◌, ◌++◌, false, OnOk};
ghost use Rattle.py_expressions.specs.Input.{Reads, input_of};
ghost use Rattle.py_expressions.specs.Input as input;
ghost use Rattle.py_statements.specs.Reading as spec;

use mpy_base::{Items, NoMemory, Refused, Text};
use py_expressions::{Cursor, Mark, Syntax};
use py_tokens::Op;
use std::alloc::Global;

/// Names with commas between.
pub(crate) fn names(alloc: Global, tokens: &mut Cursor<'_>) -> Result<Items<Text>, Refused<Syntax>>
    ensures { Reads (spec.series input.name false (input_of tokens.old)) result tokens.new }
{
    let mut found = Items::new(alloc);
    for _turn in 0..tokens.left() {
        found.push(tokens.name(alloc)?)?;
        if !tokens.eat(Mark::Op(Op::Comma)) {
            return Ok(found);
        }
    }
    Err(tokens.refuse())
}

/// Puts a dot and the name behind the text so far.
fn add_part(bytes: &mut Vec<u8>, part: Text) -> Result<(), NoMemory>
    ensures { OnOk result (bytes.new.items ≡ bytes.old.items ++ spec.dot ∷ part) }
{
    bytes.push(b'.')?;
    bytes.extend_from_slice(part.bytes())?;
    Ok(())
}

/// The text so far, and the names that dots put behind it.
fn all_dotted(alloc: Global, tokens: &mut Cursor<'_>, first: &Text) -> Result<Text, Refused<Syntax>>
    ensures { Reads (spec.all_dotted first.now (input_of tokens.old)) result tokens.new }
{
    let mut bytes = Vec::from_slice(alloc, first.bytes())?;
    for _turn in 0..tokens.left() {
        if !tokens.eat(Mark::Op(Op::Dot)) {
            return Ok(Text::new(alloc, &bytes)?);
        }
        let part = tokens.name(alloc)?;
        add_part(&mut bytes, part)?;
    }
    Ok(Text::new(alloc, &bytes)?)
}

/// Names with dots between, as one text.
#[tactic(auto, unfolding(crate::specs::Reading::dotted))]
pub(crate) fn dotted(alloc: Global, tokens: &mut Cursor<'_>) -> Result<Text, Refused<Syntax>>
    ensures { Reads (spec.dotted (input_of tokens.old)) result tokens.new }
{
    let first = tokens.name(alloc)?;
    all_dotted(alloc, tokens, &first)
}

/// Reads a name, in which dots may stand where `with_dots` says so.
pub(crate) fn path(
    alloc: Global,
    tokens: &mut Cursor<'_>,
    with_dots: bool,
) -> Result<Text, Refused<Syntax>>
    ensures { Reads (spec.path with_dots (input_of tokens.old)) result tokens.new }
{
    if with_dots {
        dotted(alloc, tokens)
    } else {
        tokens.name(alloc)
    }
}
