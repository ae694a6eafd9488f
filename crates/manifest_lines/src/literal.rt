//! Literals: strings, numbers, `None`, `True`, `False` and tuples of strings, in any number of brackets.

ghost use Rattle.std.specs.Prelude.{◌≡◌, ◌∷◌, [], Some};
ghost use Rattle.manifest_lines.specs.Ahead.{Reads};
ghost use Rattle.manifest_lines.specs.Literals as spec;

use crate::ahead::{Ahead, NoCall, Sign};
use mpy_base::{Items, Refused, Text};
use py_tokens::{Tok, Word};
use std::alloc::Global;

/// The value of an argument.
#[derive(Debug, Drop)]
pub enum Literal {
    /// Adjacent strings are one.
    Text(Text),
    Number(i32),
    None,
    True,
    False,
    /// A tuple, which has strings alone.
    Texts(Items<Text>),
}

/// Takes this sign as often as it comes next, up to a count, and counts it.
fn count_signs(tokens: &mut Ahead<'_>, sign: Sign, most: usize) -> usize
    ensures { spec.signs sign most 0 tokens.old.tokens.now ≡ Some (result, tokens.new.tokens.now) }
{
    for turn in 0..most {
        if !tokens.eat(sign) {
            return turn;
        }
    }
    most
}

/// Takes closing brackets, `count` of them.
#[tactic(auto, unfolding(crate::specs::Literals::close))]
fn close(tokens: &mut Ahead<'_>, count: usize) -> Result<(), Refused<NoCall>>
    ensures { Reads (spec.close count tokens.old.tokens.now) result tokens.new }
{
    let closed = count_signs(tokens, Sign::Close, count);
    if closed == count {
        Ok(())
    } else {
        Err(Refused::Fault(NoCall))
    }
}

/// Reads the strings in front, one behind the other, as one. There may be none.
fn strings(alloc: Global, tokens: &mut Ahead<'_>) -> Result<Text, Refused<NoCall>>
    ensures { Reads (spec.strings tokens.old.tokens.now) result tokens.new }
{
    let mut bytes = Vec::new(alloc);
    for _turn in 0..tokens.left() {
        let Some(Tok::Str(text)) = tokens.peek() else {
            return Ok(Text::new(alloc, &bytes)?);
        };
        bytes.extend_from_slice(text.bytes())?;
        tokens.take();
    }
    Ok(Text::new(alloc, &bytes)?)
}

/// Reads one string or more.
#[tactic(auto, unfolding(crate::specs::Literals::text))]
fn read_text(alloc: Global, tokens: &mut Ahead<'_>) -> Result<Text, Refused<NoCall>>
    ensures { Reads (spec.text tokens.old.tokens.now) result tokens.new }
{
    match tokens.peek() {
        Some(Tok::Str(_)) => strings(alloc, tokens),
        _ => Err(Refused::Fault(NoCall)),
    }
}

/// A literal of one token, or of strings.
#[tactic(auto, unfolding(crate::specs::Literals::plain))]
fn plain(alloc: Global, tokens: &mut Ahead<'_>) -> Result<Literal, Refused<NoCall>>
    ensures { Reads (spec.plain tokens.old.tokens.now) result tokens.new }
{
    match tokens.peek() {
        Some(Tok::Str(_)) => Ok(Literal::Text(strings(alloc, tokens)?)),
        Some(Tok::Int(value)) => {
            tokens.take();
            Ok(Literal::Number(*value))
        }
        Some(Tok::Word(Word::None)) => {
            tokens.take();
            Ok(Literal::None)
        }
        Some(Tok::Word(Word::True)) => {
            tokens.take();
            Ok(Literal::True)
        }
        Some(Tok::Word(Word::False)) => {
            tokens.take();
            Ok(Literal::False)
        }
        _ => Err(Refused::Fault(NoCall)),
    }
}

/// A string in any number of brackets.
#[tactic(auto, unfolding(crate::specs::Literals::item))]
fn item(alloc: Global, tokens: &mut Ahead<'_>) -> Result<Text, Refused<NoCall>>
    ensures { Reads (spec.item tokens.old.tokens.now) result tokens.new }
{
    let most = tokens.left();
    let depth = count_signs(tokens, Sign::Open, most);
    let text = read_text(alloc, tokens)?;
    close(tokens, depth)?;
    Ok(text)
}

/// The next item of a tuple, behind one, and none where the tuple ends.
#[tactic(auto, unfolding(crate::specs::Literals::next_item))]
fn next_item(alloc: Global, tokens: &mut Ahead<'_>) -> Result<Option<Text>, Refused<NoCall>>
    ensures { Reads (spec.next_item tokens.old.tokens.now) result tokens.new }
{
    if tokens.eat(Sign::Close) {
        return Ok(None);
    }
    tokens.expect(Sign::Comma)?;
    if tokens.eat(Sign::Close) {
        return Ok(None);
    }
    let text = item(alloc, tokens)?;
    Ok(Some(text))
}

/// The items of a tuple behind its first one, up to its closing bracket, with that one.
fn items(alloc: Global, tokens: &mut Ahead<'_>, first: Text) -> Result<Items<Text>, Refused<NoCall>>
    ensures { Reads (spec.items first tokens.old.tokens.now) result tokens.new }
{
    let mut found = Items::new(alloc);
    found.push(first)?;
    for _turn in 0..tokens.left() {
        let next = next_item(alloc, tokens)?;
        let Some(text) = next else {
            return Ok(found);
        };
        found.push(text)?;
    }
    Err(Refused::Fault(NoCall))
}

/// A tuple behind its first item, with the brackets around it that are still to close.
#[tactic(auto, unfolding(crate::specs::Literals::tuple))]
fn tuple(
    alloc: Global,
    tokens: &mut Ahead<'_>,
    first: Literal,
    around: usize,
) -> Result<(Literal, usize), Refused<NoCall>>
    ensures { Reads (spec.tuple first around tokens.old.tokens.now) result tokens.new }
{
    let Literal::Text(text) = first else {
        return Err(Refused::Fault(NoCall));
    };
    let found = items(alloc, tokens, text)?;
    Ok((Literal::Texts(found), around))
}

/// What stands in `depth` brackets, with those that are still to close.
#[tactic(auto, unfolding(crate::specs::Literals::inside))]
fn inside(
    alloc: Global,
    tokens: &mut Ahead<'_>,
    depth: usize,
) -> Result<(Literal, usize), Refused<NoCall>>
    ensures { Reads (spec.inside depth tokens.old.tokens.now) result tokens.new }
{
    if depth > 0 && tokens.sees(Sign::Close) {
        return Ok((Literal::Texts(Items::new(alloc)), depth));
    }
    let value = plain(alloc, tokens)?;
    let closed = count_signs(tokens, Sign::Close, depth);
    if closed < depth {
        tuple(alloc, tokens, value, depth - closed - 1)
    } else {
        Ok((value, 0))
    }
}

/// A literal.
#[tactic(auto, unfolding(crate::specs::Literals::literal))]
pub(crate) fn read_literal(
    alloc: Global,
    tokens: &mut Ahead<'_>,
) -> Result<Literal, Refused<NoCall>>
    ensures { Reads (spec.literal tokens.old.tokens.now) result tokens.new }
{
    let most = tokens.left();
    let depth = count_signs(tokens, Sign::Open, most);
    let (value, left) = inside(alloc, tokens, depth)?;
    close(tokens, left)?;
    Ok(value)
}
