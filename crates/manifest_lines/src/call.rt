//! Calls of a manifest: a name with literal arguments, read from the tokens of a line.

ghost use Rattle.std.specs.Prelude.{◌≡◌};
ghost use Rattle.manifest_lines.specs.Ahead.{Reads, Gives};
ghost use Rattle.manifest_lines.specs.Calls as spec;

use crate::ahead::{Ahead, NoCall, Sign};
use crate::literal::{Literal, read_literal};
use mpy_base::{Items, Refused, Text};
use py_tokens::Token;
use std::alloc::Global;

/// An argument, which may be named.
#[derive(Debug, Drop)]
pub struct Argument {
    pub name: Option<Text>,
    pub value: Literal,
}

/// A call of a name.
#[derive(Debug, Drop)]
pub struct Call {
    pub name: Text,
    pub arguments: Items<Argument>,
}

/// Has the argument this name?
fn is_named(argument: &Argument, name: &[u8]) -> bool
    ensures { result ≡ spec.is_named name.now argument.now }
{
    match &argument.name {
        None => false,
        Some(text) => text.bytes() == name,
    }
}

/// Whether one of the arguments has a name.
fn has_names(arguments: &[Argument]) -> bool
    ensures { result ≡ spec.has_names arguments.now }
{
    arguments.iter().any(|argument| argument.name.is_some())
}

/// Whether one of the arguments has this name.
fn has_name(arguments: &[Argument], name: &[u8]) -> bool
    ensures { result ≡ spec.has_name arguments.now name.now }
{
    arguments.iter().any(|argument| is_named(argument, name))
}

/// Whether an argument may stand behind these.
fn may_follow(before: &[Argument], argument: &Argument) -> bool
    ensures { result ≡ spec.may_follow before.now argument.now }
{
    match &argument.name {
        None => !has_names(before),
        Some(name) => !has_name(before, name.bytes()),
    }
}

/// Reads `[ NAME "=" ] literal`.
#[tactic(auto, unfolding(crate::specs::Calls::argument))]
fn read_argument(alloc: Global, tokens: &mut Ahead<'_>) -> Result<Argument, Refused<NoCall>>
    ensures { Reads (spec.argument tokens.old.tokens.now) result tokens.new }
{
    if tokens.sees_named() {
        let name = tokens.name(alloc)?;
        tokens.expect(Sign::Equals)?;
        let value = read_literal(alloc, tokens)?;
        Ok(Argument {
            name: Some(name),
            value,
        })
    } else {
        let value = read_literal(alloc, tokens)?;
        Ok(Argument { name: None, value })
    }
}

/// Takes the comma behind an argument, which may be missing in front of the closing bracket.
#[tactic(auto, unfolding(crate::specs::Calls::separator))]
fn separator(tokens: &mut Ahead<'_>) -> Result<(), Refused<NoCall>>
    ensures { Reads (spec.separator tokens.old.tokens.now) result tokens.new }
{
    if tokens.sees(Sign::Close) {
        return Ok(());
    }
    tokens.expect(Sign::Comma)
}

/// The next argument, behind these, and none where the closing bracket is taken.
#[tactic(auto, unfolding(crate::specs::Calls::next_argument))]
fn next_argument(
    alloc: Global,
    tokens: &mut Ahead<'_>,
    before: &[Argument],
) -> Result<Option<Argument>, Refused<NoCall>>
    ensures { Reads (spec.next_argument before.now tokens.old.tokens.now) result tokens.new }
{
    if tokens.eat(Sign::Close) {
        return Ok(None);
    }
    let argument = read_argument(alloc, tokens)?;
    if !may_follow(before, &argument) {
        return Err(Refused::Fault(NoCall));
    }
    separator(tokens)?;
    Ok(Some(argument))
}

/// The arguments up to the closing bracket.
fn read_arguments(alloc: Global, tokens: &mut Ahead<'_>) -> Result<Items<Argument>, Refused<NoCall>>
    ensures { Reads (spec.arguments tokens.old.tokens.now) result tokens.new }
{
    let mut found = Items::new(alloc);
    for _turn in 0..tokens.left() {
        let next = next_argument(alloc, tokens, found.as_slice())?;
        let Some(argument) = next else {
            return Ok(found);
        };
        found.push(argument)?;
    }
    Err(Refused::Fault(NoCall))
}

/// Refuses where a token is ahead.
fn expect_end(tokens: &Ahead<'_>) -> Result<(), Refused<NoCall>>
    ensures { Reads (spec.end tokens.now.tokens.now) result tokens.now }
{
    if tokens.left() == 0 {
        Ok(())
    } else {
        Err(Refused::Fault(NoCall))
    }
}

/// The call that the tokens of a logical line are, its `Newline` left out.
#[tactic(auto, unfolding(crate::specs::Calls::call))]
pub(crate) fn read_call(alloc: Global, tokens: &[Token]) -> Result<Call, Refused<NoCall>>
    ensures { Gives (spec.call_of tokens.now) result }
{
    let mut ahead = Ahead { tokens };
    let name = ahead.name(alloc)?;
    ahead.expect(Sign::Open)?;
    let arguments = read_arguments(alloc, &mut ahead)?;
    expect_end(&ahead)?;
    Ok(Call { name, arguments })
}
