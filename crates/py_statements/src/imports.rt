//! Imports: dotted names, names in brackets, and `as`.

ghost use Rattle.std.specs.Prelude.{◌≡◌};
ghost use Rattle.py_expressions.specs.Input.{Reads, input_of};
ghost use Rattle.py_statements.specs.Reading as spec;

use crate::names::{dotted, path};
use mpy_base::{Items, Refused};
use py_expressions::{Cursor, Mark, Syntax};
use py_tokens::{Op, Word};
use py_tree::{Alias, StmtKind};
use std::alloc::Global;

/// Reads `path [ "as" NAME ]`, in whose path dots may stand or not.
#[tactic(auto, unfolding(crate::specs::Reading::alias))]
fn alias(alloc: Global, tokens: &mut Cursor<'_>, with_dots: bool) -> Result<Alias, Refused<Syntax>>
    ensures { Reads (spec.alias with_dots (input_of tokens.old)) result tokens.new }
{
    let name = path(alloc, tokens, with_dots)?;
    if !tokens.eat(Mark::Word(Word::As)) {
        return Ok(Alias { name, bound: None });
    }
    let bound = Some(tokens.name(alloc)?);
    Ok(Alias { name, bound })
}

/// The bracket that was opened, if one was, is closed next.
fn is_closed(tokens: &Cursor<'_>, bracketed: bool) -> bool
    ensures { result ≡ spec.is_closed bracketed (input_of tokens.now) }
{
    bracketed && tokens.sees(Mark::Op(Op::CloseParen))
}

/// What an import names. In brackets a comma may stand behind the last.
fn aliases(
    alloc: Global,
    tokens: &mut Cursor<'_>,
    with_dots: bool,
    bracketed: bool,
) -> Result<Items<Alias>, Refused<Syntax>>
    ensures { Reads (spec.series (spec.alias with_dots) bracketed (input_of tokens.old)) result tokens.new }
{
    let mut found = Items::new(alloc);
    for _turn in 0..tokens.left() {
        found.push(alias(alloc, tokens, with_dots)?)?;
        if !tokens.eat(Mark::Op(Op::Comma)) {
            return Ok(found);
        }
        if is_closed(tokens, bracketed) {
            return Ok(found);
        }
    }
    Err(tokens.refuse())
}

/// The names that `from` imports.
#[tactic(auto, unfolding(crate::specs::Reading::imported))]
fn imported(alloc: Global, tokens: &mut Cursor<'_>) -> Result<Items<Alias>, Refused<Syntax>>
    ensures { Reads (spec.imported (input_of tokens.old)) result tokens.new }
{
    let bracketed = tokens.eat(Mark::Op(Op::OpenParen));
    let found = aliases(alloc, tokens, false, bracketed)?;
    if bracketed {
        tokens.closed(Mark::Op(Op::CloseParen), found)
    } else {
        Ok(found)
    }
}

/// Reads an `import` of modules.
#[tactic(auto, unfolding(crate::specs::Reading::imports))]
pub(crate) fn imports(alloc: Global, tokens: &mut Cursor<'_>) -> Result<StmtKind, Refused<Syntax>>
    ensures { Reads (spec.imports (input_of tokens.old)) result tokens.new }
{
    tokens.take();
    let names = aliases(alloc, tokens, true, false)?;
    Ok(StmtKind::Import(names))
}

/// Reads a `from` with the names that it imports.
#[tactic(auto, unfolding(crate::specs::Reading::imports_from))]
pub(crate) fn imports_from(
    alloc: Global,
    tokens: &mut Cursor<'_>,
) -> Result<StmtKind, Refused<Syntax>>
    ensures { Reads (spec.imports_from (input_of tokens.old)) result tokens.new }
{
    tokens.take();
    let module = dotted(alloc, tokens)?;
    tokens.expect(Mark::Word(Word::Import))?;
    let names = imported(alloc, tokens)?;
    Ok(StmtKind::From { module, names })
}
