//! Small statements, by their first token.

ghost use Rattle.std.specs.Prelude.{◌≡◌, false};
ghost use Rattle.std.specs.Option.{option_copied};
ghost use Rattle.py_expressions.specs.Input.{Reads, input_of, seen};
ghost use Rattle.py_expressions.specs.Targets as targets;
ghost use Rattle.py_statements.specs.Reading as spec;

use crate::imports::{imports, imports_from};
use crate::names::names;
use crate::simple::expression;
use mpy_base::{Items, Refused};
use py_expressions::{Cursor, Mark, Syntax, read_gone, read_test, read_tests, release};
use py_tokens::{Op, Tok, Word};
use py_tree::{Stmt, StmtKind, Target};
use std::alloc::Global;

/// Whether a small statement ends before this.
fn ends_small(kind: Option<&Tok>) -> bool
    ensures { result ≡ spec.ends_small (seen (option_copied kind.entry)) }
{
    matches!(kind, Some(Tok::Newline | Tok::Op(Op::Semicolon)))
}

/// The line of the next token.
fn line(tokens: &Cursor<'_>) -> u32
    ensures { result ≡ spec.line_at tokens.now.ahead.now }
{
    match tokens.ahead {
        [] => 0,
        [token, ..] => token.line,
    }
}

/// A word that is a whole statement.
fn alone(tokens: &mut Cursor<'_>, kind: StmtKind) -> Result<StmtKind, Refused<Syntax>>
    ensures { Reads (spec.alone kind (input_of tokens.old)) result tokens.new }
{
    tokens.take();
    Ok(kind)
}

/// The targets of a `del`.
fn gone(alloc: Global, tokens: &mut Cursor<'_>) -> Result<Items<Target>, Refused<Syntax>>
    ensures { Reads (spec.series targets.one_gone false (input_of tokens.old)) result tokens.new }
{
    let mut found = Items::new(alloc);
    for _turn in 0..tokens.left() {
        let target = read_gone(alloc, tokens)?;
        found.push(target)?;
        if !tokens.eat(Mark::Op(Op::Comma)) {
            return Ok(found);
        }
    }
    Err(tokens.refuse())
}

/// Reads `"del" gone { "," gone }`.
#[tactic(auto, unfolding(crate::specs::Reading::deletion))]
fn deletion(alloc: Global, tokens: &mut Cursor<'_>) -> Result<StmtKind, Refused<Syntax>>
    ensures { Reads (spec.deletion (input_of tokens.old)) result tokens.new }
{
    tokens.take();
    let targets = gone(alloc, tokens)?;
    Ok(StmtKind::Del(targets))
}

/// Reads `"return" [ tests ]`.
#[tactic(auto, unfolding(crate::specs::Reading::returned, crate::specs::Reading::optional))]
fn returned(alloc: Global, tokens: &mut Cursor<'_>) -> Result<StmtKind, Refused<Syntax>>
    ensures { Reads (spec.returned (input_of tokens.old)) result tokens.new }
{
    tokens.take();
    if ends_small(tokens.peek()) {
        return Ok(StmtKind::Return(None));
    }
    let value = read_tests(alloc, tokens)?;
    Ok(StmtKind::Return(Some(value)))
}

/// Reads `"raise" [ test ]`.
#[tactic(auto, unfolding(crate::specs::Reading::raised, crate::specs::Reading::optional))]
fn raised(alloc: Global, tokens: &mut Cursor<'_>) -> Result<StmtKind, Refused<Syntax>>
    ensures { Reads (spec.raised (input_of tokens.old)) result tokens.new }
{
    tokens.take();
    if ends_small(tokens.peek()) {
        return Ok(StmtKind::Raise(None));
    }
    let value = read_test(alloc, tokens)?;
    Ok(StmtKind::Raise(Some(value)))
}

/// Reads `"global" NAME { "," NAME }`.
#[tactic(auto, unfolding(crate::specs::Reading::globals))]
fn globals(alloc: Global, tokens: &mut Cursor<'_>) -> Result<StmtKind, Refused<Syntax>>
    ensures { Reads (spec.globals (input_of tokens.old)) result tokens.new }
{
    tokens.take();
    let found = names(alloc, tokens)?;
    Ok(StmtKind::Global(found))
}

/// Reads `"assert" test [ "," test ]`.
#[tactic(auto, unfolding(crate::specs::Reading::assertion))]
fn assertion(alloc: Global, tokens: &mut Cursor<'_>) -> Result<StmtKind, Refused<Syntax>>
    ensures { Reads (spec.assertion (input_of tokens.old)) result tokens.new }
{
    tokens.take();
    let test = read_test(alloc, tokens)?;
    if !tokens.eat(Mark::Op(Op::Comma)) {
        let message = None;
        return Ok(StmtKind::Assert { test, message });
    }
    match read_test(alloc, tokens) {
        Ok(message) => {
            let message = Some(message);
            Ok(StmtKind::Assert { test, message })
        }
        Err(refused) => {
            release(test);
            Err(refused)
        }
    }
}

/// Reads a small statement.
#[tactic(auto, unfolding(crate::specs::Reading::small))]
fn small(alloc: Global, tokens: &mut Cursor<'_>) -> Result<StmtKind, Refused<Syntax>>
    ensures { Reads (spec.small (input_of tokens.old)) result tokens.new }
{
    match tokens.peek() {
        Some(Tok::Word(Word::Del)) => deletion(alloc, tokens),
        Some(Tok::Word(Word::Pass)) => alone(tokens, StmtKind::Pass),
        Some(Tok::Word(Word::Break)) => alone(tokens, StmtKind::Break),
        Some(Tok::Word(Word::Continue)) => alone(tokens, StmtKind::Continue),
        Some(Tok::Word(Word::Return)) => returned(alloc, tokens),
        Some(Tok::Word(Word::Raise)) => raised(alloc, tokens),
        Some(Tok::Word(Word::Global)) => globals(alloc, tokens),
        Some(Tok::Word(Word::Assert)) => assertion(alloc, tokens),
        Some(Tok::Word(Word::Import)) => imports(alloc, tokens),
        Some(Tok::Word(Word::From)) => imports_from(alloc, tokens),
        _ => expression(alloc, tokens),
    }
}

/// A small statement, with the line of its first token.
#[tactic(auto, unfolding(crate::specs::Reading::statement))]
pub(crate) fn statement(alloc: Global, tokens: &mut Cursor<'_>) -> Result<Stmt, Refused<Syntax>>
    ensures { Reads (spec.statement (input_of tokens.old)) result tokens.new }
{
    let line = line(tokens);
    let kind = small(alloc, tokens)?;
    Ok(Stmt { line, kind })
}
