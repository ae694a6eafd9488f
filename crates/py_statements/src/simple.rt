//! Tests, and the assignments that begin as tests do.

ghost use Rattle.std.specs.Prelude.{◌≡◌, Some};
ghost use Rattle.std.specs.Option.{option_copied};
ghost use Rattle.py_expressions.specs.Input.{Reads, input_of, seen};
ghost use Rattle.py_expressions.specs.Targets as targets;
ghost use Rattle.py_statements.specs.Reading as spec;

use mpy_base::{Items, Refused};
use py_expressions::{Cursor, Mark, Syntax, read_one, read_tests, release, target_of};
use py_tokens::{Op, Tok};
use py_tree::{BinaryOp, Expr, StmtKind, Target};
use std::alloc::Global;

/// The operator of an augmented sign.
fn augments(kind: Option<&Tok>) -> Option<BinaryOp>
    ensures { result ≡ spec.augments (seen (option_copied kind.entry)) }
{
    let Some(Tok::Op(op)) = kind else {
        return None;
    };
    match op {
        Op::PlusAssign => Some(BinaryOp::Add),
        Op::MinusAssign => Some(BinaryOp::Sub),
        Op::StarAssign => Some(BinaryOp::Mul),
        Op::DoubleSlashAssign => Some(BinaryOp::FloorDiv),
        Op::PercentAssign => Some(BinaryOp::Mod),
        Op::DoubleStarAssign => Some(BinaryOp::Pow),
        Op::AmpersandAssign => Some(BinaryOp::And),
        Op::BarAssign => Some(BinaryOp::Or),
        Op::CaretAssign => Some(BinaryOp::Xor),
        Op::ShiftLeftAssign => Some(BinaryOp::Shl),
        Op::ShiftRightAssign => Some(BinaryOp::Shr),
        _ => None,
    }
}

/// Tests without a target are an expression.
fn concluded(targets: Items<Target>, value: Expr) -> StmtKind
    ensures { result ≡ spec.concluded targets value }
{
    if targets.is_empty() {
        StmtKind::Expr(value)
    } else {
        StmtKind::Assign { targets, value }
    }
}

/// The target that was read as tests.
fn assigned_to(
    alloc: Global,
    tokens: &Cursor<'_>,
    depth: usize,
    value: Expr,
) -> Result<Target, Refused<Syntax>>
    ensures { Reads (targets.given (targets.target_of depth value) (input_of tokens.now)) result tokens.now }
{
    target_of(alloc, depth, value)?.ok_or(tokens.refuse())
}

/// The tests that were read, and what each `=` behind them makes a target.
fn all_assigned(
    alloc: Global,
    tokens: &mut Cursor<'_>,
    depth: usize,
    first: Expr,
) -> Result<StmtKind, Refused<Syntax>>
    ensures { Reads (spec.all_assigned depth first (input_of tokens.old)) result tokens.new }
{
    let mut targets = Items::new(alloc);
    let mut value = first;
    for _turn in 0..tokens.left() {
        if !tokens.eat(Mark::Op(Op::Assign)) {
            return Ok(concluded(targets, value));
        }
        targets.push(assigned_to(alloc, tokens, depth, value)?)?;
        value = read_tests(alloc, tokens)?;
    }
    Ok(concluded(targets, value))
}

/// Reads `AUG tests` behind the target.
fn augmented_by(
    alloc: Global,
    tokens: &mut Cursor<'_>,
    target: Target,
    op: BinaryOp,
) -> Result<StmtKind, Refused<Syntax>>
    ensures { Reads (spec.augmented_by target (Some op) (input_of tokens.old)) result tokens.new }
{
    tokens.take();
    match read_tests(alloc, tokens) {
        Ok(value) => Ok(StmtKind::Aug { target, op, value }),
        Err(refused) => {
            release(target);
            Err(refused)
        }
    }
}

/// Reads `one AUG tests`.
#[tactic(auto, unfolding(crate::specs::Reading::augmented))]
fn augmented(alloc: Global, tokens: &mut Cursor<'_>) -> Result<StmtKind, Refused<Syntax>>
    ensures { Reads (spec.augmented (input_of tokens.old)) result tokens.new }
{
    let target = read_one(alloc, tokens)?;
    match augments(tokens.peek()) {
        Some(op) => augmented_by(alloc, tokens, target, op),
        None => {
            release(target);
            Err(tokens.refuse())
        }
    }
}

/// A statement that begins with tests.
#[tactic(auto, unfolding(crate::specs::Reading::expression))]
pub(crate) fn expression(
    alloc: Global,
    tokens: &mut Cursor<'_>,
) -> Result<StmtKind, Refused<Syntax>>
    ensures { Reads (spec.expression (input_of tokens.old)) result tokens.new }
{
    let start = tokens.ahead;
    let depth = tokens.left() + 1;
    let first = read_tests(alloc, tokens)?;
    if augments(tokens.peek()).is_some() {
        release(first);
        tokens.ahead = start;
        return augmented(alloc, tokens);
    }
    all_assigned(alloc, tokens, depth, first)
}
