//! Assertions, which have no code from level 1 of optimization on.

ghost use Rattle.std.specs.Prelude.{OnOk};
ghost use Rattle.emit_expr.specs.py_meaning.Tree.{Assert, AssertWith};
ghost use Rattle.emit_expr.specs.py_meaning.Plain.{plain_expr, on_option};
ghost use Rattle.emit_stmt.specs.declared.jumps.Loop.{Loop as Around};
ghost use Rattle.emit_stmt.specs.SimpleEmits.{EmitsS};

use crate::puts::{put_named, put_plain};
use bc_ops::{Instr, Op};
use emit_draft::{Draft, DraftItem, Scope};
use emit_expr::emit_expr;
use mpy_base::NoMemory;
use py_tree::Expr;
use std::alloc::Global;

/// An assertion without a message, which has code at level 0 alone.
fn emit_assert(
    alloc: Global,
    draft: &mut Draft,
    scope: &Scope,
    line: u32,
    test: &Expr,
) -> Result<(), NoMemory>
    ensures { OnOk result ((around : Around) → EmitsS draft.old draft.new scope.now around line (Assert (plain_expr test.now))) }
{
    if draft.level > 0 {
        return Ok(());
    }
    emit_expr(alloc, draft, scope, line, test)?;
    let end = draft.new_label()?;
    draft.put(line, DraftItem::Jump(Op::PopJumpIfTrue, end))?;
    put_named(alloc, draft, line, Op::LoadGlobal, b"AssertionError")?;
    put_plain(draft, line, Op::RaiseObj)?;
    draft.bind(end);
    Ok(())
}

/// `assert test, message`, which has no code from level 1 on.
fn emit_assert_with(
    alloc: Global,
    draft: &mut Draft,
    scope: &Scope,
    line: u32,
    test: &Expr,
    message: &Expr,
) -> Result<(), NoMemory>
    ensures { OnOk result ((around : Around) → EmitsS draft.old draft.new scope.now around line (AssertWith (plain_expr test.now) (plain_expr message.now))) }
{
    if draft.level > 0 {
        return Ok(());
    }
    emit_expr(alloc, draft, scope, line, test)?;
    let end = draft.new_label()?;
    draft.put(line, DraftItem::Jump(Op::PopJumpIfTrue, end))?;
    put_named(alloc, draft, line, Op::LoadGlobal, b"AssertionError")?;
    emit_expr(alloc, draft, scope, line, message)?;
    draft.put(line, DraftItem::Plain(Instr::Num(Op::CallFunction, 1)))?;
    put_plain(draft, line, Op::RaiseObj)?;
    draft.bind(end);
    Ok(())
}

/// An assertion, with a message or without.
pub(crate) fn emit_assertion(
    alloc: Global,
    draft: &mut Draft,
    scope: &Scope,
    line: u32,
    test: &Expr,
    message: &Option<Expr>,
) -> Result<(), NoMemory>
    ensures { OnOk result ((around : Around)
        → EmitsS draft.old draft.new scope.now around line
        (on_option (Assert (plain_expr test.now)) (AssertWith (plain_expr test.now)) message.now)) }
{
    match message {
        None => emit_assert(alloc, draft, scope, line, test),
        Some(message) => emit_assert_with(alloc, draft, scope, line, test, message),
    }
}
