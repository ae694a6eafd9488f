//! Blocks and their statements.

ghost use Rattle.std.specs.Prelude.{◌≡◌, ℕ, ◌+◌, ◌^◌, ◌<◌, Some, None, IfOk, slice_get};
ghost use Rattle.py_tree.specs.declared.stmt.Branch.{out-Branch};
ghost use Rattle.py_tree.specs.declared.stmt.Stmt.{out-Stmt};
ghost use Rattle.emit_expr.specs.py_meaning.Plain.{plain_expr};
ghost use Rattle.emit_stmt.specs.Plain.{plain_kind};
ghost use Rattle.emit_stmt.specs.Parts.{plain_block, plain_handlers, if_part, while_part, for_part, try_part, finally_part};
ghost use Rattle.emit_stmt.specs.Emits.{EmitsB, EmitsP, EmitsCase, EmitsH, EmitsClause, EmitsMatched, EmitsLast};

use crate::defs::emit_def;
use crate::jumps::Loop;
use crate::puts::put_store;
use crate::simple::emit_simple;
use crate::steps::{deepen, is_over, put_behind, put_exit, put_gone, put_match};
use crate::targets::emit_target;
use bc_ops::{Instr, Op};
use emit_draft::{Draft, DraftItem, Scope};
use emit_expr::emit_expr;
use mpy_base::{NoMemory, Text};
use py_tree::{Branch, Expr, Handler, Stmt, StmtKind, Target};
use std::alloc::Global;

/// Puts the code of the block at the end of the draft, in the loop around. `child` is the index of its first function
/// among those of the text. Gives the index behind its last one.
#[cycle(blocks)]
pub fn emit_block(
    alloc: Global,
    draft: &mut Draft,
    scope: &Scope,
    around: &Loop,
    child: u32,
    block: &[Stmt],
) -> Result<u32, NoMemory>
    requires { child + (plain_block block.now).defs < 2 ^ 32 }
    ensures { IfOk result (λ after. EmitsB draft.old draft.new scope.now around.now child after (plain_block block.now)) }
{
    let mut at = child;
    for stmt in block {
        at = emit_stmt(alloc, draft, scope, around, at, stmt)?;
    }
    Ok(at)
}

/// The code of one statement, in the loop around.
#[cycle(blocks)]
fn emit_stmt(
    alloc: Global,
    draft: &mut Draft,
    scope: &Scope,
    around: &Loop,
    child: u32,
    stmt: &Stmt,
) -> Result<u32, NoMemory>
    requires { child + (plain_kind (out-Stmt stmt.now).kind).defs < 2 ^ 32 }
    ensures { IfOk result (λ after. EmitsP draft.old draft.new scope.now around.now (out-Stmt stmt.now).line child after
        (plain_kind (out-Stmt stmt.now).kind)) }
{
    let line = stmt.line;
    match &stmt.kind {
        StmtKind::If { branches, rest } => emit_if(
            alloc,
            draft,
            scope,
            around,
            child,
            branches.as_slice(),
            rest.as_slice(),
        ),
        StmtKind::While { test, body, rest } => emit_while(
            alloc,
            draft,
            scope,
            around,
            line,
            child,
            test,
            body.as_slice(),
            rest.as_slice(),
        ),
        StmtKind::For {
            target,
            over,
            body,
            rest,
        } => emit_for(
            alloc,
            draft,
            scope,
            around,
            line,
            child,
            target,
            over,
            body.as_slice(),
            rest.as_slice(),
        ),
        StmtKind::Try {
            body,
            handlers,
            rest,
            last,
        } => match last {
            None => emit_try(
                alloc,
                draft,
                scope,
                around,
                line,
                child,
                body.as_slice(),
                handlers.as_slice(),
                rest.as_slice(),
            ),
            Some(last) => emit_finally(
                alloc,
                draft,
                scope,
                around,
                line,
                child,
                body.as_slice(),
                handlers.as_slice(),
                rest.as_slice(),
                last.as_slice(),
            ),
        },
        StmtKind::Def { name, params, .. } => {
            emit_def(
                alloc,
                draft,
                scope,
                line,
                child,
                name.bytes(),
                params.as_slice(),
            )?;
            Ok(child + 1)
        }
        _ => {
            emit_simple(alloc, draft, scope, around, line, &stmt.kind)?;
            Ok(child)
        }
    }
}

/// The branches in a row, and what stands behind the last.
#[cycle(blocks)]
fn emit_if(
    alloc: Global,
    draft: &mut Draft,
    scope: &Scope,
    around: &Loop,
    child: u32,
    branches: &[Branch],
    rest: &[Stmt],
) -> Result<u32, NoMemory>
    requires { child + (if_part branches.now rest.now).defs < 2 ^ 32 }
    ensures { IfOk result (λ after. (line : ℕ) → EmitsP draft.old draft.new scope.now around.now line child after (if_part branches.now rest.now)) }
{
    let end = draft.new_label()?;
    let mut at = child;
    for (i, branch) in branches.iter().enumerate() {
        let over = is_over(branches.len() - 1 - i, rest.len());
        at = emit_case(alloc, draft, scope, around, at, end, over, branch)?;
    }
    let after = emit_block(alloc, draft, scope, around, at, rest)?;
    draft.bind(end);
    Ok(after)
}

/// A branch, behind which the run goes on at the label. Nothing is left behind it where it is over.
#[cycle(blocks)]
fn emit_case(
    alloc: Global,
    draft: &mut Draft,
    scope: &Scope,
    around: &Loop,
    child: u32,
    end: usize,
    over: bool,
    branch: &Branch,
) -> Result<u32, NoMemory>
    requires { child + (plain_block (out-Branch branch.now).body).defs < 2 ^ 32 }
    ensures { IfOk result (λ after. EmitsCase draft.old draft.new scope.now around.now end child after over (out-Branch branch.now).line
        (plain_expr (out-Branch branch.now).test) (plain_block (out-Branch branch.now).body)) }
{
    let other = draft.new_label()?;
    emit_expr(alloc, draft, scope, branch.line, &branch.test)?;
    draft.put(branch.line, DraftItem::Jump(Op::PopJumpIfFalse, other))?;
    let after = emit_block(alloc, draft, scope, around, child, branch.body.as_slice())?;
    put_exit(draft, over, end)?;
    draft.bind(other);
    Ok(after)
}

/// A `while` loop, with its `else`.
#[cycle(blocks)]
fn emit_while(
    alloc: Global,
    draft: &mut Draft,
    scope: &Scope,
    around: &Loop,
    line: u32,
    child: u32,
    test: &Expr,
    body: &[Stmt],
    rest: &[Stmt],
) -> Result<u32, NoMemory>
    requires { child + (while_part test.now body.now rest.now).defs < 2 ^ 32 }
    ensures { IfOk result (λ after. EmitsP draft.old draft.new scope.now around.now line child after (while_part test.now body.now rest.now)) }
{
    let end = draft.new_label()?;
    let next = draft.new_label()?;
    draft.bind(next);
    let other = draft.new_label()?;
    emit_expr(alloc, draft, scope, line, test)?;
    draft.put(line, DraftItem::Jump(Op::PopJumpIfFalse, other))?;
    let inner = Loop {
        end,
        next,
        entries: 0,
        iterator: false,
    };
    let at = emit_block(alloc, draft, scope, &inner, child, body)?;
    put_behind(draft, DraftItem::Jump(Op::Jump, next))?;
    draft.bind(other);
    let after = emit_block(alloc, draft, scope, around, at, rest)?;
    draft.bind(end);
    Ok(after)
}

/// A `for` loop, with its `else`.
#[cycle(blocks)]
fn emit_for(
    alloc: Global,
    draft: &mut Draft,
    scope: &Scope,
    around: &Loop,
    line: u32,
    child: u32,
    target: &Target,
    over: &Expr,
    body: &[Stmt],
    rest: &[Stmt],
) -> Result<u32, NoMemory>
    requires { child + (for_part target.now over.now body.now rest.now).defs < 2 ^ 32 }
    ensures { IfOk result (λ after. EmitsP draft.old draft.new scope.now around.now line child after (for_part target.now over.now body.now rest.now)) }
{
    let end = draft.new_label()?;
    emit_expr(alloc, draft, scope, line, over)?;
    draft.put(line, DraftItem::Plain(Instr::Plain(Op::GetIterStack)))?;
    let next = draft.new_label()?;
    draft.bind(next);
    let other = draft.new_label()?;
    draft.put(line, DraftItem::Jump(Op::ForIter, other))?;
    emit_target(alloc, draft, scope, line, target)?;
    let inner = Loop {
        end,
        next,
        entries: 0,
        iterator: true,
    };
    let at = emit_block(alloc, draft, scope, &inner, child, body)?;
    put_behind(draft, DraftItem::Jump(Op::Jump, next))?;
    draft.bind(other);
    let after = emit_block(alloc, draft, scope, around, at, rest)?;
    draft.bind(end);
    Ok(after)
}

/// A `try` with clauses.
#[cycle(blocks)]
fn emit_try(
    alloc: Global,
    draft: &mut Draft,
    scope: &Scope,
    around: &Loop,
    line: u32,
    child: u32,
    body: &[Stmt],
    handlers: &[Handler],
    rest: &[Stmt],
) -> Result<u32, NoMemory>
    requires { child + (try_part body.now handlers.now rest.now).defs < 2 ^ 32 }
    ensures { IfOk result (λ after. EmitsP draft.old draft.new scope.now around.now line child after (try_part body.now handlers.now rest.now)) }
{
    let end = draft.new_label()?;
    let other = draft.new_label()?;
    let inner = deepen(draft, around);
    let clauses = draft.new_label()?;
    draft.put(line, DraftItem::Jump(Op::SetupExcept, clauses))?;
    let at = emit_block(alloc, draft, scope, &inner, child, body)?;
    put_behind(draft, DraftItem::Jump(Op::PopExceptJump, other))?;
    draft.bind(clauses);
    let at = emit_handlers(alloc, draft, scope, &inner, at, end, handlers)?;
    put_behind(draft, DraftItem::Plain(Instr::Plain(Op::EndFinally)))?;
    draft.bind(other);
    let after = emit_block(alloc, draft, scope, around, at, rest)?;
    draft.bind(end);
    Ok(after)
}

/// Clauses, behind which the run goes on at the label. None stands behind one without a test.
#[cycle(blocks)]
fn emit_handlers(
    alloc: Global,
    draft: &mut Draft,
    scope: &Scope,
    around: &Loop,
    child: u32,
    end: usize,
    handlers: &[Handler],
) -> Result<u32, NoMemory>
    requires { child + (plain_handlers handlers.now).defs < 2 ^ 32 }
    ensures { IfOk result (λ after. EmitsH draft.old draft.new scope.now around.now end child after (plain_handlers handlers.now)) }
{
    let mut at = child;
    for handler in handlers {
        let Some(test) = &handler.test else {
            draft.put(handler.line, DraftItem::Plain(Instr::Plain(Op::PopTop)))?;
            let after = emit_block(alloc, draft, scope, around, at, handler.body.as_slice())?;
            put_behind(draft, DraftItem::Jump(Op::PopExceptJump, end))?;
            return Ok(after);
        };
        at = emit_clause(
            alloc,
            draft,
            scope,
            around,
            at,
            end,
            handler.line,
            test,
            &handler.name,
            handler.body.as_slice(),
        )?;
    }
    Ok(at)
}

/// A clause with a test.
#[cycle(blocks)]
fn emit_clause(
    alloc: Global,
    draft: &mut Draft,
    scope: &Scope,
    around: &Loop,
    child: u32,
    end: usize,
    line: u32,
    test: &Expr,
    name: &Option<Text>,
    body: &[Stmt],
) -> Result<u32, NoMemory>
    requires { child + (plain_block body.now).defs < 2 ^ 32 }
    ensures { IfOk result (λ after. EmitsClause draft.old draft.new scope.now around.now end child after line test.now name.now (plain_block body.now)) }
{
    let other = draft.new_label()?;
    put_match(alloc, draft, scope, line, test, other)?;
    let after = emit_matched(alloc, draft, scope, around, line, child, name, body)?;
    put_behind(draft, DraftItem::Jump(Op::PopExceptJump, end))?;
    draft.bind(other);
    Ok(after)
}

/// The body of a clause that matches. A name that it has is gone behind it.
#[cycle(blocks)]
fn emit_matched(
    alloc: Global,
    draft: &mut Draft,
    scope: &Scope,
    around: &Loop,
    line: u32,
    child: u32,
    name: &Option<Text>,
    body: &[Stmt],
) -> Result<u32, NoMemory>
    requires { child + (plain_block body.now).defs < 2 ^ 32 }
    ensures { IfOk result (λ after. EmitsMatched draft.old draft.new scope.now around.now line child after name.now (plain_block body.now)) }
{
    match name {
        None => {
            draft.put(line, DraftItem::Plain(Instr::Plain(Op::PopTop)))?;
            emit_block(alloc, draft, scope, around, child, body)
        }
        Some(name) => {
            put_store(alloc, draft, scope, line, name.bytes())?;
            let inner = deepen(draft, around);
            let last = draft.new_label()?;
            draft.put(line, DraftItem::Jump(Op::SetupFinally, last))?;
            let after = emit_block(alloc, draft, scope, &inner, child, body)?;
            put_behind(draft, DraftItem::Plain(Instr::Plain(Op::LoadConstNone)))?;
            draft.bind(last);
            put_gone(alloc, draft, scope, name.bytes())?;
            Ok(after)
        }
    }
}

/// A `try` with a `finally`, with clauses or none.
#[cycle(blocks)]
fn emit_finally(
    alloc: Global,
    draft: &mut Draft,
    scope: &Scope,
    around: &Loop,
    line: u32,
    child: u32,
    body: &[Stmt],
    handlers: &[Handler],
    rest: &[Stmt],
    last: &[Stmt],
) -> Result<u32, NoMemory>
    requires { child + (finally_part body.now handlers.now rest.now last.now).defs < 2 ^ 32 }
    ensures { IfOk result (λ after. EmitsP draft.old draft.new scope.now around.now line child after (finally_part body.now handlers.now rest.now last.now)) }
{
    let inner = deepen(draft, around);
    let behind = draft.new_label()?;
    draft.put(line, DraftItem::Jump(Op::SetupFinally, behind))?;
    if handlers.is_empty() {
        let at = emit_block(alloc, draft, scope, &inner, child, body)?;
        return emit_last(alloc, draft, scope, &inner, at, behind, last);
    }
    let at = emit_try(
        alloc, draft, scope, &inner, line, child, body, handlers, rest,
    )?;
    emit_last(alloc, draft, scope, &inner, at, behind, last)
}

/// The body of a `finally`, which stands at the label.
#[cycle(blocks)]
fn emit_last(
    alloc: Global,
    draft: &mut Draft,
    scope: &Scope,
    around: &Loop,
    child: u32,
    behind: usize,
    last: &[Stmt],
) -> Result<u32, NoMemory>
    requires few { child + (plain_block last.now).defs < 2 ^ 32 }
    requires free { slice_get draft.old.labels.items behind ≡ Some None }
    ensures { IfOk result (λ after. EmitsLast draft.old draft.new scope.now around.now behind child after (plain_block last.now)) }
{
    put_behind(draft, DraftItem::Plain(Instr::Plain(Op::LoadConstNone)))?;
    draft.bind(behind);
    let after = emit_block(alloc, draft, scope, around, child, last)?;
    put_behind(draft, DraftItem::Plain(Instr::Plain(Op::EndFinally)))?;
    Ok(after)
}
