//! What stands behind a body, and one entry more in a loop.

ghost use Rattle.std.specs.Prelude.{◌≡◌, ◌↔◌, true, false, IsTrue, OnOk};
ghost use Rattle.emit_expr.specs.bc_machine.bc_ops.declared.instr.Op.TheVariants as ops;
ghost use Rattle.emit_expr.specs.emit_draft.declared.draft.DraftItem.TheVariants as drafts;
ghost use Rattle.emit_expr.specs.py_meaning.Plain.{plain_expr};
ghost use Rattle.emit_stmt.specs.Steps.{last_line, PutsBehind, Deepens, EmitsMatch, EmitsGone};

use crate::jumps::Loop;
use bc_ops::{Instr, Op};
use emit_draft::{Draft, DraftItem, DraftLine, Scope, delete_name, store_name};
use emit_expr::emit_expr;
use mpy_base::NoMemory;
use py_tree::Expr;
use std::alloc::Global;

/// The entries that a jump out of a loop can name.
const MAX_NAMED: usize = 127;

/// The line of the last instruction, or 1 where there is none.
fn line_behind(lines: &[DraftLine]) -> u32
    ensures { result ≡ last_line 1 lines.now }
{
    match lines.split_last() {
        Some((last, _)) => last.line,
        None => 1,
    }
}

/// Puts an instruction at the end, with the line of the one before it, or 1 where there is none.
pub(crate) fn put_behind(draft: &mut Draft, item: DraftItem) -> Result<(), NoMemory>
    ensures { OnOk result (PutsBehind draft.old draft.new item) }
{
    let line = line_behind(draft.lines.as_slice());
    draft.lines.push(DraftLine { item, line })?;
    Ok(())
}

/// The loop with one held entry more. Past 127 entries the draft is crowded.
pub(crate) fn deepen(draft: &mut Draft, around: &Loop) -> Loop
    ensures { Deepens draft.old draft.new around.now result }
{
    if around.entries >= MAX_NAMED {
        draft.crowded = true;
        return *around;
    }
    Loop {
        end: around.end,
        next: around.next,
        entries: around.entries + 1,
        iterator: around.iterator,
    }
}

/// Whether nothing is left behind a branch.
pub(crate) fn is_over(branches: usize, rest: usize) -> bool
    ensures { IsTrue result ↔ ((branches ≡ 0) × (rest ≡ 0)) }
{
    branches == 0 && rest == 0
}

/// Puts the jump behind a body, unless nothing is left to jump over.
pub(crate) fn put_exit(draft: &mut Draft, over: bool, end: usize) -> Result<(), NoMemory>
    ensures last { over ≡ true → OnOk result (draft.new ≡ draft.old) }
    ensures other { over ≡ false → OnOk result (PutsBehind draft.old draft.new (drafts.Jump ops.Jump end)) }
{
    if over {
        return Ok(());
    }
    put_behind(draft, DraftItem::Jump(Op::Jump, end))
}

/// Puts the test of a clause, which goes on at the label where it doesn't match.
pub(crate) fn put_match(
    alloc: Global,
    draft: &mut Draft,
    scope: &Scope,
    line: u32,
    test: &Expr,
    other: usize,
) -> Result<(), NoMemory>
    ensures { OnOk result (EmitsMatch draft.old draft.new scope.now line (plain_expr test.now) other) }
{
    draft.put(line, DraftItem::Plain(Instr::Plain(Op::DupTop)))?;
    emit_expr(alloc, draft, scope, line, test)?;
    draft.put(line, DraftItem::Plain(Instr::Binary(8)))?;
    draft.put(line, DraftItem::Jump(Op::PopJumpIfFalse, other))?;
    Ok(())
}

/// Puts the end of a clause with a name: the name is gone then.
pub(crate) fn put_gone(
    alloc: Global,
    draft: &mut Draft,
    scope: &Scope,
    name: &[u8],
) -> Result<(), NoMemory>
    ensures { OnOk result (EmitsGone draft.old draft.new scope.now name.now) }
{
    let store = store_name(alloc, scope, name)?;
    let delete = delete_name(alloc, scope, name)?;
    put_behind(draft, DraftItem::Plain(Instr::Plain(Op::LoadConstNone)))?;
    put_behind(draft, store)?;
    put_behind(draft, delete)?;
    put_behind(draft, DraftItem::Plain(Instr::Plain(Op::EndFinally)))?;
    Ok(())
}
