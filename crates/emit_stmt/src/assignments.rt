//! Assignments to one or more targets, and those with an operator.

ghost use Rattle.std.specs.Prelude.{map, OnOk};
ghost use Rattle.emit_expr.specs.bc_machine.bc_ops.declared.instr.Instr.TheVariants as instrs;
ghost use Rattle.emit_expr.specs.bc_scheme.Context.{arithmetic};
ghost use Rattle.emit_expr.specs.emit_draft.Draft.{Puts};
ghost use Rattle.emit_expr.specs.emit_draft.declared.draft.DraftItem.TheVariants as drafts;
ghost use Rattle.emit_expr.specs.py_meaning.Tree.{Assign, AugName, AugAttr, AugIndex, Pass};
ghost use Rattle.emit_expr.specs.py_meaning.Plain.{plain_expr, plain_target, from_targets, augmented};
ghost use Rattle.emit_stmt.specs.declared.jumps.Loop.{Loop as Around};
ghost use Rattle.emit_stmt.specs.SimpleEmits.{EmitsS};

use crate::puts::{put_load, put_named, put_plain, put_store};
use crate::targets::emit_target;
use bc_ops::{Instr, Op};
use emit_draft::{Draft, DraftItem, Scope, arithmetic_number};
use emit_expr::emit_expr;
use mpy_base::NoMemory;
use py_tree::{BinaryOp, Expr, Target};
use std::alloc::Global;

/// An assignment. The value is doubled in front of each store but the last.
pub(crate) fn emit_assignment(
    alloc: Global,
    draft: &mut Draft,
    scope: &Scope,
    line: u32,
    targets: &[Target],
    value: &Expr,
) -> Result<(), NoMemory>
    ensures { OnOk result ((around : Around)
        → EmitsS draft.old draft.new scope.now around line
        (from_targets Pass (λ ts. Assign ts (plain_expr value.now)) (map plain_target targets.now))) }
{
    let Some((last, front)) = targets.split_last() else {
        return Ok(());
    };
    emit_expr(alloc, draft, scope, line, value)?;
    for target in front {
        put_plain(draft, line, Op::DupTop)?;
        emit_target(alloc, draft, scope, line, target)?;
    }
    emit_target(alloc, draft, scope, line, last)?;
    Ok(())
}

/// The operation in place.
fn put_in_place(draft: &mut Draft, line: u32, op: BinaryOp) -> Result<(), NoMemory>
    ensures { OnOk result (Puts draft.old draft.new line (drafts.Plain (instrs.Binary (arithmetic op)))) }
{
    draft.put(line, DraftItem::Plain(Instr::Binary(arithmetic_number(op))))
}

/// `name op= value`.
fn emit_augmented_name(
    alloc: Global,
    draft: &mut Draft,
    scope: &Scope,
    line: u32,
    name: &[u8],
    op: BinaryOp,
    value: &Expr,
) -> Result<(), NoMemory>
    ensures { OnOk result ((around : Around) → EmitsS draft.old draft.new scope.now around line (AugName name.now op (plain_expr value.now))) }
{
    put_load(alloc, draft, scope, line, name)?;
    emit_expr(alloc, draft, scope, line, value)?;
    put_in_place(draft, line, op)?;
    put_store(alloc, draft, scope, line, name)?;
    Ok(())
}

/// `object.name op= value`.
fn emit_augmented_attr(
    alloc: Global,
    draft: &mut Draft,
    scope: &Scope,
    line: u32,
    object: &Expr,
    name: &[u8],
    op: BinaryOp,
    value: &Expr,
) -> Result<(), NoMemory>
    ensures { OnOk result ((around : Around)
        → EmitsS draft.old draft.new scope.now around line (AugAttr (plain_expr object.now) name.now op (plain_expr value.now))) }
{
    emit_expr(alloc, draft, scope, line, object)?;
    put_plain(draft, line, Op::DupTop)?;
    put_named(alloc, draft, line, Op::LoadAttr, name)?;
    emit_expr(alloc, draft, scope, line, value)?;
    put_in_place(draft, line, op)?;
    put_plain(draft, line, Op::RotTwo)?;
    put_named(alloc, draft, line, Op::StoreAttr, name)?;
    Ok(())
}

/// `object[index] op= value`.
fn emit_augmented_index(
    alloc: Global,
    draft: &mut Draft,
    scope: &Scope,
    line: u32,
    object: &Expr,
    index: &Expr,
    op: BinaryOp,
    value: &Expr,
) -> Result<(), NoMemory>
    ensures { OnOk result ((around : Around)
        → EmitsS draft.old draft.new scope.now around line
        (AugIndex (plain_expr object.now) (plain_expr index.now) op (plain_expr value.now))) }
{
    emit_expr(alloc, draft, scope, line, object)?;
    emit_expr(alloc, draft, scope, line, index)?;
    put_plain(draft, line, Op::DupTopTwo)?;
    put_plain(draft, line, Op::LoadSubscr)?;
    emit_expr(alloc, draft, scope, line, value)?;
    put_in_place(draft, line, op)?;
    put_plain(draft, line, Op::RotThree)?;
    put_plain(draft, line, Op::StoreSubscr)?;
    Ok(())
}

/// An augmented assignment. One to several targets has no code.
pub(crate) fn emit_augmented(
    alloc: Global,
    draft: &mut Draft,
    scope: &Scope,
    line: u32,
    target: &Target,
    op: BinaryOp,
    value: &Expr,
) -> Result<(), NoMemory>
    ensures { OnOk result ((around : Around)
        → EmitsS draft.old draft.new scope.now around line (augmented (plain_target target.now) op (plain_expr value.now))) }
{
    match target {
        Target::Name(name) => {
            emit_augmented_name(alloc, draft, scope, line, name.bytes(), op, value)
        }
        Target::Attr { object, name } => {
            emit_augmented_attr(alloc, draft, scope, line, object, name.bytes(), op, value)
        }
        Target::Index { object, index } => {
            emit_augmented_index(alloc, draft, scope, line, object, index, op, value)
        }
        Target::Unpack(targets) => {
            if targets.is_empty() {
                return emit_augmented_name(alloc, draft, scope, line, b"", op, value);
            }
            Ok(())
        }
    }
}
