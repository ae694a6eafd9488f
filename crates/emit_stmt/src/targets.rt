//! Stores of the topmost value into targets, and deletions.

ghost use Rattle.std.specs.Prelude.{[], map, OnOk};
ghost use Rattle.emit_expr.specs.py_meaning.Tree.{ToName, ToEach, Pass, Delete};
ghost use Rattle.emit_expr.specs.py_meaning.Plain.{plain_target, from_targets};
ghost use Rattle.emit_stmt.specs.declared.jumps.Loop.{Loop as Around};
ghost use Rattle.emit_stmt.specs.SimpleEmits.{EmitsT, EmitsG, EmitsS};

use crate::puts::{put_delete, put_named, put_plain, put_store};
use bc_ops::Op;
use emit_draft::{Draft, Scope};
use emit_expr::emit_expr;
use mpy_base::NoMemory;
use py_tree::Target;
use std::alloc::Global;

/// Puts the code that stores the topmost value to the target at the end of the draft, which is crowded then where a part
/// of it is or an unpack has more than 4,096 targets.
#[cycle(targets)]
pub fn emit_target(
    alloc: Global,
    draft: &mut Draft,
    scope: &Scope,
    line: u32,
    target: &Target,
) -> Result<(), NoMemory>
    ensures { OnOk result (EmitsT draft.old draft.new scope.now line (plain_target target.now)) }
{
    match target {
        Target::Name(name) => put_store(alloc, draft, scope, line, name.bytes()),
        Target::Attr { object, name } => {
            emit_expr(alloc, draft, scope, line, object)?;
            put_named(alloc, draft, line, Op::StoreAttr, name.bytes())
        }
        Target::Index { object, index } => {
            emit_expr(alloc, draft, scope, line, object)?;
            emit_expr(alloc, draft, scope, line, index)?;
            put_plain(draft, line, Op::StoreSubscr)
        }
        Target::Unpack(targets) => emit_each(alloc, draft, scope, line, targets.as_slice()),
    }
}

/// Stores of the topmost value's members. With no target it is a store to the name of no bytes.
#[cycle(targets)]
fn emit_each(
    alloc: Global,
    draft: &mut Draft,
    scope: &Scope,
    line: u32,
    targets: &[Target],
) -> Result<(), NoMemory>
    ensures { OnOk result (EmitsT draft.old draft.new scope.now line (from_targets (ToName []) ToEach (map plain_target targets.now))) }
{
    if targets.is_empty() {
        return put_store(alloc, draft, scope, line, b"");
    }
    draft.put_items(line, Op::UnpackSequence, targets.len())?;
    for target in targets {
        emit_target(alloc, draft, scope, line, target)?;
    }
    Ok(())
}

/// A deletion of a name or of an index. Nothing else has one.
fn emit_deletion(
    alloc: Global,
    draft: &mut Draft,
    scope: &Scope,
    line: u32,
    target: &Target,
) -> Result<(), NoMemory>
    ensures { OnOk result (EmitsG draft.old draft.new scope.now line (plain_target target.now)) }
{
    match target {
        Target::Name(name) => put_delete(alloc, draft, scope, line, name.bytes()),
        Target::Index { object, index } => {
            emit_expr(alloc, draft, scope, line, object)?;
            emit_expr(alloc, draft, scope, line, index)?;
            put_plain(draft, line, Op::LoadNull)?;
            put_plain(draft, line, Op::RotThree)?;
            put_plain(draft, line, Op::StoreSubscr)
        }
        Target::Attr { .. } => {
            draft.crowded = true;
            Ok(())
        }
        Target::Unpack(targets) => {
            if targets.is_empty() {
                return put_delete(alloc, draft, scope, line, b"");
            }
            draft.crowded = true;
            Ok(())
        }
    }
}

/// A `del`.
pub(crate) fn emit_deletions(
    alloc: Global,
    draft: &mut Draft,
    scope: &Scope,
    line: u32,
    targets: &[Target],
) -> Result<(), NoMemory>
    ensures { OnOk result ((around : Around) → EmitsS draft.old draft.new scope.now around line (from_targets Pass Delete (map plain_target targets.now))) }
{
    for target in targets {
        emit_deletion(alloc, draft, scope, line, target)?;
    }
    Ok(())
}
