//! Statements without a body.

ghost use Rattle.std.specs.Prelude.{◌≡◌, ℕ, true, OnOk};
ghost use Rattle.emit_stmt.specs.Plain.{plain_kind, is_simple};
ghost use Rattle.emit_stmt.specs.SimpleEmits.{EmitsS};

use crate::assertions::emit_assertion;
use crate::assignments::{emit_assignment, emit_augmented};
use crate::exits::{emit_raise, emit_return};
use crate::imports::{emit_from, emit_import};
use crate::jumps::{Loop, emit_jump};
use crate::puts::put_plain;
use crate::targets::emit_deletions;
use bc_ops::Op;
use emit_draft::{Draft, Scope};
use emit_expr::emit_expr;
use mpy_base::NoMemory;
use py_tree::StmtKind;
use std::alloc::Global;

/// Puts the code of a statement without a body at the end of the draft; `around` is the loop around. The draft is crowded
/// then where a part of it has more members than its instruction can name, where a jump would leave more than 127
/// entries, and where anything but a name or an index is deleted.
pub fn emit_simple(
    alloc: Global,
    draft: &mut Draft,
    scope: &Scope,
    around: &Loop,
    line: u32,
    kind: &StmtKind,
) -> Result<(), NoMemory>
    requires { is_simple kind.now ≡ true }
    ensures { OnOk result ((number : ℕ) → EmitsS draft.old draft.new scope.now around.now line ((plain_kind kind.now).make number)) }
{
    match kind {
        StmtKind::Expr(value) => {
            emit_expr(alloc, draft, scope, line, value)?;
            put_plain(draft, line, Op::PopTop)
        }
        StmtKind::Assign { targets, value } => {
            emit_assignment(alloc, draft, scope, line, targets.as_slice(), value)
        }
        StmtKind::Aug { target, op, value } => {
            emit_augmented(alloc, draft, scope, line, target, *op, value)
        }
        StmtKind::Del(targets) => emit_deletions(alloc, draft, scope, line, targets.as_slice()),
        StmtKind::Pass | StmtKind::Global(_) => Ok(()),
        StmtKind::Break => emit_jump(draft, line, around.end, around.entries, around.iterator),
        StmtKind::Continue => emit_jump(draft, line, around.next, around.entries, false),
        StmtKind::Return(value) => emit_return(alloc, draft, scope, line, value),
        StmtKind::Raise(value) => emit_raise(alloc, draft, scope, line, value),
        StmtKind::Import(names) => emit_import(alloc, draft, scope, line, names.as_slice()),
        StmtKind::From { module, names } => {
            emit_from(alloc, draft, scope, line, module.bytes(), names.as_slice())
        }
        StmtKind::Assert { test, message } => {
            emit_assertion(alloc, draft, scope, line, test, message)
        }
        _ => unreachable!(),
    }
}
