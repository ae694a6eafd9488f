//! Ends of a function or of a run.

ghost use Rattle.std.specs.Prelude.{OnOk};
ghost use Rattle.emit_expr.specs.py_meaning.Tree.{ReturnNone, Return, Reraise, Raise};
ghost use Rattle.emit_expr.specs.py_meaning.Plain.{on_option};
ghost use Rattle.emit_stmt.specs.declared.jumps.Loop.{Loop as Around};
ghost use Rattle.emit_stmt.specs.SimpleEmits.{EmitsS};

use crate::puts::put_plain;
use bc_ops::Op;
use emit_draft::{Draft, Scope};
use emit_expr::emit_expr;
use mpy_base::NoMemory;
use py_tree::Expr;
use std::alloc::Global;

/// A `return` of the value, or else of None.
pub(crate) fn emit_return(
    alloc: Global,
    draft: &mut Draft,
    scope: &Scope,
    line: u32,
    value: &Option<Expr>,
) -> Result<(), NoMemory>
    ensures { OnOk result ((around : Around) → EmitsS draft.old draft.new scope.now around line (on_option ReturnNone Return value.now)) }
{
    match value {
        None => {
            put_plain(draft, line, Op::LoadConstNone)?;
            put_plain(draft, line, Op::ReturnValue)?;
            Ok(())
        }
        Some(value) => {
            emit_expr(alloc, draft, scope, line, value)?;
            put_plain(draft, line, Op::ReturnValue)?;
            Ok(())
        }
    }
}

/// A `raise` of the value, or else of what was raised last.
pub(crate) fn emit_raise(
    alloc: Global,
    draft: &mut Draft,
    scope: &Scope,
    line: u32,
    value: &Option<Expr>,
) -> Result<(), NoMemory>
    ensures { OnOk result ((around : Around) → EmitsS draft.old draft.new scope.now around line (on_option Reraise Raise value.now)) }
{
    match value {
        None => {
            put_plain(draft, line, Op::RaiseLast)?;
            Ok(())
        }
        Some(value) => {
            emit_expr(alloc, draft, scope, line, value)?;
            put_plain(draft, line, Op::RaiseObj)?;
            Ok(())
        }
    }
}
