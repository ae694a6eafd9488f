//! Functions, without their bodies.

ghost use Rattle.std.specs.Prelude.{◌≡◌, ℕ, OnOk};
ghost use Rattle.emit_expr.specs.py_meaning.Tree.{NoExpr, More, count};
ghost use Rattle.emit_expr.specs.py_meaning.Plain.{on_option, defaults_of};
ghost use Rattle.emit_expr.specs.Emits.{EmitsEs};
ghost use Rattle.emit_stmt.specs.SimpleEmits.{EmitsMaking, EmitsDef};

use crate::puts::{put_plain, put_store};
use bc_ops::{Instr, Op};
use emit_draft::{Draft, DraftItem, Scope};
use emit_expr::emit_expr;
use mpy_base::NoMemory;
use py_tree::{Expr, Param};
use std::alloc::Global;

/// How many parameters have defaults.
fn default_count(params: &[Param]) -> usize
    ensures { result ≡ count (defaults_of params.now) }
{
    params
        .iter()
        .filter(|param| param.default.is_some())
        .count()
}

/// The default of a parameter, if it has one.
fn emit_default(
    alloc: Global,
    draft: &mut Draft,
    scope: &Scope,
    line: u32,
    default: &Option<Expr>,
) -> Result<(), NoMemory>
    ensures { OnOk result (EmitsEs draft.old draft.new scope.now line (on_option NoExpr (λ e. More e NoExpr) default.now)) }
{
    match default {
        Some(value) => {
            emit_expr(alloc, draft, scope, line, value)?;
            Ok(())
        }
        None => Ok(()),
    }
}

/// The defaults of the parameters that have some.
fn emit_defaults(
    alloc: Global,
    draft: &mut Draft,
    scope: &Scope,
    line: u32,
    params: &[Param],
) -> Result<(), NoMemory>
    ensures { OnOk result (EmitsEs draft.old draft.new scope.now line (defaults_of params.now)) }
{
    for param in params {
        emit_default(alloc, draft, scope, line, &param.default)?;
    }
    Ok(())
}

/// The making of a function, behind the tuple of its defaults if it has some.
fn emit_making(
    alloc: Global,
    draft: &mut Draft,
    scope: &Scope,
    line: u32,
    child: u32,
    params: &[Param],
) -> Result<(), NoMemory>
    ensures { OnOk result (EmitsMaking draft.old draft.new scope.now line child (defaults_of params.now)) }
{
    let given = default_count(params);
    if given == 0 {
        draft.put(line, DraftItem::Plain(Instr::Num(Op::MakeFunction, child)))?;
        return Ok(());
    }
    emit_defaults(alloc, draft, scope, line, params)?;
    draft.put_items(line, Op::BuildTuple, given)?;
    put_plain(draft, line, Op::LoadNull)?;
    draft.put(
        line,
        DraftItem::Plain(Instr::Num(Op::MakeFunctionDefargs, child)),
    )?;
    Ok(())
}

/// Puts the code of a `def` at the end of the draft: the making of the function that is the child of this index among
/// the code's own ones, and the store to its name. The body's code is the child's. The draft is crowded then where a default
/// is or there are more than 4,096.
pub fn emit_def(
    alloc: Global,
    draft: &mut Draft,
    scope: &Scope,
    line: u32,
    child: u32,
    name: &[u8],
    params: &[Param],
) -> Result<(), NoMemory>
    ensures { OnOk result ((number : ℕ) → EmitsDef draft.old draft.new scope.now line child number name.now (defaults_of params.now)) }
{
    emit_making(alloc, draft, scope, line, child, params)?;
    put_store(alloc, draft, scope, line, name)?;
    Ok(())
}
