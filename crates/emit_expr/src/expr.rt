//! Expressions, and parts of them in a row.

ghost use Rattle.std.specs.Prelude.{◌≡◌, List, map, OnOk, IfOk};
ghost use Rattle.emit_draft.specs.bc_scheme.py_meaning.Plain.{plain_expr, exprs, operands, pairs_of, keys_of};
ghost use Rattle.emit_expr.specs.Emits.{EmitsE, EmitsEs, EmitsLinks, EmitsD, EmitsK, EmitsCallee, joins, plain_links, plain_pairs, plain_keys};

use crate::puts::{put_comparison, put_load, put_named, put_str};
use bc_ops::{Instr, Op};
use emit_draft::{Draft, DraftItem, Scope, arithmetic_number, unary_number};
use mpy_base::{NoMemory, Text};
use py_tree::{CompareOp, Expr};
use std::alloc::Global;

/// The words that join operands.
#[derive(Clone, Copy)]
pub enum Connective {
    And,
    Or,
}

impl Connective {
    ghost use Rattle.emit_expr.specs.Emits.{jump_of};

    /// The jump that leaves the operand's value where it decides.
    fn jump(self) -> Op
        ensures { result ≡ jump_of self }
    {
        match self {
            Connective::And => Op::JumpIfFalseOrPop,
            Connective::Or => Op::JumpIfTrueOrPop,
        }
    }
}

/// Puts the code of the expression at the end of the draft, which is crowded then where a call in it has more than 255
/// positional or keyword arguments, or a display more than 4,096 items.
#[cycle(expressions)]
pub fn emit_expr(
    alloc: Global,
    draft: &mut Draft,
    scope: &Scope,
    line: u32,
    expr: &Expr,
) -> Result<(), NoMemory>
    ensures { OnOk result (EmitsE draft.old draft.new scope.now line (plain_expr expr.now)) }
{
    match expr {
        Expr::None => draft.put(line, DraftItem::Plain(Instr::Plain(Op::LoadConstNone))),
        Expr::True => draft.put(line, DraftItem::Plain(Instr::Plain(Op::LoadConstTrue))),
        Expr::False => draft.put(line, DraftItem::Plain(Instr::Plain(Op::LoadConstFalse))),
        Expr::Int(n) => draft.put(line, DraftItem::Plain(Instr::Int(*n))),
        Expr::Str(text) => put_str(alloc, draft, line, text.bytes()),
        Expr::Name(name) => put_load(alloc, draft, scope, line, name.bytes()),
        Expr::Unary { op, value } => {
            emit_expr(alloc, draft, scope, line, value.get())?;
            let number = unary_number(*op);
            draft.put(line, DraftItem::Plain(Instr::Unary(number)))
        }
        Expr::Not(value) => {
            emit_expr(alloc, draft, scope, line, value.get())?;
            draft.put(line, DraftItem::Plain(Instr::Unary(3)))
        }
        Expr::Binary { op, left, right } => {
            emit_expr(alloc, draft, scope, line, left.get())?;
            emit_expr(alloc, draft, scope, line, right.get())?;
            let number = arithmetic_number(*op);
            draft.put(line, DraftItem::Plain(Instr::Binary(number + 13)))
        }
        Expr::And(items) => emit_joined(
            alloc,
            draft,
            scope,
            line,
            Connective::And,
            items.as_slice(),
        ),
        Expr::Or(items) => emit_joined(alloc, draft, scope, line, Connective::Or, items.as_slice()),
        Expr::Compare { first, rest } => {
            emit_expr(alloc, draft, scope, line, first.get())?;
            emit_links(alloc, draft, scope, line, rest.as_slice())
        }
        Expr::Cond { test, yes, no } => {
            emit_expr(alloc, draft, scope, line, test.get())?;
            let other = draft.new_label()?;
            let end = draft.new_label()?;
            draft.put(line, DraftItem::Jump(Op::PopJumpIfFalse, other))?;
            emit_expr(alloc, draft, scope, line, yes.get())?;
            draft.put(line, DraftItem::Jump(Op::Jump, end))?;
            draft.bind(other);
            emit_expr(alloc, draft, scope, line, no.get())?;
            draft.bind(end);
            Ok(())
        }
        Expr::Tuple(items) => {
            emit_all(alloc, draft, scope, line, items.as_slice())?;
            draft.put_items(line, Op::BuildTuple, items.len())
        }
        Expr::List(items) => {
            emit_all(alloc, draft, scope, line, items.as_slice())?;
            draft.put_items(line, Op::BuildList, items.len())
        }
        Expr::Dict(pairs) => {
            draft.put_items(line, Op::BuildMap, pairs.len())?;
            emit_pairs(alloc, draft, scope, line, pairs.as_slice())
        }
        Expr::Attr { object, name } => {
            emit_expr(alloc, draft, scope, line, object.get())?;
            put_named(alloc, draft, line, Op::LoadAttr, name.bytes())
        }
        Expr::Index { object, index } => {
            emit_expr(alloc, draft, scope, line, object.get())?;
            emit_expr(alloc, draft, scope, line, index.get())?;
            draft.put(line, DraftItem::Plain(Instr::Plain(Op::LoadSubscr)))
        }
        Expr::Call { callee, args, keys } => {
            let op = emit_callee(alloc, draft, scope, line, callee.get())?;
            emit_all(alloc, draft, scope, line, args.as_slice())?;
            emit_keys(alloc, draft, scope, line, keys.as_slice())?;
            draft.put_call(line, op, args.len(), keys.len())
        }
    }
}

/// The operands of `and` or `or`. Each but the first stands behind a jump to the end.
#[cycle(expressions)]
fn emit_joined(
    alloc: Global,
    draft: &mut Draft,
    scope: &Scope,
    line: u32,
    connective: Connective,
    items: &[Expr],
) -> Result<(), NoMemory>
    ensures { OnOk result (EmitsE draft.old draft.new scope.now line (operands (joins connective) (map plain_expr items.now))) }
{
    let op = connective.jump();
    let Some((first, rest)) = items.split_first() else {
        return draft.put(line, DraftItem::Plain(Instr::Plain(Op::LoadConstNone)));
    };
    emit_expr(alloc, draft, scope, line, first)?;
    let end = draft.new_label()?;
    for item in rest {
        draft.put(line, DraftItem::Jump(op, end))?;
        emit_expr(alloc, draft, scope, line, item)?;
    }
    draft.bind(end);
    Ok(())
}

/// What stands behind the first operand of a comparison.
#[cycle(expressions)]
fn emit_links(
    alloc: Global,
    draft: &mut Draft,
    scope: &Scope,
    line: u32,
    links: &[(CompareOp, Expr)],
) -> Result<(), NoMemory>
    ensures { OnOk result (EmitsLinks draft.old draft.new scope.now line (plain_links links.now)) }
{
    let Some((last, front)) = links.split_last() else {
        return Ok(());
    };
    let fail = draft.new_label()?;
    for (op, value) in front {
        emit_expr(alloc, draft, scope, line, value)?;
        draft.put(line, DraftItem::Plain(Instr::Plain(Op::DupTop)))?;
        draft.put(line, DraftItem::Plain(Instr::Plain(Op::RotThree)))?;
        put_comparison(draft, line, *op)?;
        draft.put(line, DraftItem::Jump(Op::JumpIfFalseOrPop, fail))?;
    }
    emit_expr(alloc, draft, scope, line, &last.1)?;
    put_comparison(draft, line, last.0)?;
    if front.is_empty() {
        return Ok(());
    }
    let end = draft.new_label()?;
    draft.put(line, DraftItem::Jump(Op::Jump, end))?;
    draft.bind(fail);
    draft.put(line, DraftItem::Plain(Instr::Plain(Op::RotTwo)))?;
    draft.put(line, DraftItem::Plain(Instr::Plain(Op::PopTop)))?;
    draft.bind(end);
    Ok(())
}

/// The callee of a call, which is a method's where it is an attribute. Gives the call's operation.
#[cycle(expressions)]
fn emit_callee(
    alloc: Global,
    draft: &mut Draft,
    scope: &Scope,
    line: u32,
    callee: &Expr,
) -> Result<Op, NoMemory>
    ensures { IfOk result (λ op. EmitsCallee draft.old draft.new scope.now line (plain_expr callee.now) op) }
{
    match callee {
        Expr::Attr { object, name } => {
            emit_expr(alloc, draft, scope, line, object.get())?;
            put_named(alloc, draft, line, Op::LoadMethod, name.bytes())?;
            Ok(Op::CallMethod)
        }
        Expr::Compare { first, rest } => {
            // A comparison with nothing is what it compares.
            if rest.is_empty() {
                return emit_callee(alloc, draft, scope, line, first.get());
            }
            emit_expr(alloc, draft, scope, line, callee)?;
            Ok(Op::CallFunction)
        }
        _ => {
            emit_expr(alloc, draft, scope, line, callee)?;
            Ok(Op::CallFunction)
        }
    }
}

/// Each of these expressions, in order.
#[cycle(expressions)]
fn emit_all(
    alloc: Global,
    draft: &mut Draft,
    scope: &Scope,
    line: u32,
    items: &[Expr],
) -> Result<(), NoMemory>
    ensures { OnOk result (EmitsEs draft.old draft.new scope.now line (exprs (map plain_expr items.now))) }
{
    for item in items {
        emit_expr(alloc, draft, scope, line, item)?;
    }
    Ok(())
}

/// Pairs, each value in front of its key.
#[cycle(expressions)]
fn emit_pairs(
    alloc: Global,
    draft: &mut Draft,
    scope: &Scope,
    line: u32,
    pairs: &[(Expr, Expr)],
) -> Result<(), NoMemory>
    ensures { OnOk result (EmitsD draft.old draft.new scope.now line (pairs_of (plain_pairs pairs.now))) }
{
    for (key, value) in pairs {
        emit_expr(alloc, draft, scope, line, value)?;
        emit_expr(alloc, draft, scope, line, key)?;
        draft.put(line, DraftItem::Plain(Instr::Plain(Op::StoreMap)))?;
    }
    Ok(())
}

/// Keyword arguments, each behind its name.
#[cycle(expressions)]
fn emit_keys(
    alloc: Global,
    draft: &mut Draft,
    scope: &Scope,
    line: u32,
    keys: &[(Text, Expr)],
) -> Result<(), NoMemory>
    ensures { OnOk result (EmitsK draft.old draft.new scope.now line (keys_of (plain_keys keys.now))) }
{
    for (name, value) in keys {
        put_named(alloc, draft, line, Op::LoadConstString, name.bytes())?;
        emit_expr(alloc, draft, scope, line, value)?;
    }
    Ok(())
}
