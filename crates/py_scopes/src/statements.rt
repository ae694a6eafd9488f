//! What statements do.

ghost use Rattle.std.specs.Prelude.{◌≡◌, ◌++◌, OnOk, map};
ghost use Rattle.py_scopes.specs.Events.{body, function, stmt_events, branch_events, handler_events};

use crate::event::{Act, Event};
use crate::parts::{
    declares, defaults_use, imports, name_binds, option_uses, params_bind, target_takes,
    targets_take,
};
use crate::targets::targets_bind;
use crate::uses::{put, uses};
use mpy_base::{NoMemory, Text};
use py_tree::{Branch, Handler, Param, Stmt, StmtKind};
use std::alloc::Global;

/// Adds the events of a statement, in a loop or not.
#[cycle(statements)]
fn statement(
    alloc: Global,
    events: &mut Vec<Event>,
    stmt: &Stmt,
    looped: bool,
) -> Result<(), NoMemory>
    ensures { OnOk result (events.new.items ≡ events.old.items ++ stmt_events stmt.now looped) }
{
    let line = stmt.line;
    match &stmt.kind {
        StmtKind::Pass => Ok(()),
        StmtKind::Expr(value) => uses(alloc, events, line, value),
        StmtKind::Assign { targets, value } => targets_take(
            alloc,
            events,
            line,
            targets.as_slice(),
            value,
        ),
        StmtKind::Aug { target, value, .. } => target_takes(alloc, events, line, target, value),
        StmtKind::Del(targets) => targets_bind(alloc, events, line, targets.as_slice()),
        StmtKind::Break | StmtKind::Continue => put(events, line, Act::Jump(looped)),
        StmtKind::Return(value) => {
            put(events, line, Act::Return)?;
            option_uses(alloc, events, line, value)
        }
        StmtKind::Raise(value) => option_uses(alloc, events, line, value),
        StmtKind::Global(names) => declares(alloc, events, line, names.as_slice()),
        StmtKind::Import(names) => imports(alloc, events, line, names.as_slice()),
        StmtKind::From { names, .. } => imports(alloc, events, line, names.as_slice()),
        StmtKind::Assert { test, message } => {
            uses(alloc, events, line, test)?;
            option_uses(alloc, events, line, message)
        }
        StmtKind::If { branches, rest } => {
            branch_bodies(alloc, events, branches.as_slice(), looped)?;
            statements(alloc, events, rest.as_slice(), looped)
        }
        StmtKind::While { test, body, rest } => {
            uses(alloc, events, line, test)?;
            statements(alloc, events, body.as_slice(), true)?;
            statements(alloc, events, rest.as_slice(), looped)
        }
        StmtKind::For {
            target,
            over,
            body,
            rest,
        } => {
            target_takes(alloc, events, line, target, over)?;
            statements(alloc, events, body.as_slice(), true)?;
            statements(alloc, events, rest.as_slice(), looped)
        }
        StmtKind::Try {
            body,
            handlers,
            rest,
            last,
        } => {
            statements(alloc, events, body.as_slice(), looped)?;
            handler_bodies(alloc, events, handlers.as_slice(), looped)?;
            statements(alloc, events, rest.as_slice(), looped)?;
            match last {
                None => Ok(()),
                Some(last) => statements(alloc, events, last.as_slice(), looped),
            }
        }
        StmtKind::Def { name, params, body } => {
            put(events, line, Act::Bind(Text::new(alloc, name.bytes())?))?;
            defaults_use(alloc, events, line, params.as_slice())?;
            function_body(alloc, events, line, params.as_slice(), body.as_slice())
        }
    }
}

/// The events of statements, one behind another; `looped` says whether a loop is around them.
#[cycle(statements)]
pub(crate) fn statements(
    alloc: Global,
    events: &mut Vec<Event>,
    stmts: &[Stmt],
    looped: bool,
) -> Result<(), NoMemory>
    ensures { OnOk result (events.new.items ≡ events.old.items ++ body looped (map stmt_events stmts.now)) }
{
    for stmt in stmts {
        statement(alloc, events, stmt, looped)?;
    }
    Ok(())
}

/// Adds the events of branches: the tests and bodies of each.
#[cycle(statements)]
fn branch_bodies(
    alloc: Global,
    events: &mut Vec<Event>,
    branches: &[Branch],
    looped: bool,
) -> Result<(), NoMemory>
    ensures { OnOk result (events.new.items ≡ events.old.items ++ body looped (map branch_events branches.now)) }
{
    for branch in branches {
        uses(alloc, events, branch.line, &branch.test)?;
        statements(alloc, events, branch.body.as_slice(), looped)?;
    }
    Ok(())
}

/// Adds the events of clauses.
#[cycle(statements)]
fn handler_bodies(
    alloc: Global,
    events: &mut Vec<Event>,
    handlers: &[Handler],
    looped: bool,
) -> Result<(), NoMemory>
    ensures { OnOk result (events.new.items ≡ events.old.items ++ body looped (map handler_events handlers.now)) }
{
    for handler in handlers {
        option_uses(alloc, events, handler.line, &handler.test)?;
        name_binds(alloc, events, handler.line, &handler.name)?;
        statements(alloc, events, handler.body.as_slice(), looped)?;
    }
    Ok(())
}

/// Adds the events of a function's own text, from its beginning to its end.
#[cycle(statements)]
fn function_body(
    alloc: Global,
    events: &mut Vec<Event>,
    line: u32,
    params: &[Param],
    inner: &[Stmt],
) -> Result<(), NoMemory>
    ensures { OnOk result (events.new.items ≡ events.old.items ++ function line params.now (map stmt_events inner.now)) }
{
    put(events, line, Act::Enter)?;
    params_bind(alloc, events, line, params)?;
    statements(alloc, events, inner, false)?;
    put(events, line, Act::Leave)
}
