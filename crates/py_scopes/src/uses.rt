//! The names that expressions use, and what targets do.

ghost use Rattle.std.specs.Prelude.{◌≡◌, [], ◌∷◌, ◌++◌, OnOk};
ghost use Rattle.std.specs.List.{flat_map};
ghost use Rattle.py_scopes.specs.Events.{at, acts_of};

use crate::event::{Act, Event};
use mpy_base::{NoMemory, Text};
use py_tree::{CompareOp, Expr};
use std::alloc::Global;

/// Puts an act at the end.
pub(crate) fn put(events: &mut Vec<Event>, line: u32, act: Act) -> Result<(), NoMemory>
    ensures { OnOk result (events.new.items ≡ events.old.items ++ at line (act ∷ [])) }
{
    events.push(Event { line, act })?;
    Ok(())
}

/// The uses of names in an expression, as they stand in the text.
#[cycle(uses)]
pub(crate) fn uses(
    alloc: Global,
    events: &mut Vec<Event>,
    line: u32,
    expr: &Expr,
) -> Result<(), NoMemory>
    ensures { OnOk result (events.new.items ≡ events.old.items ++ at line (acts_of expr.now)) }
{
    match expr {
        Expr::None | Expr::True | Expr::False | Expr::Int(_) | Expr::Str(_) => Ok(()),
        Expr::Name(name) => put(events, line, Act::Use(Text::new(alloc, name.bytes())?)),
        Expr::Unary { value, .. } => uses(alloc, events, line, value.get()),
        Expr::Not(value) => uses(alloc, events, line, value.get()),
        Expr::Attr { object, .. } => uses(alloc, events, line, object.get()),
        Expr::Binary { left, right, .. } => {
            uses(alloc, events, line, left.get())?;
            uses(alloc, events, line, right.get())
        }
        Expr::Index { object, index } => {
            uses(alloc, events, line, object.get())?;
            uses(alloc, events, line, index.get())
        }
        Expr::Cond { test, yes, no } => {
            uses(alloc, events, line, yes.get())?;
            uses(alloc, events, line, test.get())?;
            uses(alloc, events, line, no.get())
        }
        Expr::And(items) => uses_all(alloc, events, line, items.as_slice()),
        Expr::Or(items) => uses_all(alloc, events, line, items.as_slice()),
        Expr::Tuple(items) => uses_all(alloc, events, line, items.as_slice()),
        Expr::List(items) => uses_all(alloc, events, line, items.as_slice()),
        Expr::Dict(pairs) => uses_pairs(alloc, events, line, pairs.as_slice()),
        Expr::Compare { first, rest } => {
            uses(alloc, events, line, first.get())?;
            uses_compared(alloc, events, line, rest.as_slice())
        }
        Expr::Call { callee, args, keys } => {
            uses(alloc, events, line, callee.get())?;
            uses_all(alloc, events, line, args.as_slice())?;
            uses_keys(alloc, events, line, keys.as_slice())
        }
    }
}

/// Adds the uses of names in these expressions.
#[cycle(uses)]
fn uses_all(
    alloc: Global,
    events: &mut Vec<Event>,
    line: u32,
    items: &[Expr],
) -> Result<(), NoMemory>
    ensures { OnOk result (events.new.items ≡ events.old.items ++ at line (flat_map acts_of items.now)) }
{
    for item in items {
        uses(alloc, events, line, item)?;
    }
    Ok(())
}

/// Adds the uses of names in the keys and values of a display.
#[cycle(uses)]
fn uses_pairs(
    alloc: Global,
    events: &mut Vec<Event>,
    line: u32,
    pairs: &[(Expr, Expr)],
) -> Result<(), NoMemory>
    ensures { OnOk result (events.new.items ≡ events.old.items ++ at line (flat_map (λ pair. acts_of pair.0 ++ acts_of pair.1) pairs.now)) }
{
    for (key, value) in pairs {
        uses(alloc, events, line, key)?;
        uses(alloc, events, line, value)?;
    }
    Ok(())
}

/// Adds the uses of names in the operands of a comparison but the first.
#[cycle(uses)]
fn uses_compared(
    alloc: Global,
    events: &mut Vec<Event>,
    line: u32,
    rest: &[(CompareOp, Expr)],
) -> Result<(), NoMemory>
    ensures { OnOk result (events.new.items ≡ events.old.items ++ at line (flat_map (λ pair. acts_of pair.1) rest.now)) }
{
    for (_, value) in rest {
        uses(alloc, events, line, value)?;
    }
    Ok(())
}

/// Adds the uses of names in keyword arguments.
#[cycle(uses)]
fn uses_keys(
    alloc: Global,
    events: &mut Vec<Event>,
    line: u32,
    keys: &[(Text, Expr)],
) -> Result<(), NoMemory>
    ensures { OnOk result (events.new.items ≡ events.old.items ++ at line (flat_map (λ pair. acts_of pair.1) keys.now)) }
{
    for (_, value) in keys {
        uses(alloc, events, line, value)?;
    }
    Ok(())
}
