//! What the parts of a statement do.

ghost use Rattle.std.specs.Prelude.{◌≡◌, ◌++◌, OnOk, map};
ghost use Rattle.std.specs.List.{flat_map};
ghost use Rattle.py_scopes.specs.Events.{at, acts_of, acts_of_option, target_acts, bound_by, import_acts, optional_name, first_part as first_name};
ghost use Rattle.py_scopes.specs.declared.event.Act.TheVariants as acts;

use crate::event::{Act, Event};
use crate::targets::{target_binds, targets_bind};
use crate::uses::{put, uses};
use mpy_base::{NoMemory, Text};
use py_tree::{Alias, Expr, Param, Target};
use std::alloc::Global;

/// The uses of names in an expression, if there is one.
pub(crate) fn option_uses(
    alloc: Global,
    events: &mut Vec<Event>,
    line: u32,
    expr: &Option<Expr>,
) -> Result<(), NoMemory>
    ensures { OnOk result (events.new.items ≡ events.old.items ++ at line (acts_of_option expr.now)) }
{
    match expr {
        None => Ok(()),
        Some(expr) => uses(alloc, events, line, expr),
    }
}

/// The binding of a name, if there is one.
pub(crate) fn name_binds(
    alloc: Global,
    events: &mut Vec<Event>,
    line: u32,
    name: &Option<Text>,
) -> Result<(), NoMemory>
    ensures { OnOk result (events.new.items ≡ events.old.items ++ at line (optional_name name.now)) }
{
    match name {
        None => Ok(()),
        Some(name) => put(events, line, Act::Bind(Text::new(alloc, name.bytes())?)),
    }
}

/// The declarations of `global` names.
pub(crate) fn declares(
    alloc: Global,
    events: &mut Vec<Event>,
    line: u32,
    names: &[Text],
) -> Result<(), NoMemory>
    ensures { OnOk result (events.new.items ≡ events.old.items ++ at line (map acts.Declare names.now)) }
{
    for name in names {
        put(events, line, Act::Declare(Text::new(alloc, name.bytes())?))?;
    }
    Ok(())
}

/// The name in front of the first dot.
fn first_part(bytes: &[u8]) -> &[u8]
    ensures { result.now ≡ first_name bytes.now }
{
    let mut len = 0;
    while len < bytes.len() && bytes[len] != b'.' {
        len += 1;
    }
    &bytes[..len]
}

/// The name that an import binds.
fn bound_name(alias: &Alias) -> &[u8]
    ensures { result.now ≡ bound_by alias.now }
{
    match &alias.bound {
        None => first_part(alias.name.bytes()),
        Some(name) => name.bytes(),
    }
}

/// The bindings of what is imported.
pub(crate) fn imports(
    alloc: Global,
    events: &mut Vec<Event>,
    line: u32,
    names: &[Alias],
) -> Result<(), NoMemory>
    ensures { OnOk result (events.new.items ≡ events.old.items ++ at line (import_acts names.now)) }
{
    for alias in names {
        put(
            events,
            line,
            Act::Bind(Text::new(alloc, bound_name(alias))?),
        )?;
    }
    Ok(())
}

/// The uses of names in the defaults of parameters.
pub(crate) fn defaults_use(
    alloc: Global,
    events: &mut Vec<Event>,
    line: u32,
    params: &[Param],
) -> Result<(), NoMemory>
    ensures { OnOk result (events.new.items ≡ events.old.items ++ at line (flat_map (λ param. acts_of_option param.default) params.now)) }
{
    for param in params {
        option_uses(alloc, events, line, &param.default)?;
    }
    Ok(())
}

/// The bindings of parameters.
pub(crate) fn params_bind(
    alloc: Global,
    events: &mut Vec<Event>,
    line: u32,
    params: &[Param],
) -> Result<(), NoMemory>
    ensures { OnOk result (events.new.items ≡ events.old.items ++ at line (map (λ param. acts.Bind param.name) params.now)) }
{
    for param in params {
        put(
            events,
            line,
            Act::Bind(Text::new(alloc, param.name.bytes())?),
        )?;
    }
    Ok(())
}

/// The bindings of an assignment to several targets, and then the uses in its value.
pub(crate) fn targets_take(
    alloc: Global,
    events: &mut Vec<Event>,
    line: u32,
    targets: &[Target],
    value: &Expr,
) -> Result<(), NoMemory>
    ensures { OnOk result (events.new.items ≡ events.old.items ++ at line (flat_map target_acts targets.now ++ acts_of value.now)) }
{
    targets_bind(alloc, events, line, targets)?;
    uses(alloc, events, line, value)
}

/// The bindings of an assignment to one target, and then the uses in its value.
pub(crate) fn target_takes(
    alloc: Global,
    events: &mut Vec<Event>,
    line: u32,
    target: &Target,
    value: &Expr,
) -> Result<(), NoMemory>
    ensures { OnOk result (events.new.items ≡ events.old.items ++ at line (target_acts target.now ++ acts_of value.now)) }
{
    target_binds(alloc, events, line, target)?;
    uses(alloc, events, line, value)
}
