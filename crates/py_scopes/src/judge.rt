//! The first fault of a text, and its locals.

ghost use Rattle.std.specs.Prelude.{◌≡◌, [], ◌∷◌, ◌++◌, length, filter, map, not, OnOk, IfOk, IfSome, IfNone};
ghost use Rattle.py_scopes.specs.declared.names.Tells.TheVariants.{Bound as bound_names, Declared as declared_names};
ghost use Rattle.py_scopes.specs.Names.{has, names_in, bytes_of};
ghost use Rattle.py_scopes.specs.Asked.{Asks};
ghost use Rattle.py_scopes.specs.Scopes.{own, marks, is_local as local_test, is_found as found_test};
ghost use Rattle.py_scopes.specs.Scopes.{is_captured as captured_test, is_late as late_test, fault as fault_of};
ghost use Rattle.py_scopes.specs.Scopes.{wrong as wrong_of, locals_below, IsFirst, AreFaultless};

use crate::event::{Act, Event};
use crate::names::{Tells, are_empty, is_in, step};
use indexmap::IndexSet;
use mpy_base::{Items, NoMemory, SourceCode, SourceFault, Text};
use std::alloc::Global;

/// Is the name local to this function: bound in it, and not declared global?
fn is_local(
    bound: &[IndexSet<Vec<u8>>],
    declared: &[IndexSet<Vec<u8>>],
    f: usize,
    name: &[u8],
) -> bool
    ensures { result ≡ local_test (names_in bound.now) (names_in declared.now) f name.now }
{
    is_in(bound, f, name) && !is_in(declared, f, name)
}

/// Whether the name is local to the first of these functions that decides.
fn is_found(
    bound: &[IndexSet<Vec<u8>>],
    declared: &[IndexSet<Vec<u8>>],
    name: &[u8],
    around: &[usize],
) -> bool
    ensures { result ≡ found_test (names_in bound.now) (names_in declared.now) name.now around.now }
{
    for f in around {
        if is_local(bound, declared, *f, name) {
            return true;
        }
        if is_in(declared, *f, name) {
            return false;
        }
    }
    false
}

/// Is the name, in the innermost of these functions, one that is local to a function around it?
fn is_captured(
    bound: &[IndexSet<Vec<u8>>],
    declared: &[IndexSet<Vec<u8>>],
    name: &[u8],
    around: &[usize],
) -> bool
    ensures { result ≡ captured_test (names_in bound.now) (names_in declared.now) name.now around.now }
{
    if around.is_empty() {
        return false;
    }
    if !is_found(bound, declared, name, &around[1..]) {
        return false;
    }
    let inner = around[0];
    !is_local(bound, declared, inner, name) && !is_in(declared, inner, name)
}

/// Has the name occurred in the innermost of these functions before?
fn is_late(seen: &[IndexSet<Vec<u8>>], name: &[u8], around: &[usize]) -> bool
    ensures { result ≡ late_test (names_in seen.now) name.now around.now }
{
    !around.is_empty() && is_in(seen, around[0], name)
}

/// A fault that names this name.
fn fault(
    alloc: Global,
    code: SourceCode,
    line: u32,
    name: &[u8],
) -> Result<Option<SourceFault>, NoMemory>
    ensures { IfOk result (λ o. o ≡ fault_of code line name.now) }
{
    let word = Text::new(alloc, name)?;
    Ok(Some(SourceFault { code, line, word }))
}

/// What is wrong with an event.
fn wrong(
    alloc: Global,
    bound: &[IndexSet<Vec<u8>>],
    declared: &[IndexSet<Vec<u8>>],
    seen: &[IndexSet<Vec<u8>>],
    around: &[usize],
    event: &Event,
) -> Result<Option<SourceFault>, NoMemory>
    ensures { IfOk result (λ o. o ≡ wrong_of (names_in bound.now) (names_in declared.now) (names_in seen.now) around.now event.now.line event.now.act) }
{
    match &event.act {
        Act::Use(name) => {
            if !is_captured(bound, declared, name.bytes(), around) {
                return Ok(None);
            }
            fault(alloc, SourceCode::Capture, event.line, name.bytes())
        }
        Act::Declare(name) => {
            if !is_late(seen, name.bytes(), around) {
                return Ok(None);
            }
            fault(alloc, SourceCode::LateGlobal, event.line, name.bytes())
        }
        Act::Jump(looped) => {
            if *looped {
                return Ok(None);
            }
            fault(alloc, SourceCode::OutsideLoop, event.line, b"")
        }
        Act::Return => {
            if !around.is_empty() {
                return Ok(None);
            }
            fault(alloc, SourceCode::OutsideFunction, event.line, b"")
        }
        Act::Bind(_) | Act::Enter | Act::Leave => Ok(None),
    }
}

/// The names that are asked for in front of an event: those that occur, and none where no name is declared.
fn asked_names(declared: &[IndexSet<Vec<u8>>]) -> Tells
    ensures { Asks result (names_in declared.now) }
{
    if are_empty(declared) {
        Tells::Declared
    } else {
        Tells::Occurring
    }
}

/// The fault that stands first.
pub(crate) fn first_fault(
    alloc: Global,
    bound: &[IndexSet<Vec<u8>>],
    declared: &[IndexSet<Vec<u8>>],
    events: &[Event],
) -> Result<Option<SourceFault>, NoMemory>
    requires bound_are { names_in bound.now ≡ own bound_names (marks events.now) }
    requires declared_are { names_in declared.now ≡ own declared_names (marks events.now) }
    ensures some { IfOk result (λ o. IfSome o (IsFirst (marks events.now))) }
    ensures none { IfOk result (λ o. IfNone o (AreFaultless (marks events.now))) }
{
    let tells = asked_names(declared);
    let mut around = Vec::new(alloc);
    let mut seen = Vec::new(alloc);
    for event in events {
        if let Some(fault) = wrong(alloc, bound, declared, &seen, &around, event)? {
            return Ok(Some(fault));
        }
        step(alloc, &mut seen, &mut around, tells, event)?;
    }
    Ok(None)
}

/// Puts the name at the end where the function doesn't declare it global.
fn keep(
    alloc: Global,
    names: &mut Items<Text>,
    declared: &[IndexSet<Vec<u8>>],
    f: usize,
    name: &[u8],
) -> Result<(), NoMemory>
    ensures { OnOk result (names.new ≡ names.old ++ filter (λ one. not (has one (names_in declared.now f))) (name.now ∷ [])) }
{
    if !is_in(declared, f, name) {
        names.push(Text::new(alloc, name)?)?;
    }
    Ok(())
}

/// The locals of a function: the names bound in it that it doesn't declare global.
fn locals(
    alloc: Global,
    keys: &[Vec<u8>],
    declared: &[IndexSet<Vec<u8>>],
    f: usize,
) -> Result<Items<Text>, NoMemory>
    ensures { IfOk result (λ names. names ≡ filter (λ name. not (has name (names_in declared.now f))) (map bytes_of keys.now)) }
{
    let mut names = Items::new(alloc);
    for key in keys {
        keep(alloc, &mut names, declared, f, key)?;
    }
    Ok(names)
}

/// The locals of each function.
pub(crate) fn locals_of_each(
    alloc: Global,
    bound: &[IndexSet<Vec<u8>>],
    declared: &[IndexSet<Vec<u8>>],
) -> Result<Vec<Items<Text>>, NoMemory>
    ensures { IfOk result (λ slots. slots.items ≡ locals_below (names_in bound.now) (names_in declared.now) (length bound.now)) }
{
    let mut slots = Vec::new(alloc);
    for (f, set) in bound.iter().enumerate() {
        slots.push(locals(alloc, set.as_slice(), declared, f)?)?;
    }
    Ok(slots)
}
