//! The names of each function's own text.

ghost use Rattle.std.specs.Prelude.{◌≡◌, ℕ, ◌<◌, List, [], ◌∷◌, ◌++◌, length, All, IsTrue, OnOk, IfOk, if◌then◌else◌, option_copied, nat_eq};
ghost use Rattle.py_scopes.specs.Names.{has, added, names_in};
ghost use Rattle.py_scopes.specs.Scopes.{Mark, mark, told as names_told, own, marks, functions, around_behind, next_behind};

use crate::event::{Act, Event};
use indexmap::IndexSet;
use mpy_base::NoMemory;
use std::alloc::Global;

/// A set of names for each function, by its number.
pub(crate) type Sets = Vec<IndexSet<Vec<u8>>>;

/// Which names of a text are meant.
#[derive(Clone, Copy)]
pub enum Tells {
    Bound,
    Declared,
    Occurring,
}

/// The name that an act tells of those that are meant, if it does.
fn told(tells: Tells, act: &Act) -> Option<&[u8]>
    ensures { option_copied result ≡ names_told tells act.now }
{
    match (tells, act) {
        (Tells::Bound, Act::Bind(name)) => Some(name.bytes()),
        (Tells::Declared, Act::Declare(name)) => Some(name.bytes()),
        (Tells::Occurring, Act::Use(name)) => Some(name.bytes()),
        (Tells::Occurring, Act::Bind(name)) => Some(name.bytes()),
        _ => None,
    }
}

/// Whether the name is among those of the function.
pub(crate) fn is_in(sets: &[IndexSet<Vec<u8>>], f: usize, name: &[u8]) -> bool
    ensures { result ≡ has name.now (names_in sets.now f) }
{
    if f >= sets.len() {
        return false;
    }
    sets[f].contains(name)
}

/// Is no name in any of the sets?
pub(crate) fn are_empty(sets: &[IndexSet<Vec<u8>>]) -> bool
    ensures { IsTrue result → (f : ℕ) → names_in sets.now f ≡ [] }
{
    for set in sets {
        if set.len() > 0 {
            return false;
        }
    }
    true
}

/// Puts the name among those of the function. One that is there already takes no memory.
fn add(alloc: Global, sets: &mut Sets, f: usize, name: &[u8]) -> Result<(), NoMemory>
    requires { f < length sets.old.items }
    ensures count { OnOk result (length sets.new.items ≡ length sets.old.items) }
    ensures names { OnOk result ((g : ℕ)
        → names_in sets.new.items g ≡ (if nat_eq g f then added (names_in sets.old.items g) name.now else names_in sets.old.items g)) }
{
    if is_in(sets, f, name) {
        return Ok(());
    }
    sets[f].insert(Vec::from_slice(alloc, name)?)?;
    Ok(())
}

/// Puts the name that the event tells among those of the innermost function.
fn tell(
    alloc: Global,
    sets: &mut Sets,
    around: &[usize],
    tells: Tells,
    event: &Event,
) -> Result<(), NoMemory>
    requires { All (λ f. f < length sets.old.items) around.now }
    ensures count { OnOk result (length sets.new.items ≡ length sets.old.items) }
    ensures names { OnOk result ((front : List Mark) → names_in sets.old.items ≡ own tells front
        → names_in sets.new.items ≡ own tells (front ++ mark event.now around.now ∷ [])) }
{
    if around.is_empty() {
        return Ok(());
    }
    match told(tells, &event.act) {
        None => Ok(()),
        Some(name) => add(alloc, sets, around[0], name),
    }
}

/// Goes behind an act: a function that begins is the innermost one, with no names yet.
fn follow(
    alloc: Global,
    sets: &mut Sets,
    around: &mut Vec<usize>,
    act: &Act,
) -> Result<(), NoMemory>
    requires { All (λ f. f < length sets.old.items) around.old.items }
    ensures around { OnOk result (around.new.items ≡ around_behind act.now (length sets.old.items) around.old.items) }
    ensures count { OnOk result (length sets.new.items ≡ next_behind act.now (length sets.old.items)) }
    ensures inside { OnOk result (All (λ f. f < length sets.new.items) around.new.items) }
    ensures names { OnOk result (names_in sets.new.items ≡ names_in sets.old.items) }
{
    match act {
        Act::Enter => {
            around.insert(0, sets.len())?;
            sets.push(IndexSet::new(alloc))?;
        }
        Act::Leave => {
            if !around.is_empty() {
                around.remove(0);
            }
        }
        _ => (),
    }
    Ok(())
}

/// Goes behind an event.
pub(crate) fn step(
    alloc: Global,
    sets: &mut Sets,
    around: &mut Vec<usize>,
    tells: Tells,
    event: &Event,
) -> Result<(), NoMemory>
    requires { All (λ f. f < length sets.old.items) around.old.items }
    ensures around { OnOk result (around.new.items ≡ around_behind event.now.act (length sets.old.items) around.old.items) }
    ensures count { OnOk result (length sets.new.items ≡ next_behind event.now.act (length sets.old.items)) }
    ensures inside { OnOk result (All (λ f. f < length sets.new.items) around.new.items) }
    ensures names { OnOk result ((front : List Mark) → names_in sets.old.items ≡ own tells front
        → names_in sets.new.items ≡ own tells (front ++ mark event.now around.old.items ∷ [])) }
{
    tell(alloc, sets, around, tells, event)?;
    follow(alloc, sets, around, &event.act)
}

/// The names of a whole text.
pub(crate) fn table(alloc: Global, events: &[Event], tells: Tells) -> Result<Sets, NoMemory>
    ensures count { IfOk result (λ sets. length sets.items ≡ functions events.now) }
    ensures names { IfOk result (λ sets. names_in sets.items ≡ own tells (marks events.now)) }
{
    let mut around = Vec::new(alloc);
    let mut sets = Vec::new(alloc);
    for event in events {
        step(alloc, &mut sets, &mut around, tells, event)?;
    }
    Ok(sets)
}
