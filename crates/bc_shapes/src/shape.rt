//! Handler entries, and what holds of a position.

ghost use Rattle.std.specs.Prelude.{◌≡◌, ◌↔◌, IsTrue, length};
ghost use Rattle.bc_shapes.specs.Shape as specs;
ghost use Rattle.bc_shapes.specs.Views.{at_of};

use crate::kinds::Kind;
use crate::slots::both;

/// A handler entry.
#[derive(Clone, Copy, Debug, PartialEq, Eq)]
pub struct Entry {
    /// The handler's position.
    pub handler: usize,
    pub is_finally: bool,
    /// From the handler's position on.
    pub active: bool,
    /// How many slots stood there when it was pushed.
    pub height: usize,
}

/// What holds of a position, the topmost slot and entry first.
#[derive(Debug, Drop)]
pub struct Shape {
    pub slots: Vec<Kind>,
    pub entries: Vec<Entry>,
}

/// Are the two equal?
fn same_bool(a: bool, b: bool) -> bool
    ensures { result ≡ specs.same_bool a b }
{
    if a { b } else { !b }
}

/// Are these the same, each part?
pub fn same_entry(d: Entry, e: Entry) -> bool
    ensures { result ≡ specs.same_entry d e }
{
    d.handler == e.handler
        && same_bool(d.is_finally, e.is_finally)
        && same_bool(d.active, e.active)
        && d.height == e.height
}

/// Are these the same entries?
#[tactic(auto, using(crate::proofs::Order::entries_end, crate::proofs::Order::entries_differ))]
pub fn same_entries(ds: &[Entry], es: &[Entry]) -> bool
    ensures { result ≡ specs.same_entries ds.now es.now }
{
    if ds.len() != es.len() {
        return false;
    }
    for i in 0..ds.len() {
        if !same_entry(ds[i], es[i]) {
            return false;
        }
    }
    true
}

/// May a slot of the one kind stand where the other is?
fn is_below(one: Kind, other: Kind) -> bool
    ensures { IsTrue result ↔ specs.Below one other }
{
    match one {
        Kind::Either => matches!(other, Kind::Value | Kind::Cause | Kind::Either),
        _ => one == other,
    }
}

/// Does each slot lie below the other one in its place? All are looked at, which is fast where there are many.
fn are_below(ks: &[Kind], ls: &[Kind]) -> bool
    requires { length ks.now ≡ length ls.now }
    ensures { IsTrue result ↔ specs.Belows ks.now ls.now }
{
    let mut fine = true;
    for i in 0..ks.len() {
        fine = both(fine, is_below(ks[i], ls[i]));
    }
    fine
}

/// Does each slot of the one shape lie below that of the other, with the same entries?
pub fn under(x: &Shape, y: &Shape) -> bool
    ensures { IsTrue result ↔ specs.Under (at_of x.now) (at_of y.now) }
{
    if x.slots.len() != y.slots.len() {
        return false;
    }
    same_entries(&x.entries, &y.entries) && are_below(&x.slots, &y.slots)
}
