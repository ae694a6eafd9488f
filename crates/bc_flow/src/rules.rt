//! The rules on one position.

ghost use Rattle.std.specs.Prelude.{◌≡◌, ◌+◌, ◌-◌, ◌<◌, ◌≤◌, ◌&&◌, ℕ, drop, length, map, min, nat_le, nat_lt, if◌then◌else◌};
ghost use Rattle.bc_shapes.specs.Spans.{FitsBut};
ghost use Rattle.bc_shapes.specs.Views.{at_of};
ghost use Rattle.bc_flow.specs.Edges as specs;
ghost use Rattle.bc_flow.specs.Code.{code_of, locals};
ghost use Rattle.bc_flow.specs.Views.{action_of, edge_of_rust};

use crate::action::Action;
use crate::code::Code;
use crate::edges::{Change, Edge, change_of, entries_behind, falls, gives, gives_there, takes};
use bc_shapes::{Entry, Kind, Shape, Span, fits, fits_again};

/// Does it find the entries that it asks for?
fn asks(change: Change, entries: &[Entry]) -> bool
    ensures { result ≡ specs.asks change entries.now }
{
    match change {
        Change::Keep | Change::Push(_, _) => true,
        Change::DropExcept => match entries {
            [top, ..] => !top.is_finally,
            [] => false,
        },
        Change::DropActive => match entries {
            [top, ..] => top.active,
            [] => false,
        },
        Change::Leave(count) => count <= entries.len(),
    }
}

/// Is the entry active exactly from its handler's position on?
fn is_marked(to: usize, entry: Entry) -> bool
    ensures { result ≡ (if entry.active then nat_le entry.handler to else nat_lt to entry.handler) }
{
    if entry.active {
        entry.handler <= to
    } else {
        to < entry.handler
    }
}

/// Is each entry that arrives active exactly from its handler's position on?
#[tactic(auto, using(crate::proofs::Loops::marked_end))]
pub fn are_marked(edge: Edge) -> bool
    ensures { result ≡ specs.is_marked edge.entry.to (edge_of_rust edge.entry).at.entries }
{
    for i in 0..edge.entries.len() {
        if !is_marked(edge.to, edge.entry(i)) {
            return false;
        }
    }
    true
}

/// Are the entries of all edges marked as they must be?
fn all_marked(edges: &[Edge]) -> bool
    ensures { result ≡ specs.edges_marked (map edge_of_rust edges.now) }
{
    for edge in edges {
        if !are_marked(*edge) {
            return false;
        }
    }
    true
}

/// Does it find the entries that it asks for, and are there no more behind it than there may be?
pub fn fits_entries(code: &Code, action: &Action, slots: usize, entries: &[Entry]) -> bool
    ensures { result ≡ (specs.asks (specs.change (action_of action.now)) entries.now
        && nat_le (length (specs.behind (specs.change (action_of action.now)) slots entries.now)) code.now.n_exc) }
{
    let behind = entries_behind(change_of(action), slots, entries);
    asks(change_of(action), entries) && behind.len() <= code.n_exc
}

/// The rule Handlers, but for the entries that meet.
pub fn holds(code: &Code, action: &Action, x: &Shape, edges: &[Edge]) -> bool
    ensures { result ≡ specs.holds_over (code_of code.now) (action_of action.now) (at_of x.now)
        (map edge_of_rust edges.now) }
{
    fits_entries(code, action, x.slots.len(), &x.entries) && all_marked(edges)
}

/// The height of the entry below `n` others, or 0 where there is none.
#[tactic(auto, using(crate::proofs::Loops::floor_at, crate::proofs::Loops::floor_past))]
fn floor_below(entries: &[Entry], n: usize) -> usize
    ensures { result ≡ specs.floor (drop n entries.now) }
{
    if n < entries.len() {
        entries[n].height
    } else {
        0
    }
}

/// The height of the top entry that remains.
fn floor(change: Change, entries: &[Entry]) -> usize
    ensures { result ≡ specs.floor_of change entries.now }
{
    match change {
        Change::Leave(count) => floor_below(entries, count),
        _ => floor_below(entries, 0),
    }
}

/// The lesser of two numbers.
fn lower(a: usize, b: usize) -> usize
    ensures { result ≡ min a b }
{
    a.min(b)
}

/// How many of `slots` slots remain once the `count` topmost entries are left, each with a cut to its height.
#[tactic(auto, using(crate::proofs::Loops::lowest_end))]
fn lowest(count: usize, entries: &[Entry], slots: usize) -> usize
    ensures { result ≡ specs.lowest count entries.now slots }
{
    let mut least = slots;
    for (i, entry) in entries.iter().enumerate() {
        if i >= count {
            return least;
        }
        least = lower(entry.height, least);
    }
    least
}

/// How many of `slots` slots it works on: those that remain when the entries are left that it leaves.
#[inline(always)]
pub fn left(change: Change, entries: &[Entry], slots: usize) -> usize
    ensures { result ≡ specs.left change entries.now slots }
{
    match change {
        Change::Leave(count) => lowest(count, entries, slots),
        _ => slots,
    }
}

/// Does the entry that is dropped leave its height?
fn leaves(change: Change, entries: &[Entry], slots: usize) -> bool
    ensures { result ≡ specs.leaves change entries.now slots }
{
    match change {
        Change::DropExcept | Change::DropActive => slots == floor_below(entries, 0),
        _ => true,
    }
}

/// The slots that an instruction works on: those that remain when the entries are left that it leaves.
#[inline(always)]
#[tactic(auto, unfolding(crate::specs::Edges::base))]
pub fn base<'a>(action: &Action, x: &'a Shape) -> &'a [Kind]
    ensures { result.now ≡ specs.base (action_of action.now) (at_of x.now) }
{
    let slots = x.slots.len();
    let left = left(change_of(action), &x.entries, slots);
    &x.slots[slots.saturating_sub(left)..]
}

/// Does none of the slots that are taken lie below the height of the top entry that remains?
fn deep(change: Change, entries: &[Entry], taken: usize, slots: usize) -> bool
    ensures { result ≡ specs.deep change entries.now taken slots }
{
    if taken <= slots {
        let left = slots - taken;
        floor(change, entries) <= left && leaves(change, entries, left)
    } else {
        false
    }
}

/// Are there the slots that the instruction takes, of the kinds that it asks for, and none of them below an entry that remains (the rule
/// Height, but for the shapes that meet)?
#[tactic(auto, unfolding(crate::specs::Edges::finds))]
pub fn finds(action: &Action, x: &Shape, base: &[Kind]) -> bool
    requires { base.now ≡ specs.base (action_of action.now) (at_of x.now) }
    ensures { result ≡ specs.finds (action_of action.now) (at_of x.now) }
{
    let takes = takes(action);
    fits(takes, base) && deep(change_of(action), &x.entries, takes.len(), base.len())
}

/// As `finds`, where that held before slots of the span changed.
#[inline(always)]
#[tactic(auto, unfolding(crate::specs::Edges::finds))]
pub(crate) fn finds_again(action: &Action, x: &Shape, base: &[Kind], span: Span) -> bool
    requires base_is { base.now ≡ specs.base (action_of action.now) (at_of x.now) }
    requires asked { FitsBut span (specs.takes (action_of action.now)) base.now }
    ensures { result ≡ specs.finds (action_of action.now) (at_of x.now) }
{
    let takes = takes(action);
    fits_again(takes, base, span) && deep(change_of(action), &x.entries, takes.len(), base.len())
}

/// Is there room for `slots` slots beside the locals?
fn has_room(locals: usize, slots: usize, n_state: usize) -> bool
    ensures { result ≡ nat_le (locals + slots) n_state }
{
    slots <= n_state && locals <= n_state - slots
}

/// Is there room before an instruction, behind it and where it jumps?
fn has_all_room(code: &Code, locals: usize, before: usize, next: usize, there: usize) -> bool
    ensures { result ≡ specs.has_room locals code.now.n_state before next there }
{
    has_room(locals, before, code.n_state)
        && has_room(locals, next, code.n_state)
        && has_room(locals, there, code.n_state)
}

/// Is there room for the locals and the slots before the instruction, behind it and where it jumps (the rule State)?
pub fn room(code: &Code, locals: usize, action: &Action, x: &Shape, base: &[Kind]) -> bool
    requires base_is { base.now ≡ specs.base (action_of action.now) (at_of x.now) }
    requires locals_are { locals ≡ (code_of code.now).locals }
    ensures { result ≡ specs.room (code_of code.now) (action_of action.now) (at_of x.now) }
{
    let left = base.len().saturating_sub(takes(action).len());
    let next = gives(action).len() + left;
    let there = gives_there(action).len() + left;
    has_all_room(code, locals, x.slots.len(), next, there)
}

/// Does the flow stay in the code behind the instruction (the rule Falls)?
#[tactic(auto, unfolding(crate::specs::Edges::stays))]
pub fn stays(code: &Code, action: &Action, p: usize) -> bool
    requires { p < length code.now.items.items }
    ensures { result ≡ specs.stays (code_of code.now) (action_of action.now) p }
{
    !falls(action) || p + 1 < code.items.len()
}
