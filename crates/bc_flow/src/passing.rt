//! Slots that changed pass along the edges of a position whose rules still hold. What holds there isn't copied: it is out of the
//! table meanwhile.

ghost use Rattle.std.specs.Prelude.{◌≡◌, ◌<◌, ◌&&◌, ℕ, IfOk, OnOk, IfSome, length, map, suc, nat_lt, set, slice_get, Some, true};
ghost use Rattle.std.specs.BinaryHeap.{heap_items};
ghost use Rattle.std.specs.Bool.{OnTrue};
ghost use Rattle.bc_shapes.specs.Shape.{At};
ghost use Rattle.bc_shapes.specs.declared.span.Span.{Span as SpecSpan};
ghost use Rattle.bc_shapes.specs.Views.{at_of};
ghost use Rattle.bc_flow.specs.Edges as edges_specs;
ghost use Rattle.bc_flow.specs.Code.{Code as SpecCode, code_of};
ghost use Rattle.bc_flow.specs.Holes.{Away, Passes, filled, leaving, leaving_list, without};
ghost use Rattle.bc_flow.specs.Verified as specs;
ghost use Rattle.bc_flow.specs.Verified.{IsPending, Assigned, at, done_at};
ghost use Rattle.bc_flow.specs.Queue.{Queued};
ghost use Rattle.bc_flow.specs.Spans.{EachOutside, Remembers, Since, updated};
ghost use Rattle.bc_flow.specs.Views.{action_of, behind_of, edge_of_rust, has_if, option_list, table_of, visit_of};

use crate::action::Action;
use crate::code::{Code, Rule};
use crate::edges::{
    Behind, Edge, change_of, entries_behind, falls, jump_edge, next_edge, raise_edge, run_count,
};
use crate::rules::{base, finds_again};
use crate::walk::{State, changed_at, forget, is_clear, put_edge};
use bc_shapes::{Kind, NoMemory, Shape, Span};
use std::alloc::Global;
use std::cmp::Reverse;
use std::collections::BinaryHeap;
use std::mem;

/// The edges that leave a position where no finally handler is run.
#[derive(Clone, Copy)]
pub(crate) struct Leaving<'a> {
    pub next: Option<Edge<'a>>,
    pub jump: Option<Edge<'a>>,
    pub raise: Option<Edge<'a>>,
}

/// Does the flow go on to a next position?
#[inline(always)]
fn goes_on(action: &Action, p: usize, size: usize) -> bool
    requires { p < size }
    ensures { result ≡ (edges_specs.falls (action_of action.now) && nat_lt (suc p) size) }
{
    falls(action) && p + 1 < size
}

/// The edge to the next position, where the flow goes there.
#[inline(always)]
fn next_if<'a>(
    action: &Action,
    p: usize,
    size: usize,
    behind: Behind<'a>,
    base: &'a [Kind],
) -> Option<Edge<'a>>
    requires { p < size }
    ensures { (x : At) → base.now ≡ edges_specs.base (action_of action.now) x
        → map edge_of_rust (option_list result) ≡ map (edges_specs.edge_of (action_of action.now) x)
        (edges_specs.next_way (edges_specs.falls (action_of action.now) && nat_lt (suc p) size) p (behind_of behind.entry)) }
{
    if goes_on(action, p, size) {
        Some(next_edge(action, p, behind, base))
    } else {
        None
    }
}

/// The edges that leave a position of a code of that size.
#[inline(always)]
fn edges_from<'a>(action: &Action, p: usize, size: usize, x: &'a Shape) -> Leaving<'a>
    requires { p < size }
    ensures { (code : SpecCode) → length code.actions ≡ size
        → edges_specs.runs (action_of action.now) (length x.now.entries.items) ≡ 0
        → leaving_list result ≡ edges_specs.edges code (action_of action.now) p (at_of x.now) }
{
    let base = base(action, x);
    let behind = entries_behind(change_of(action), x.slots.len(), &x.entries);
    Leaving {
        next: next_if(action, p, size, behind, base),
        jump: jump_edge(action, behind, base),
        raise: raise_edge(x),
    }
}

/// Does the edge, if there is one, lead to another position?
#[inline(always)]
fn is_away(edge: Option<Edge>, p: usize) -> bool
    ensures { OnTrue result (Away p (map edge_of_rust (option_list edge.entry))) }
{
    match edge {
        Some(edge) => edge.to != p,
        None => true,
    }
}

/// Do all edges lead to other positions?
#[inline(always)]
#[tactic(auto, using(crate::proofs::Holes::away_both))]
fn are_away(leaving: Leaving, p: usize) -> bool
    ensures { OnTrue result (Away p (leaving_list leaving.entry)) }
{
    is_away(leaving.next, p) && is_away(leaving.jump, p) && is_away(leaving.raise, p)
}

/// The slots that changed at a pending position since its visit, if all its rules still hold and its edges lead elsewhere.
pub(crate) fn slots_to_pass(
    code: &Code,
    action: &Action,
    states: &[State],
    changes: &[Option<Span>],
    p: usize,
) -> Option<Span>
    requires long { length states.now ≡ length code.now.items.items }
    requires within { p < length code.now.items.items }
    requires action_is { slice_get (code_of code.now).actions p ≡ Some (action_of action.now) }
    requires remembers { (old : Assigned) × Remembers (code_of code.now) old (table_of states.now) changes.now }
    ensures { (x : At) → IsPending (table_of states.now) p x
        → IfSome result (λ s. Passes (code_of code.now) (table_of states.now) p x (action_of action.now) s) }
{
    let span = changed_at(changes, p)?;
    let State::Pending(x) = &states[p] else {
        return None;
    };
    let base = base(action, x);
    if run_count(action, x.entries.len()) != 0 {
        return None;
    }
    if !is_clear(action, base, span) {
        return None;
    }
    if !are_away(edges_from(action, p, code.items.len(), x), p) {
        return None;
    }
    if !finds_again(action, x, base, span) {
        return None;
    }
    Some(span)
}

/// Takes what holds at a pending position out of the table.
#[inline(always)]
fn take_out(states: &mut Vec<State>, p: usize) -> Shape
    requires within { p < length states.now.items }
    requires pending { (x : At) × IsPending (table_of states.now.items) p x }
    ensures table { table_of states.new.items ≡ without (table_of states.old.items) p }
    ensures shape { (x : At) → IsPending (table_of states.old.items) p x → at_of result ≡ x }
{
    match mem::replace(&mut states[p], State::Unseen) {
        State::Pending(x) => x,
        _ => unreachable!(),
    }
}

/// Puts it back, as that of a position that was visited.
#[inline(always)]
fn put_back(states: &mut Vec<State>, p: usize, x: Shape)
    ensures { table_of states.new.items ≡ filled (table_of states.old.items) p (at_of x) }
{
    if p < states.len() {
        states[p] = State::Done(x);
    }
}

/// Nothing is known of a position's visits.
#[inline(always)]
#[tactic(auto, using(crate::proofs::Spans::past_none, crate::proofs::Holes::none_set))]
fn unnote(changes: &mut Vec<Option<Span>>, p: usize)
    ensures here { (s : SpecSpan) → slice_get changes.new.items p ≡ Some (Some s) → ⊥ }
    ensures others { (q : ℕ) → (q ≡ p → ⊥) → slice_get changes.new.items q ≡ slice_get changes.old.items q }
{
    if p < changes.len() {
        changes[p] = None;
    }
}

/// Lets the shape of an edge arrive, if there is one and it may.
#[inline(always)]
fn put_if(
    alloc: Global,
    states: &mut Vec<State>,
    queue: &mut BinaryHeap<Reverse<usize>>,
    changes: &mut Vec<Option<Span>>,
    edge: Option<Edge>,
    among: Option<Span>,
) -> Result<bool, NoMemory>
    requires agree { specs.agree (table_of states.now.items) (map edge_of_rust (option_list edge)) ≡ true }
    requires outside { EachOutside among (at (table_of states.now.items)) (map edge_of_rust (option_list edge)) }
    ensures table { IfOk result (λ b. has_if b states.new.items
        ≡ specs.put_next (map edge_of_rust (option_list edge.entry)) (Some (table_of states.old.items))) }
    ensures queued { Queued (table_of states.old.items) (heap_items queue.old)
        → IfOk result (λ b. OnTrue b (Queued (table_of states.new.items) (heap_items queue.new))) }
    ensures since { (old : Assigned) → Since old (at (table_of states.old.items)) changes.old.items
        → IfOk result (λ b. OnTrue b (Since old (at (table_of states.new.items)) changes.new.items)) }
{
    match edge {
        Some(edge) => put_edge(alloc, states, queue, changes, edge, among),
        None => Ok(true),
    }
}

/// Lets the shapes of a position's edges arrive, if they may.
#[inline(always)]
fn put_leaving(
    alloc: Global,
    states: &mut Vec<State>,
    queue: &mut BinaryHeap<Reverse<usize>>,
    changes: &mut Vec<Option<Span>>,
    action: &Action,
    p: usize,
    size: usize,
    x: &Shape,
    among: Option<Span>,
) -> Result<bool, NoMemory>
    requires within { p < size }
    requires agree { specs.agree (table_of states.now.items) (leaving (action_of action.now) p size (at_of x.now)) ≡ true }
    requires outside { EachOutside among (at (table_of states.now.items)) (leaving (action_of action.now) p size (at_of x.now)) }
    ensures table { IfOk result (λ b. has_if b states.new.items
        ≡ specs.put_next (leaving (action_of action.now) p size (at_of x.now)) (Some (table_of states.old.items))) }
    ensures queued { Queued (table_of states.old.items) (heap_items queue.old)
        → IfOk result (λ b. OnTrue b (Queued (table_of states.new.items) (heap_items queue.new))) }
    ensures since { (old : Assigned) → Since old (at (table_of states.old.items)) changes.old.items
        → IfOk result (λ b. OnTrue b (Since old (at (table_of states.new.items)) changes.new.items)) }
{
    let base = base(action, x);
    let behind = entries_behind(change_of(action), x.slots.len(), &x.entries);
    let next = next_if(action, p, size, behind, base);
    if !put_if(alloc, states, queue, changes, next, among)? {
        return Ok(false);
    }
    let jump = jump_edge(action, behind, base);
    if !put_if(alloc, states, queue, changes, jump, among)? {
        return Ok(false);
    }
    put_if(alloc, states, queue, changes, raise_edge(x), among)
}

/// Lets the shapes of the edges of a position that is out of the table arrive, or answers the rule that is broken.
#[inline(always)]
fn leave(
    alloc: Global,
    states: &mut Vec<State>,
    queue: &mut BinaryHeap<Reverse<usize>>,
    changes: &mut Vec<Option<Span>>,
    action: &Action,
    p: usize,
    size: usize,
    x: &Shape,
    among: Option<Span>,
) -> Result<Result<(), Rule>, NoMemory>
    requires within { p < size }
    requires agree { specs.agree (table_of states.now.items) (leaving (action_of action.now) p size (at_of x.now)) ≡ true }
    requires outside { EachOutside among (at (table_of states.now.items)) (leaving (action_of action.now) p size (at_of x.now)) }
    ensures table { IfOk result (λ r. visit_of r states.new.items
        ≡ specs.after_put true true (specs.put_next (leaving (action_of action.now) p size (at_of x.now)) (Some (table_of states.old.items)))) }
    ensures queued { Queued (table_of states.old.items) (heap_items queue.old)
        → IfOk result (λ r. OnOk r (Queued (table_of states.new.items) (heap_items queue.new))) }
    ensures since { (old : Assigned) → Since old (at (table_of states.old.items)) changes.old.items
        → IfOk result (λ r. OnOk r (Since old (at (table_of states.new.items)) changes.new.items)) }
{
    if put_leaving(alloc, states, queue, changes, action, p, size, x, among)? {
        Ok(Ok(()))
    } else {
        Ok(Err(Rule::Height))
    }
}

/// Visits a pending position where these slots changed and all its rules still hold: they pass along its edges, if they may.
pub(crate) fn pass(
    alloc: Global,
    code: &Code,
    action: &Action,
    states: &mut Vec<State>,
    queue: &mut BinaryHeap<Reverse<usize>>,
    changes: &mut Vec<Option<Span>>,
    p: usize,
    span: Span,
) -> Result<Result<(), Rule>, NoMemory>
    requires long { length states.now.items ≡ length code.now.items.items }
    requires within { p < length code.now.items.items }
    requires pending { (x : At) × IsPending (table_of states.now.items) p x }
    requires action_is { slice_get (code_of code.now).actions p ≡ Some (action_of action.now) }
    requires passes { (x : At) → IsPending (table_of states.now.items) p x
        → Passes (code_of code.now) (table_of states.now.items) p x (action_of action.now) span }
    requires remembers { (old : Assigned) × Remembers (code_of code.now) old (table_of states.now.items) changes.now.items }
    ensures table { (x : At) → IsPending (table_of states.old.items) p x → IfOk result (λ r. visit_of r states.new.items
        ≡ specs.visit (code_of code.now) (table_of states.old.items) p x) }
    ensures queued { (x : At) → IsPending (table_of states.old.items) p x
        → Queued (done_at (table_of states.old.items) p x) (heap_items queue.old)
        → IfOk result (λ r. OnOk r (Queued (table_of states.new.items) (heap_items queue.new))) }
    ensures remembers { IfOk result (λ r. OnOk r ((old : Assigned)
        × Remembers (code_of code.now) old (table_of states.new.items) changes.new.items)) }
{
    let x = take_out(states, p);
    unnote(changes, p);
    let size = code.items.len();
    let left = leave(
        alloc,
        states,
        queue,
        changes,
        action,
        p,
        size,
        &x,
        Some(span),
    );
    put_back(states, p, x);
    forget(changes, p);
    left
}
