//! The table of the positions, and the walk that works through the pending ones, the least first.

ghost use Rattle.std.specs.Prelude.{◌≡◌, ◌+◌, ◌<◌, ◌≤◌, ◌↔◌, ◌&&◌, not, Bool, List, is_some, IfOk, OnOk, IfErr, IfSome, IfNone};
ghost use Rattle.std.specs.Prelude.{ℕ, drop, length, map, option_map, slice_get, Some, None, [], true, MatchOption};
ghost use Rattle.std.specs.BinaryHeap.{heap_items};
ghost use Rattle.std.specs.Bool.{OnTrue, OnFalse};
ghost use Rattle.bc_shapes.specs.Shape.{At, same_entries};
ghost use Rattle.bc_shapes.specs.Spans.{In, FitsBut};
ghost use Rattle.bc_shapes.specs.declared.span.Span.{Span as SpecSpan};
ghost use Rattle.bc_shapes.specs.Views.{at_of};
ghost use Rattle.bc_flow.specs.Edges as edges_specs;
ghost use Rattle.bc_flow.specs.Code.{Code as SpecCode, code_of};
ghost use Rattle.bc_flow.specs.declared.code.Code.{Code as RustCode};
ghost use Rattle.bc_flow.specs.Machine.{NeverStuck};
ghost use Rattle.bc_flow.specs.Verified as specs;
ghost use Rattle.bc_flow.specs.Verified.{Verified, Holds, FirstFault, IsLeast, IsLeastOf, IsPending, Decides, Reached, Assigned, Table, at, done_at, seen};
ghost use Rattle.bc_flow.specs.Judged.{Judges};
ghost use Rattle.bc_flow.specs.Queue.{Queued};
ghost use Rattle.bc_flow.specs.Spans.{EachOutside, IsClear, Keeps, Outside, Remembers, Since, StillHolds, updated};
ghost use Rattle.bc_flow.specs.Views.{action_of, edge_of_rust, cell_of, cell_if, table_of, visit_of, has_if};

use crate::action::{Action, action_at};
use crate::code::{Code, Fault, Rule, locals};
use crate::edges::{Edge, all_edges, gives, gives_there};
use crate::passing::{pass, slots_to_pass};
use crate::rules::{base, finds, finds_again, holds, room, stays};
use bc_shapes::{Entry, Kind, NoMemory, Shape, Span, join, keeps_all, same_entry, union};
use std::alloc::Global;
use std::cmp::Reverse;
use std::collections::BinaryHeap;
use std::mem;

/// What is known of a position.
#[derive(Debug, Drop)]
pub enum State {
    /// The flow hasn't come there.
    Unseen,
    /// What holds there has changed since it was visited.
    Pending(Shape),
    Done(Shape),
}

/// Are these the entries that arrive?
#[tactic(auto, using(crate::proofs::Loops::entries_end, crate::proofs::Loops::entries_differ))]
pub fn same_entries(entries: &[Entry], edge: Edge) -> bool
    ensures { result ≡ same_entries entries.now (edge_of_rust edge.entry).at.entries }
{
    let count = edge.entries.len();
    if entries.len() != count {
        return false;
    }
    for i in 0..count {
        if !same_entry(entries[i], edge.entry(i)) {
            return false;
        }
    }
    true
}

/// Do the same entries arrive along both edges?
#[tactic(auto, using(crate::proofs::Loops::arriving_end, crate::proofs::Loops::arriving_differ))]
fn same_arrive(edge: Edge, other: Edge) -> bool
    ensures { result ≡ same_entries (edge_of_rust edge.entry).at.entries (edge_of_rust other.entry).at.entries }
{
    let count = edge.entries.len();
    if other.entries.len() != count {
        return false;
    }
    for i in 0..count {
        if !same_entry(edge.entry(i), other.entry(i)) {
            return false;
        }
    }
    true
}

/// Are the entries that arrive those that hold there, if any do?
fn agrees_state(state: &State, edge: Edge) -> bool
    ensures { result ≡ specs.agrees_cell (cell_of state.now) (edge_of_rust edge.entry).at.entries }
{
    match state {
        State::Unseen => true,
        State::Pending(shape) => same_entries(&shape.entries, edge),
        State::Done(shape) => same_entries(&shape.entries, edge),
    }
}

/// Are the entries that arrive those that hold there, if any do?
#[tactic(auto, using(crate::proofs::Tables::agrees_in, crate::proofs::Tables::agrees_out))]
fn agrees(states: &[State], edge: Edge) -> bool
    ensures { result ≡ specs.agrees (table_of states.now) edge.entry.to (edge_of_rust edge.entry).at.entries }
{
    if edge.to < states.len() {
        agrees_state(&states[edge.to], edge)
    } else {
        false
    }
}

/// Does none of the edges bring other entries to the same position?
#[tactic(auto, using(crate::proofs::Tables::others_step, bc_shapes::proofs::Loops::and_first))]
pub fn others(edge: Edge, edges: &[Edge]) -> bool
    ensures { result ≡ specs.others (edge_of_rust edge.entry) (map edge_of_rust edges.now) }
{
    for other in edges {
        let fine = edge.to != other.to || same_arrive(edge, *other);
        if !fine {
            return false;
        }
    }
    true
}

/// Do all lists of entries that meet agree?
#[tactic(auto, using(crate::proofs::Tables::agree_step, bc_shapes::proofs::Loops::and_first))]
fn agree(states: &[State], edges: &[Edge]) -> bool
    ensures { result ≡ specs.agree (table_of states.now) (map edge_of_rust edges.now) }
{
    for (k, edge) in edges.iter().enumerate() {
        if !agrees(states, *edge) {
            return false;
        }
        if !others(*edge, &edges[k + 1..]) {
            return false;
        }
    }
    true
}

/// Marks a visited state as pending.
#[inline(always)]
fn reopen(state: &mut State)
    ensures { (x : At) → cell_of state.old ≡ specs.Done x → cell_of state.new ≡ specs.Pending x }
{
    let old = mem::replace(state, State::Unseen);
    if let State::Done(x) = old {
        *state = State::Pending(x);
    }
}

/// Lets what an edge brings meet a state with the same entries, if it may.
#[inline(always)]
#[tactic(auto, using(crate::proofs::Spans::below_lies, crate::proofs::Spans::keeps_none, crate::proofs::Spans::keeps_slots, crate::proofs::Tables::meet_unseen, crate::proofs::Tables::meet_pending, crate::proofs::Tables::meet_changed, crate::proofs::Tables::meet_kept, crate::proofs::Tables::refuse_pending, crate::proofs::Tables::refuse_done))]
fn meet(
    alloc: Global,
    state: &mut State,
    edge: Edge,
    among: Option<Span>,
    span: &mut Span,
) -> Result<bool, NoMemory>
    requires agrees { specs.agrees_cell (cell_of state.now) (edge_of_rust edge).at.entries ≡ true }
    requires outside { Outside among (edge_of_rust edge).at (seen (cell_of state.now)) }
    ensures meets { IfOk result (λ b. cell_if b state.new ≡ specs.meet (cell_of state.old) (edge_of_rust edge.entry).at) }
    ensures keeps { IfOk result (λ b. OnTrue b (Keeps span.new (seen (cell_of state.old)) (seen (cell_of state.new)))) }
{
    match state {
        State::Unseen => {
            *state = State::Pending(edge.shape(alloc)?);
            Ok(true)
        }
        State::Pending(x) => match join(&mut x.slots, edge.slots, among, span) {
            Some(_) => Ok(true),
            None => Ok(false),
        },
        State::Done(x) => match join(&mut x.slots, edge.slots, among, span) {
            Some(true) => {
                reopen(state);
                Ok(true)
            }
            Some(false) => Ok(true),
            None => Ok(false),
        },
    }
}

/// Lets what the edge brings arrive, if it may.
#[inline(always)]
fn put(
    alloc: Global,
    states: &mut Vec<State>,
    edge: Edge,
    among: Option<Span>,
    span: &mut Span,
) -> Result<bool, NoMemory>
    requires agrees { specs.agrees (table_of states.now.items) edge.to (edge_of_rust edge).at.entries ≡ true }
    requires outside { Outside among (edge_of_rust edge).at (at (table_of states.now.items) edge.to) }
    ensures puts { IfOk result (λ b. has_if b states.new.items
        ≡ specs.put (table_of states.old.items) edge.entry.to (edge_of_rust edge.entry).at) }
    ensures keeps { IfOk result (λ b. OnTrue b (Keeps span.new (at (table_of states.old.items) edge.entry.to)
        (at (table_of states.new.items) edge.entry.to))) }
{
    meet(alloc, &mut states[edge.to], edge, among, span)
}

/// The slots of a position that changed since it was visited, or none where it wasn't.
#[inline(always)]
#[tactic(auto, using(crate::proofs::Spans::past_none))]
pub(crate) fn changed_at(changes: &[Option<Span>], p: usize) -> Option<Span>
    ensures some { (s : SpecSpan) → result ≡ Some s → slice_get changes.now p ≡ Some (Some s) }
    ensures all { (s : SpecSpan) → slice_get changes.now p ≡ Some (Some s) → result ≡ Some s }
{
    if p < changes.len() { changes[p] } else { None }
}

/// Adds slots to those of a position that changed since it was visited, if it was.
#[inline(always)]
fn widen(changes: &mut Vec<Option<Span>>, p: usize, span: Span)
    ensures here { (s : SpecSpan) → slice_get changes.new.items p ≡ Some (Some s) → (r : SpecSpan)
        × (slice_get changes.old.items p ≡ Some (Some r))
        × ((n : ℕ) → In r n → In s n) × ((n : ℕ) → In span n → In s n) }
    ensures others { (q : ℕ) → (q ≡ p → ⊥) → slice_get changes.new.items q ≡ slice_get changes.old.items q }
{
    if let Some(before) = changed_at(changes, p) {
        changes[p] = Some(union(before, span));
    }
}

/// Does a position wait for its visit?
#[inline(always)]
fn is_pending(states: &[State], n: usize) -> bool
    ensures yes { OnTrue result ((y : At) × IsPending (table_of states.now) n y) }
    ensures no { OnFalse result ((y : At) → IsPending (table_of states.now) n y → ⊥) }
{
    n < states.len() && matches!(&states[n], State::Pending(_))
}

/// Lets the shape of an edge arrive, if it may, and queues the position where it gets pending.
#[inline(always)]
pub(crate) fn put_edge(
    alloc: Global,
    states: &mut Vec<State>,
    queue: &mut BinaryHeap<Reverse<usize>>,
    changes: &mut Vec<Option<Span>>,
    edge: Edge,
    among: Option<Span>,
) -> Result<bool, NoMemory>
    requires agrees { specs.agrees (table_of states.now.items) edge.to (edge_of_rust edge).at.entries ≡ true }
    requires outside { Outside among (edge_of_rust edge).at (at (table_of states.now.items) edge.to) }
    ensures table { IfOk result (λ b. has_if b states.new.items
        ≡ specs.put (table_of states.old.items) edge.entry.to (edge_of_rust edge.entry).at) }
    ensures queued { Queued (table_of states.old.items) (heap_items queue.old)
        → IfOk result (λ b. OnTrue b (Queued (table_of states.new.items) (heap_items queue.new))) }
    ensures since { (old : Assigned) → Since old (at (table_of states.old.items)) changes.old.items
        → IfOk result (λ b. OnTrue b (Since old (at (table_of states.new.items)) changes.new.items)) }
{
    let was_pending = is_pending(states, edge.to);
    let mut span = Span { from: 0, to: 0 };
    if !put(alloc, states, edge, among, &mut span)? {
        return Ok(false);
    }
    widen(changes, edge.to, span);
    if !was_pending && is_pending(states, edge.to) {
        queue.push(Reverse(edge.to))?;
    }
    Ok(true)
}

/// Lets all edges arrive, if they may.
fn put_all(
    alloc: Global,
    states: &mut Vec<State>,
    queue: &mut BinaryHeap<Reverse<usize>>,
    changes: &mut Vec<Option<Span>>,
    edges: &[Edge],
    among: Option<Span>,
) -> Result<bool, NoMemory>
    requires agree { specs.agree (table_of states.now.items) (map edge_of_rust edges.now) ≡ true }
    requires outside { EachOutside among (at (table_of states.now.items)) (map edge_of_rust edges.now) }
    ensures table { IfOk result (λ b. has_if b states.new.items
        ≡ specs.put_next (map edge_of_rust edges.now) (Some (table_of states.old.items))) }
    ensures queued { Queued (table_of states.old.items) (heap_items queue.old)
        → IfOk result (λ b. OnTrue b (Queued (table_of states.new.items) (heap_items queue.new))) }
    ensures since { (old : Assigned) → Since old (at (table_of states.old.items)) changes.old.items
        → IfOk result (λ b. OnTrue b (Since old (at (table_of states.new.items)) changes.new.items)) }
{
    for edge in edges {
        if !put_edge(alloc, states, queue, changes, *edge, among)? {
            return Ok(false);
        }
    }
    Ok(true)
}

/// Notes that a pending position has been visited; its shape stays.
fn set_done(states: &mut Vec<State>, p: usize)
    requires { p < length states.now.items }
    ensures { (x : At) → IsPending (table_of states.old.items) p x
        → table_of states.new.items ≡ specs.done_at (table_of states.old.items) p x }
{
    let old = mem::replace(&mut states[p], State::Unseen);
    if let State::Pending(x) = old {
        states[p] = State::Done(x);
    }
}

/// What the rules say of one position, and the edges that leave it.
#[derive(Drop)]
struct Judged<'a> {
    handlers: bool,
    meets: bool,
    height: bool,
    state: bool,
    falls: bool,
    edges: Vec<Edge<'a>>,
    /// The slots that are still to arrive along the edges, or none where all are.
    among: Option<Span>,
}

/// Does all that it gives again lie above the slots?
#[inline(always)]
pub(crate) fn is_clear(action: &Action, base: &[Kind], span: Span) -> bool
    ensures { OnTrue result (IsClear (action_of action.now) (length base.now) span) }
{
    let above = base.len().saturating_sub(span.to);
    keeps_all(gives(action), above) && keeps_all(gives_there(action), above)
}

/// The slots of a position that changed since it was visited, if its instruction keeps clear of them.
fn clear_at(changes: &[Option<Span>], p: usize, action: &Action, base: &[Kind]) -> Option<Span>
    ensures { IfSome result (λ s. (slice_get changes.now p ≡ Some (Some s))
        × IsClear (action_of action.now) (length base.now) s) }
{
    let span = changed_at(changes, p)?;
    if is_clear(action, base, span) {
        Some(span)
    } else {
        None
    }
}

/// Judges a position by all that the rules ask of it, whatever was known before.
fn judge_all<'a>(
    code: &Code,
    locals: usize,
    states: &[State],
    action: &Action,
    p: usize,
    x: &'a Shape,
    base: &'a [Kind],
    edges: Vec<Edge<'a>>,
) -> Judged<'a>
    requires within { p < length code.now.items.items }
    requires locals_are { locals ≡ (code_of code.now).locals }
    requires action_is { slice_get (code_of code.now).actions p ≡ Some (action_of action.now) }
    requires base_is { base.now ≡ edges_specs.base (action_of action.now) (at_of x.now) }
    requires along { map edge_of_rust edges.items ≡ edges_specs.edges (code_of code.now) (action_of action.now) p (at_of x.now) }
    ensures { Judges (code_of code.now) (table_of states.now) p (at_of x.now) result }
{
    Judged {
        handlers: holds(code, action, x, &edges),
        meets: agree(states, &edges),
        height: finds(action, x, base),
        state: room(code, locals, action, x, base),
        falls: stays(code, action, p),
        edges,
        among: None,
    }
}

/// Judges a position that keeps its rules but for those slots that it takes which changed.
fn judge_again<'a>(
    action: &Action,
    x: &'a Shape,
    base: &'a [Kind],
    edges: Vec<Edge<'a>>,
    span: Span,
) -> Judged<'a>
    requires base_is { base.now ≡ edges_specs.base (action_of action.now) (at_of x.now) }
    requires asked { FitsBut span (edges_specs.takes (action_of action.now)) base.now }
    ensures { (code : SpecCode) (t : Table) (p : ℕ) → slice_get code.actions p ≡ Some (action_of action.now)
        → map edge_of_rust edges.entry.items ≡ edges_specs.edges code (action_of action.now) p (at_of x.now)
        → StillHolds code t p (at_of x.now) (action_of action.now) span
        → Judges code t p (at_of x.now) result }
{
    Judged {
        handlers: true,
        meets: true,
        height: finds_again(action, x, base, span),
        state: true,
        falls: true,
        edges,
        among: Some(span),
    }
}

/// Judges a position. One that was visited keeps its rules but for the slots that it takes, where none of those that changed is
/// given again.
fn judge<'a>(
    alloc: Global,
    code: &Code,
    locals: usize,
    states: &[State],
    changes: &[Option<Span>],
    p: usize,
    x: &'a Shape,
) -> Result<Judged<'a>, NoMemory>
    requires within { p < length code.now.items.items }
    requires locals_are { locals ≡ (code_of code.now).locals }
    requires is { at (table_of states.now) p ≡ Some (at_of x.now) }
    requires remembers { (old : Assigned) × Remembers (code_of code.now) old (table_of states.now) changes.now }
    ensures { IfOk result (λ j. Judges (code_of code.now) (table_of states.now) p (at_of x.now) j) }
{
    let action = action_at(code.items.len(), code.items[p]);
    let base = base(&action, x);
    let edges = all_edges(alloc, code, &action, p, x, base)?;
    if let Some(span) = clear_at(changes, p, &action, base) {
        return Ok(judge_again(&action, x, base, edges, span));
    }
    Ok(judge_all(code, locals, states, &action, p, x, base, edges))
}

/// None of a position's slots have changed since its visit.
#[inline(always)]
pub(crate) fn forget(changes: &mut Vec<Option<Span>>, p: usize)
    ensures { (q : ℕ) → (q ≡ p → ⊥) → slice_get changes.new.items q ≡ slice_get changes.old.items q }
{
    if p < changes.len() {
        changes[p] = Some(Span { from: 0, to: 0 });
    }
}

/// Marks the position as visited and lets its edges arrive, or answers the rule that is broken.
fn act(
    alloc: Global,
    states: &mut Vec<State>,
    queue: &mut BinaryHeap<Reverse<usize>>,
    changes: &mut Vec<Option<Span>>,
    p: usize,
    judged: &Judged,
) -> Result<Result<(), Rule>, NoMemory>
    requires within { p < length states.now.items }
    requires pending { (x : At) × IsPending (table_of states.now.items) p x }
    requires meets { judged.now.meets ≡ specs.agree (table_of states.now.items) (map edge_of_rust judged.now.edges.items) }
    requires outside { EachOutside judged.now.among (at (table_of states.now.items)) (map edge_of_rust judged.now.edges.items) }
    ensures table { (x : At) → IsPending (table_of states.old.items) p x → IfOk result (λ r. visit_of r states.new.items
        ≡ specs.after_holds (judged.now.handlers && judged.now.meets) judged.now.height judged.now.state judged.now.falls
        (specs.put_next (map edge_of_rust judged.now.edges.items) (Some (done_at (table_of states.old.items) p x)))) }
    ensures queued { (x : At) → IsPending (table_of states.old.items) p x
        → Queued (done_at (table_of states.old.items) p x) (heap_items queue.old)
        → IfOk result (λ r. OnOk r (Queued (table_of states.new.items) (heap_items queue.new))) }
    ensures since { (x : At) → IsPending (table_of states.old.items) p x
        → (old : Assigned) → Since old (at (table_of states.old.items)) changes.old.items
        → IfOk result (λ r. OnOk r (Since (updated old p x) (at (table_of states.new.items)) changes.new.items)) }
{
    if !judged.handlers {
        return Ok(Err(Rule::Handlers));
    }
    if !judged.meets {
        return Ok(Err(Rule::Handlers));
    }
    if !judged.height {
        return Ok(Err(Rule::Height));
    }
    set_done(states, p);
    forget(changes, p);
    if !put_all(alloc, states, queue, changes, &judged.edges, judged.among)? {
        return Ok(Err(Rule::Height));
    }
    if !judged.state {
        return Ok(Err(Rule::State));
    }
    if !judged.falls {
        return Ok(Err(Rule::Falls));
    }
    Ok(Ok(()))
}

/// Makes the one shape the other.
pub fn copy(x: &mut Shape, y: &Shape) -> Result<(), NoMemory>
    ensures { OnOk result (at_of x.new ≡ at_of y.now) }
{
    x.slots.clear();
    x.slots.extend_from_slice(&y.slots)?;
    x.entries.clear();
    x.entries.extend_from_slice(&y.entries)?;
    Ok(())
}

/// Copies what holds at a pending position.
fn read(x: &mut Shape, states: &[State], p: usize) -> Result<(), NoMemory>
    requires within { p < length states.now }
    requires pending { (y : At) × IsPending (table_of states.now) p y }
    ensures { (y : At) → IsPending (table_of states.now) p y → OnOk result (at_of x.new ≡ y) }
{
    match &states[p] {
        State::Pending(y) => copy(x, y),
        _ => unreachable!(),
    }
}

/// Tries the rules at a pending position, in their order, and lets its edges arrive. What holds there is copied into `x`
/// meanwhile.
fn visit_anew(
    alloc: Global,
    code: &Code,
    locals: usize,
    states: &mut Vec<State>,
    queue: &mut BinaryHeap<Reverse<usize>>,
    changes: &mut Vec<Option<Span>>,
    x: &mut Shape,
    p: usize,
) -> Result<Result<(), Rule>, NoMemory>
    requires long { length states.now.items ≡ length code.now.items.items }
    requires within { p < length code.now.items.items }
    requires pending { (x : At) × IsPending (table_of states.now.items) p x }
    requires locals_are { locals ≡ (code_of code.now).locals }
    requires remembers { (old : Assigned) × Remembers (code_of code.now) old (table_of states.now.items) changes.now.items }
    ensures table { (x : At) → IsPending (table_of states.old.items) p x → IfOk result (λ r. visit_of r states.new.items
        ≡ specs.visit (code_of code.now) (table_of states.old.items) p x) }
    ensures queued { (x : At) → IsPending (table_of states.old.items) p x
        → Queued (done_at (table_of states.old.items) p x) (heap_items queue.old)
        → IfOk result (λ r. OnOk r (Queued (table_of states.new.items) (heap_items queue.new))) }
    ensures remembers { IfOk result (λ r. OnOk r ((old : Assigned)
        × Remembers (code_of code.now) old (table_of states.new.items) changes.new.items)) }
{
    read(x, states, p)?;
    let judged = judge(alloc, code, locals, states, changes, p, x)?;
    act(alloc, states, queue, changes, p, &judged)
}

/// Visits a pending position. What holds there is copied into `x` only where it has to be judged anew.
fn visit(
    alloc: Global,
    code: &Code,
    locals: usize,
    states: &mut Vec<State>,
    queue: &mut BinaryHeap<Reverse<usize>>,
    changes: &mut Vec<Option<Span>>,
    x: &mut Shape,
    p: usize,
) -> Result<Result<(), Rule>, NoMemory>
    requires long { length states.now.items ≡ length code.now.items.items }
    requires within { p < length code.now.items.items }
    requires pending { (x : At) × IsPending (table_of states.now.items) p x }
    requires locals_are { locals ≡ (code_of code.now).locals }
    requires remembers { (old : Assigned) × Remembers (code_of code.now) old (table_of states.now.items) changes.now.items }
    ensures table { (x : At) → IsPending (table_of states.old.items) p x → IfOk result (λ r. visit_of r states.new.items
        ≡ specs.visit (code_of code.now) (table_of states.old.items) p x) }
    ensures queued { (x : At) → IsPending (table_of states.old.items) p x
        → Queued (done_at (table_of states.old.items) p x) (heap_items queue.old)
        → IfOk result (λ r. OnOk r (Queued (table_of states.new.items) (heap_items queue.new))) }
    ensures remembers { IfOk result (λ r. OnOk r ((old : Assigned)
        × Remembers (code_of code.now) old (table_of states.new.items) changes.new.items)) }
{
    let action = action_at(code.items.len(), code.items[p]);
    match slots_to_pass(code, &action, states, changes, p) {
        Some(span) => pass(alloc, code, &action, states, queue, changes, p, span),
        None => visit_anew(alloc, code, locals, states, queue, changes, x, p),
    }
}

/// Takes the least pending position out of the queue.
#[inline(always)]
fn least(states: &[State], queue: &mut BinaryHeap<Reverse<usize>>) -> Option<usize>
    requires { Queued (table_of states.now) (heap_items queue.now) }
    ensures some { IfSome result (λ p. (x : At) × IsLeast (table_of states.now) p x
        × Queued (done_at (table_of states.now) p x) (heap_items queue.new)) }
    ensures none { IfNone result ((p : ℕ) (x : At) → IsPending (table_of states.now) p x → ⊥) }
{
    while let Some(Reverse(p)) = queue.pop() {
        if is_pending(states, p) {
            return Some(p);
        }
    }
    None
}

/// What holds at the start: no slots and no entries.
pub fn nothing(alloc: Global) -> Shape
    ensures { at_of result ≡ specs.begin }
{
    Shape {
        slots: Vec::new(alloc),
        entries: Vec::new(alloc),
    }
}

/// The table at the start: position 0 is pending, with nothing.
#[tactic(auto, using(crate::proofs::Tables::table_more))]
fn start(alloc: Global, size: usize) -> Result<Vec<State>, NoMemory>
    ensures { IfOk result (λ v. table_of v.items ≡ specs.table_at size) }
{
    let mut states = Vec::with_capacity(alloc, size)?;
    if size > 0 {
        states.push(State::Pending(nothing(alloc)))?;
        for _i in 1..size {
            states.push(State::Unseen)?;
        }
    }
    Ok(states)
}

/// The changes of `size` positions of which none was visited.
fn unvisited(alloc: Global, size: usize) -> Result<Vec<Option<Span>>, NoMemory>
    ensures { IfOk result (λ v. (p : ℕ) (s : SpecSpan) → slice_get v.items p ≡ Some (Some s) → ⊥) }
{
    let mut changes = Vec::with_capacity(alloc, size)?;
    for _i in 0..size {
        changes.push(None)?;
    }
    Ok(changes)
}

/// The changes of no position. They take no memory.
fn no_changes(alloc: Global) -> Vec<Option<Span>>
    ensures { result.items ≡ [] }
{
    Vec::new(alloc)
}

/// Makes room for the slots that change, once `visits` is the number of positions, so that the next visit may be of one again.
#[tactic(auto, using(crate::proofs::Spans::since_none))]
fn keep_changes(
    alloc: Global,
    changes: &mut Vec<Option<Span>>,
    visits: usize,
    size: usize,
) -> Result<(), NoMemory>
    ensures { (old a : Assigned) → Since old a changes.old.items → OnOk result (Since old a changes.new.items) }
{
    if visits == size {
        *changes = unvisited(alloc, size)?;
    }
    Ok(())
}

/// The slots and entries of each position that is reached, the least that there are, or the first fault.
pub fn flow(alloc: Global, code: &Code) -> Result<Result<Vec<State>, Fault>, NoMemory>
    // What is found meets the rules along all edges, and lies below all else that does.
    ensures holds { IfOk result (λ r. IfOk r (λ v. Holds (code_of code.now) (at (table_of v.items)))) }
    ensures least { IfOk result (λ r. IfOk r (λ v. IsLeastOf (code_of code.now) (at (table_of v.items)))) }
    ensures reached { IfOk result (λ r. IfOk r (λ v. Reached (code_of code.now) (table_of v.items))) }

    // A fault is the first, and then nothing meets the rules.
    ensures faults { IfOk result (λ r. IfErr r (λ f. FirstFault (code_of code.now) f.rule f.position)) }
    ensures none { IfOk result (λ r. IfErr r (λ f. Verified (code_of code.now) → ⊥)) }
{
    let size = code.items.len();
    if size == 0 {
        return Ok(Err(Fault {
            rule: Rule::Falls,
            position: 0,
        }));
    }
    let locals = locals(code);
    let mut states = start(alloc, size)?;
    let mut queue = BinaryHeap::new(alloc);
    let mut changes = no_changes(alloc);
    let mut visits: usize = 0;
    let mut x = nothing(alloc);
    queue.push(Reverse(0))?;
    while let Some(p) = least(&states, &mut queue) {
        keep_changes(alloc, &mut changes, visits, size)?;
        visits = visits.saturating_add(1);
        if let Err(rule) = visit(
            alloc,
            code,
            locals,
            &mut states,
            &mut queue,
            &mut changes,
            &mut x,
            p,
        )? {
            return Ok(Err(Fault { rule, position: p }));
        }
    }
    Ok(Ok(states))
}

/// Whichever pending position is taken each time, the walk decides whether a code is verified, and ends with the same.
pub fn order()
    ensures { (code : SpecCode) → Decides code }
{}

/// Along verified code, whatever raises and whichever way branches go, no step meets a missing or wrong slot, leaves the
/// code, or passes n_state or n_exc.
pub fn progress()
    ensures { (code : RustCode) → Verified (code_of code) → NeverStuck (code_of code) }
{}

/// A code has at most one first fault.
pub fn one_fault()
    ensures { (code : SpecCode) (r s : Rule) (p q : ℕ) → FirstFault code r p → FirstFault code s q
        → (r ≡ s) × (p ≡ q) }
{}
