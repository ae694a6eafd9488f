//! Where the flow goes from an instruction, and the handler entries and slots that arrive there.

ghost use Rattle.std.specs.Prelude.{◌≡◌, ◌+◌, ◌-◌, ◌^◌, ◌<◌, ◌≤◌, ◌++◌, ◌∷◌, [], suc, IfOk, OnOk, ℕ, List, drop, length, map, min, Some, true, if◌then◌else◌};
ghost use Rattle.bc_shapes.specs.Shape.{At};
ghost use Rattle.bc_shapes.specs.declared.kinds.Give.TheVariants.{New};
ghost use Rattle.bc_shapes.specs.Views.{at_of, takes_of, gives_of, slots_of_rust};
ghost use Rattle.bc_flow.specs.Action.{Action as Does};
ghost use Rattle.bc_flow.specs.Edges as specs;
ghost use Rattle.bc_flow.specs.Code.{code_of};
ghost use Rattle.bc_flow.specs.Views.{action_of, edge_of_rust, behind_of, option_list, AddsEdges};

use crate::action::Action;
use crate::code::Code;
use bc_shapes::{Entry, Give, Gives, Kind, NoMemory, Shape, Slots, Takes, Want, below};
use std::alloc::Global;

/// What an instruction does with the entries.
#[derive(Clone, Copy)]
pub enum Change {
    Keep,
    /// Pushes the entry of a handler, which is a finally handler or not.
    Push(usize, bool),
    /// Drops the top entry, which is an except entry.
    DropExcept,
    /// Drops the top entry, which is active.
    DropActive,
    /// Drops that number of the topmost entries, each with a cut to its height.
    Leave(usize),
}

/// Entries as a new one, if there is one, on others.
#[derive(Clone, Copy)]
pub struct Behind<'a> {
    pub new: Option<Entry>,
    pub rest: &'a [Entry],
}

impl<'a> Behind<'a> {
    ghost use Rattle.std.specs.Prelude.{◌≡◌, ◌<◌, length, slice_index_or};
    ghost use Rattle.bc_flow.specs.Views.{behind_of};

    /// How many entries these are.
    pub fn len(self) -> usize
        ensures { result ≡ length (behind_of self.entry) }
    {
        match self.new {
            Some(_) => self.rest.len() + 1,
            None => self.rest.len(),
        }
    }

    /// The entry below `i` others.
    #[tactic(auto, using(crate::proofs::Loops::at_cons, bc_shapes::proofs::Loops::at_rest))]
    pub fn at(self, i: usize) -> Entry
        requires { i < length (behind_of self) }
        ensures { (d : Entry) → result ≡ slice_index_or (behind_of self.entry) i d }
    {
        match self.new {
            Some(entry) if i == 0 => entry,
            Some(_) => self.rest[i - 1],
            None => self.rest[i],
        }
    }
}

/// A position that the flow goes to, the slots that arrive there, and the entries without their marks.
#[derive(Clone, Copy)]
pub struct Edge<'a> {
    pub to: usize,
    pub slots: Slots<'a>,
    pub entries: Behind<'a>,
}

impl<'a> Edge<'a> {
    ghost use Rattle.std.specs.Prelude.{◌≡◌, ◌<◌, IfOk, OnOk, length, slice_index_or};
    ghost use Rattle.bc_shapes.specs.Views.{at_of};
    ghost use Rattle.bc_flow.specs.Views.{edge_of_rust, behind_of};
    ghost use Rattle.bc_flow.specs.Edges as specs;

    /// The entry below `i` others, as it arrives.
    pub fn entry(self, i: usize) -> Entry
        requires { i < length (behind_of self.entries) }
        ensures { (d : Entry) → result ≡ specs.mark self.entry.to (slice_index_or (behind_of self.entry.entries) i d) }
    {
        mark(self.to, self.entries.at(i))
    }

    /// Makes the list that of the entries that arrive.
    #[tactic(auto, using(crate::proofs::Loops::mark_more, crate::proofs::Loops::mark_all))]
    fn write_entries(self, list: &mut Vec<Entry>) -> Result<(), NoMemory>
        ensures { OnOk result (list.new.items ≡ (edge_of_rust self.entry).at.entries) }
    {
        let count = self.entries.len();
        list.clear();
        for i in 0..count {
            list.push(self.entry(i))?;
        }
        Ok(())
    }

    /// Makes `x` the shape that arrives.
    pub fn write(self, x: &mut Shape) -> Result<(), NoMemory>
        ensures { OnOk result (at_of x.new ≡ (edge_of_rust self.entry).at) }
    {
        self.slots.write(&mut x.slots)?;
        self.write_entries(&mut x.entries)
    }

    /// The shape that arrives.
    pub fn shape(self, alloc: Global) -> Result<Shape, NoMemory>
        ensures { IfOk result (λ x. at_of x ≡ (edge_of_rust self.entry).at) }
    {
        let slots = self.slots.list(alloc)?;
        let mut entries = Vec::with_capacity(alloc, self.entries.len())?;
        self.write_entries(&mut entries)?;
        Ok(Shape { slots, entries })
    }
}

/// The slots that an instruction takes from the top.
#[inline(always)]
#[tactic(auto, unfolding(crate::specs::Edges::takes))]
pub fn takes(action: &Action) -> Takes
    ensures { takes_of result ≡ specs.takes (action_of action.now) }
{
    match *action {
        Action::Straight(takes, _) | Action::Branch(takes, _, _, _) => takes,
        Action::EndFinally => Takes {
            values: 0,
            others: &[Want::Cause],
        },
        Action::Unwind(_, _, true) => Takes {
            values: 0,
            others: &[Want::Iter4, Want::Iter3, Want::Iter2, Want::Iter1],
        },
        Action::Return => Takes {
            values: 0,
            others: &[Want::Value],
        },
        Action::Raise(values) => Takes {
            values,
            others: &[],
        },
        _ => Takes {
            values: 0,
            others: &[],
        },
    }
}

/// What it gives where the flow goes on.
#[inline(always)]
#[tactic(auto, unfolding(crate::specs::Edges::gives))]
pub fn gives(action: &Action) -> Gives
    ensures { gives_of result ≡ specs.gives (action_of action.now) }
{
    match *action {
        Action::Straight(_, gives) | Action::Branch(_, gives, _, _) => gives,
        _ => Gives {
            values: 0,
            others: &[],
        },
    }
}

/// What it gives where it jumps.
#[inline(always)]
#[tactic(auto, unfolding(crate::specs::Edges::gives_there))]
pub fn gives_there(action: &Action) -> Gives
    ensures { gives_of result ≡ specs.gives_there (action_of action.now) }
{
    match *action {
        Action::Branch(_, _, there, _) => there,
        _ => Gives {
            values: 0,
            others: &[],
        },
    }
}

/// Does the flow go on to the next instruction?
#[inline(always)]
#[tactic(auto, unfolding(crate::specs::Edges::falls))]
pub fn falls(action: &Action) -> bool
    ensures { result ≡ specs.falls (action_of action.now) }
{
    !matches!(
        action,
        Action::Jump(_)
            | Action::PopExcept(_)
            | Action::Unwind(_, _, _)
            | Action::Return
            | Action::Raise(_)
    )
}

/// The position that an instruction jumps to, if it does.
#[inline(always)]
#[tactic(auto, unfolding(crate::specs::Edges::target))]
pub fn target(action: &Action) -> Option<usize>
    ensures { result ≡ specs.target (action_of action.now) }
{
    match *action {
        Action::Branch(_, _, _, to)
        | Action::Jump(to)
        | Action::PopExcept(to)
        | Action::Unwind(to, _, _) => Some(to),
        _ => None,
    }
}

/// What an instruction does with the handler entries.
#[inline(always)]
#[tactic(auto, unfolding(crate::specs::Edges::change))]
pub fn change_of(action: &Action) -> Change
    ensures { result ≡ specs.change (action_of action.now) }
{
    match *action {
        Action::Setup(handler, is_finally) => Change::Push(handler, is_finally),
        Action::PopExcept(_) => Change::DropExcept,
        Action::EndFinally => Change::DropActive,
        Action::Unwind(_, count, _) => Change::Leave(count),
        _ => Change::Keep,
    }
}

/// How many of the `entries` entries it leaves, from the top: it runs the finallys among these.
#[inline(always)]
#[tactic(auto, unfolding(crate::specs::Edges::runs))]
pub fn run_count(action: &Action, entries: usize) -> usize
    ensures { result ≡ specs.runs (action_of action.now) entries }
{
    match *action {
        Action::Return => entries,
        Action::Unwind(_, count, _) => count,
        _ => 0,
    }
}

/// The entries behind an instruction, where `slots` slots are before it.
#[inline(always)]
#[tactic(auto, using(crate::proofs::Loops::rest_drop))]
pub fn entries_behind<'a>(change: Change, slots: usize, entries: &'a [Entry]) -> Behind<'a>
    ensures { behind_of result ≡ specs.behind change slots entries.now }
{
    match change {
        Change::Keep => Behind {
            new: None,
            rest: entries,
        },
        Change::Push(handler, is_finally) => Behind {
            new: Some(Entry {
                handler,
                is_finally,
                active: false,
                height: slots,
            }),
            rest: entries,
        },
        Change::DropExcept | Change::DropActive => Behind {
            new: None,
            rest: below(entries, 1),
        },
        Change::Leave(count) => Behind {
            new: None,
            rest: below(entries, count),
        },
    }
}

/// An entry where the flow arrives: its handler's position makes it active.
fn mark(to: usize, entry: Entry) -> Entry
    ensures { result ≡ specs.mark to entry }
{
    Entry {
        handler: entry.handler,
        is_finally: entry.is_finally,
        active: entry.active || entry.handler == to,
        height: entry.height,
    }
}

/// The slot that a handler finds on top: a cause in a finally, and else an exception.
#[inline(always)]
fn first(is_finally: bool) -> &'static [Give]
    ensures { result.now ≡ (if is_finally then New Kind.Cause ∷ [] else New Kind.Either ∷ []) }
{
    if is_finally {
        &[Give::New(Kind::Cause)]
    } else {
        &[Give::New(Kind::Either)]
    }
}

/// The slots that a handler begins with.
#[inline(always)]
#[tactic(auto, using(crate::proofs::Loops::pushed_is))]
fn pushed<'a>(is_finally: bool, slots: &'a [Kind], height: usize) -> Slots<'a>
    ensures { slots_of_rust result ≡ specs.pushed is_finally (drop (length slots.now - height) slots.now) }
{
    Slots {
        gives: Gives {
            values: 0,
            others: first(is_finally),
        },
        taken: 0,
        found: &slots[slots.len().saturating_sub(height)..],
    }
}

/// The edge into a handler, over these entries.
#[inline(always)]
#[tactic(auto, unfolding(crate::specs::Edges::slots_of))]
fn enter<'a>(x: &'a Shape, entry: Entry, below: &'a [Entry]) -> Edge<'a>
    ensures { (a : Does) → edge_of_rust result ≡ specs.edge_of a (at_of x.now) (specs.way_in entry below.now) }
{
    let active = Entry {
        handler: entry.handler,
        is_finally: entry.is_finally,
        active: true,
        height: entry.height,
    };
    let entries = Behind {
        new: Some(active),
        rest: below,
    };
    Edge {
        to: entry.handler,
        slots: pushed(entry.is_finally, &x.slots, entry.height),
        entries,
    }
}

/// The edge to the handler of the topmost entry that isn't active.
#[inline(always)]
pub fn raise_edge<'a>(x: &'a Shape) -> Option<Edge<'a>>
    ensures { (a : Does) → map edge_of_rust (option_list result) ≡ map (specs.edge_of a (at_of x.now))
        (specs.raise_ways x.now.entries.items) }
{
    for (i, entry) in x.entries.iter().enumerate() {
        if !entry.active {
            return Some(enter(x, *entry, &x.entries[i + 1..]));
        }
    }
    None
}

/// The edge to the handler of an entry over these entries, if that is a finally handler that runs.
pub fn run_edge<'a>(x: &'a Shape, entry: Entry, below: &'a [Entry]) -> Option<Edge<'a>>
    ensures { (a : Does) → map edge_of_rust (option_list result) ≡ map (specs.edge_of a (at_of x.now))
        (specs.one_run entry below.now) }
{
    if entry.is_finally && !entry.active {
        Some(enter(x, entry, below))
    } else {
        None
    }
}

/// Adds an edge, if there is one.
fn push_if<'a>(edges: &mut Vec<Edge<'a>>, edge: Option<Edge<'a>>) -> Result<(), NoMemory>
    ensures { OnOk result (map edge_of_rust edges.new.items
        ≡ map edge_of_rust edges.old.items ++ map edge_of_rust (option_list edge.entry)) }
{
    if let Some(edge) = edge {
        edges.push(edge)?;
    }
    Ok(())
}

/// Adds those to the finally handlers that run among the `count` topmost entries.
#[tactic(auto, using(crate::proofs::Loops::runs_end))]
fn push_runs<'a>(
    edges: &mut Vec<Edge<'a>>,
    x: &'a Shape,
    entries: &'a [Entry],
    count: usize,
) -> Result<(), NoMemory>
    ensures { (a : Does) → OnOk result (AddsEdges a (at_of x.now) edges.old.items edges.new.items
        (specs.run_ways count entries.now)) }
{
    for (i, entry) in entries.iter().enumerate() {
        if i >= count {
            return Ok(());
        }
        push_if(edges, run_edge(x, *entry, below(entries, i + 1)))?;
    }
    Ok(())
}

/// The edge to the next position, with these entries.
#[inline(always)]
pub fn next_edge<'a>(action: &Action, p: usize, behind: Behind<'a>, base: &'a [Kind]) -> Edge<'a>
    requires { p + 1 < 2 ^ 64 }
    ensures { (x : At) → base.now ≡ specs.base (action_of action.now) x
        → edge_of_rust result ≡ specs.edge_of (action_of action.now) x (specs.arrive (suc p) (behind_of behind.entry) specs.Next) }
{
    let slots = Slots {
        gives: gives(action),
        taken: takes(action).len(),
        found: base,
    };
    Edge {
        to: p + 1,
        slots,
        entries: behind,
    }
}

/// The edge to the position that it jumps to, with these entries, if it does.
#[inline(always)]
pub fn jump_edge<'a>(action: &Action, behind: Behind<'a>, base: &'a [Kind]) -> Option<Edge<'a>>
    ensures { (x : At) → base.now ≡ specs.base (action_of action.now) x
        → map edge_of_rust (option_list result) ≡ map (specs.edge_of (action_of action.now) x)
        (specs.jump_way (specs.target (action_of action.now)) (behind_of behind.entry)) }
{
    match target(action) {
        None => None,
        Some(to) => {
            let slots = Slots {
                gives: gives_there(action),
                taken: takes(action).len(),
                found: base,
            };
            Some(Edge {
                to,
                slots,
                entries: behind,
            })
        }
    }
}

/// All edges that leave a position, with what arrives: to the next position, of a jump, of a raise, and to the finally handlers that run.
#[tactic(auto, unfolding(crate::specs::Edges::ways))]
pub fn all_edges<'a>(
    alloc: Global,
    code: &Code,
    action: &Action,
    p: usize,
    x: &'a Shape,
    base: &'a [Kind],
) -> Result<Vec<Edge<'a>>, NoMemory>
    requires within { p < length code.now.items.items }
    requires base_is { base.now ≡ specs.base (action_of action.now) (at_of x.now) }
    ensures { IfOk result (λ v. map edge_of_rust v.items
        ≡ specs.edges (code_of code.now) (action_of action.now) p (at_of x.now)) }
{
    let mut edges = Vec::with_capacity(alloc, 3)?;
    let behind = entries_behind(change_of(action), x.slots.len(), &x.entries);
    if falls(action) && p + 1 < code.items.len() {
        push_if(&mut edges, Some(next_edge(action, p, behind, base)))?;
    }
    push_if(&mut edges, jump_edge(action, behind, base))?;
    push_if(&mut edges, raise_edge(x))?;
    push_runs(
        &mut edges,
        x,
        &x.entries,
        run_count(action, x.entries.len()),
    )?;
    Ok(edges)
}
