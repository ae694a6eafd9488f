//! The walk in the order of first visits, which visits each position once.

ghost use Rattle.std.specs.Prelude.{◌≡◌, ◌+◌, ◌<◌, ◌≤◌, ℕ, IfOk, IfSome, None, OnOk, Some, drop, false, if◌then◌else◌, length};
ghost use Rattle.std.specs.Prelude.{map, replicate, set, slice_get, suc, true};
ghost use Rattle.std.specs.Bool.{OnFalse, OnTrue};
ghost use Rattle.bc_flow.specs.bc_shapes.Views.{at_of};
ghost use Rattle.bc_flow.specs.bc_shapes.Shape.{At};
ghost use Rattle.bc_flow.specs.Code.{Code as SpecCode, code_of};
ghost use Rattle.bc_flow.specs.Edges as edges_specs;
ghost use Rattle.bc_flow.specs.Verified.{FirstFault, begin};
ghost use Rattle.bc_flow.specs.Views.{action_of, edge_of_rust};
ghost use Rattle.bc_certificates.specs.Checking.{rows_of};
ghost use Rattle.bc_certificates.specs.Rows as rows_specs;
ghost use Rattle.bc_certificates.specs.Rows.{Rows};
ghost use Rattle.bc_refusals.specs.Chains.{LeadOn};
ghost use Rattle.bc_refusals.specs.Stages.{IsNext, IsSet, Keeps, Kept};
ghost use Rattle.bc_refusals.specs.Views.{IsCarried};
ghost use Rattle.bc_refusals.specs.Walks.{After, Follows, IsInner};

use crate::arriving::{Carried, all_begin, all_lead, note, note_all, read_there};
use crate::chaining::leading_handlers;
use crate::leaving::keeps_leaving;
use crate::order::{clear_flags, next_waiting};
use crate::refusing::broken;
use bc_certificates::{Seen, Table, action_in, copy_row, row_at};
use bc_flow::{
    Action, Code, Edge, Fault, Rule, all_edges, base, change_of, entries_behind, falls, finds,
    holds, locals, next_edge, nothing, room, stays,
};
use bc_shapes::Shape;
use mpy_base::NoMemory;
use std::alloc::Global;

/// How the walk goes on behind a position.
#[derive(Clone, Copy)]
pub(crate) enum Turn {
    GoesOn,
    /// Neither is known: that the position keeps the rules, and that it breaks one.
    Unknown,
    Broken(Rule),
}

/// The walk so far.
#[derive(Drop)]
pub(crate) struct Walk {
    /// Where something came.
    pub came: Vec<bool>,
    /// Which of these positions were visited.
    pub gone: Vec<bool>,
    /// A position in front of which none waits for its first visit.
    pub from: usize,
    pub carried: Carried,
}

/// Has the position a row?
fn has_row(table: &Table, p: usize) -> bool
    ensures { OnFalse result (rows_specs.row (rows_of table.now) p ≡ None) }
{
    match row_at(table, p) {
        Some(_) => true,
        None => false,
    }
}

/// Notes what the instruction brings to the next position, where the flow goes there and it has no row, and tells whether it did so.
fn carry(
    code: &Code,
    table: &Table,
    action: &Action,
    p: usize,
    x: &Shape,
    carried: &mut Carried,
) -> Result<bool, NoMemory>
    requires within { p < length code.now.items.items }
    requires is { slice_get (code_of code.now).actions p ≡ Some (action_of action.now) }
    requires there { rows_specs.carried (code_of code.now) (rows_of table.now) p ≡ Some (at_of x.now) }
    ensures known { IsCarried (code_of code.now) (rows_of table.now) carried.old
        → OnOk result (IsCarried (code_of code.now) (rows_of table.now) carried.new) }
    ensures inner { IfOk result (λ yes. OnTrue yes (IsInner (code_of code.now) (rows_of table.now) (action_of action.now) p)) }
{
    if !falls(action) {
        return Ok(false);
    }
    if p + 1 >= code.items.len() {
        return Ok(false);
    }
    if has_row(table, p + 1) {
        return Ok(false);
    }
    let behind = entries_behind(change_of(action), x.slots.len(), &x.entries);
    let edge = next_edge(action, p, behind, base(action, x));
    carried.here = false;
    edge.write(&mut carried.shape)?;
    carried.position = p + 1;
    carried.here = true;
    Ok(true)
}

/// All edges but the first one, if that leads to a position without a row.
fn edges_to_rows<'a, 'b>(edges: &'a [Edge<'b>], inner: bool) -> &'a [Edge<'b>]
    ensures { result.now ≡ (if inner then drop 1 edges.now else edges.now) }
{
    if inner && !edges.is_empty() {
        &edges[1..]
    } else {
        edges
    }
}

/// Are the rules kept that ask nothing of other positions?
fn keeps_own(
    code: &Code,
    locals: usize,
    action: &Action,
    p: usize,
    x: &Shape,
    edges: &[Edge],
) -> bool
    requires within { p < length code.now.items.items }
    requires locals_are { locals ≡ (code_of code.now).locals }
    requires along { map edge_of_rust edges.now ≡ edges_specs.edges (code_of code.now) (action_of action.now) p (at_of x.now) }
    ensures { OnTrue result (Kept (code_of code.now) (action_of action.now) p (at_of x.now)) }
{
    let base = base(action, x);
    if !holds(code, action, x, edges) {
        return false;
    }
    if !finds(action, x, base) {
        return false;
    }
    if !room(code, locals, action, x, base) {
        return false;
    }
    stays(code, action, p)
}

/// Are the rules kept at a position, and do its edges lead to what stands there? Each edge is looked at.
fn keeps_each(
    code: &Code,
    locals: usize,
    table: &Table,
    carried: &Carried,
    came: &[bool],
    action: &Action,
    p: usize,
    x: &Shape,
    edges: &[Edge],
    inner: bool,
    meeting: &mut Seen,
) -> Result<bool, NoMemory>
    requires within { p < length code.now.items.items }
    requires locals_are { locals ≡ (code_of code.now).locals }
    requires long { length came.now ≡ length (code_of code.now).actions }
    requires carried_is { IsCarried (code_of code.now) (rows_of table.now) carried.now }
    requires there { rows_specs.carried (code_of code.now) (rows_of table.now) p ≡ Some (at_of x.now) }
    requires inner_is { OnTrue inner (IsInner (code_of code.now) (rows_of table.now) (action_of action.now) p) }
    requires action_is { slice_get (code_of code.now).actions p ≡ Some (action_of action.now) }
    requires along { map edge_of_rust edges.now ≡ edges_specs.edges (code_of code.now) (action_of action.now) p (at_of x.now) }
    ensures { IfOk result (λ yes. OnTrue yes (Keeps (code_of code.now) (rows_specs.carried (code_of code.now) (rows_of table.now)) came.now p (at_of x.now))) }
{
    if !keeps_own(code, locals, action, p, x, edges) {
        return Ok(false);
    }
    let to_rows = edges_to_rows(edges, inner);
    if !all_lead(table, carried, came, to_rows, meeting)? {
        return Ok(false);
    }
    all_begin(table, carried, came, to_rows, meeting)
}

/// Are the rules kept at a position, and do its edges lead to what stands there?
fn keeps(
    code: &Code,
    locals: usize,
    table: &Table,
    carried: &Carried,
    leading: &[bool],
    came: &[bool],
    action: &Action,
    p: usize,
    x: &Shape,
    edges: &[Edge],
    inner: bool,
    meeting: &mut Seen,
) -> Result<bool, NoMemory>
    requires within { p < length code.now.items.items }
    requires locals_are { locals ≡ (code_of code.now).locals }
    requires long { length came.now ≡ length (code_of code.now).actions }
    requires carried_is { IsCarried (code_of code.now) (rows_of table.now) carried.now }
    requires there { rows_specs.carried (code_of code.now) (rows_of table.now) p ≡ Some (at_of x.now) }
    requires leading_are { LeadOn (rows_of table.now) leading.now }
    requires inner_is { OnTrue inner (IsInner (code_of code.now) (rows_of table.now) (action_of action.now) p) }
    requires action_is { slice_get (code_of code.now).actions p ≡ Some (action_of action.now) }
    requires along { map edge_of_rust edges.now ≡ edges_specs.edges (code_of code.now) (action_of action.now) p (at_of x.now) }
    ensures { IfOk result (λ yes. OnTrue yes (Keeps (code_of code.now) (rows_specs.carried (code_of code.now) (rows_of table.now)) came.now p (at_of x.now))) }
{
    if keeps_leaving(
        code, locals, table, carried, leading, came, action, p, x, edges, meeting,
    )? {
        return Ok(true);
    }
    keeps_each(
        code, locals, table, carried, came, action, p, x, edges, inner, meeting,
    )
}

/// Notes that the next position was visited, and where its edges lead.
fn go_on(walk: &mut Walk, p: usize, edges: &[Edge])
    ensures { (code : SpecCode) (rows : Rows) (x : At) → Follows code rows walk.old → IsNext walk.old.came.items walk.old.gone.items p
        → rows_specs.carried code rows p ≡ Some x
        → (k : Keeps code (rows_specs.carried code rows) walk.old.came.items p x)
        → map edge_of_rust edges.now ≡ edges_specs.edges code k.action p x → Follows code rows walk.new }
{
    walk.from = note_all(&mut walk.came, edges, p);
    note(&mut walk.gone, p);
}

/// Visits the next position, where that is the row or what was carried there.
fn visit_shape(
    alloc: Global,
    code: &Code,
    locals: usize,
    table: &Table,
    leading: &[bool],
    walk: &mut Walk,
    p: usize,
    x: &Shape,
    meeting: &mut Seen,
) -> Result<Turn, NoMemory>
    requires within { p < length code.now.items.items }
    requires locals_are { locals ≡ (code_of code.now).locals }
    requires leading_are { LeadOn (rows_of table.now) leading.now }
    requires follows { Follows (code_of code.now) (rows_of table.now) walk.now }
    requires next { IsNext walk.now.came.items walk.now.gone.items p }
    requires there { rows_specs.carried (code_of code.now) (rows_of table.now) p ≡ Some (at_of x.now) }
    ensures { IfOk result (λ turn. After (code_of code.now) (rows_of table.now) p walk.new turn) }
{
    let action = action_in(code, p);
    let inner = carry(code, table, &action, p, x, &mut walk.carried)?;
    let base = base(&action, x);
    let edges = all_edges(alloc, code, &action, p, x, base)?;
    if keeps(
        code,
        locals,
        table,
        &walk.carried,
        leading,
        &walk.came,
        &action,
        p,
        x,
        &edges,
        inner,
        meeting,
    )? {
        go_on(walk, p, &edges);
        return Ok(Turn::GoesOn);
    }
    match broken(
        alloc,
        code,
        locals,
        table,
        &walk.carried,
        &walk.came,
        &action,
        p,
        x,
        &edges,
        meeting,
    )? {
        Some(rule) => Ok(Turn::Broken(rule)),
        None => Ok(Turn::Unknown),
    }
}

/// Visits the next position.
fn visit(
    alloc: Global,
    code: &Code,
    locals: usize,
    table: &Table,
    leading: &[bool],
    walk: &mut Walk,
    p: usize,
    x: &mut Shape,
    meeting: &mut Seen,
) -> Result<Turn, NoMemory>
    requires within { p < length code.now.items.items }
    requires locals_are { locals ≡ (code_of code.now).locals }
    requires leading_are { LeadOn (rows_of table.now) leading.now }
    requires follows { Follows (code_of code.now) (rows_of table.now) walk.now }
    requires next { IsNext walk.now.came.items walk.now.gone.items p }
    ensures { IfOk result (λ turn. After (code_of code.now) (rows_of table.now) p walk.new turn) }
{
    if !read_there(table, &walk.carried, p, x)? {
        return Ok(Turn::Unknown);
    }
    visit_shape(alloc, code, locals, table, leading, walk, p, x, meeting)
}

/// Is the row of the first position what holds at the start?
fn starts_empty(table: &Table, x: &mut Shape) -> Result<bool, NoMemory>
    ensures { IfOk result (λ yes. OnTrue yes (rows_specs.row (rows_of table.now) 0 ≡ Some begin)) }
{
    let Some(row) = row_at(table, 0) else {
        return Ok(false);
    };
    copy_row(table, row, x)?;
    Ok(x.slots.is_empty() && x.entries.is_empty())
}

/// The walk of a code of that size before the first visit.
fn start(alloc: Global, size: usize) -> Result<Walk, NoMemory>
    ensures came { IfOk result (λ w. w.came.items ≡ set (replicate size false) 0 true) }
    ensures gone { IfOk result (λ w. w.gone.items ≡ replicate size false) }
    ensures from { IfOk result (λ w. w.from ≡ 0) }
    ensures carried { IfOk result (λ w. w.carried.here ≡ false) }
{
    let mut came = clear_flags(alloc, size)?;
    note(&mut came, 0);
    Ok(Walk {
        came,
        gone: clear_flags(alloc, size)?,
        from: 0,
        carried: Carried {
            here: false,
            position: 0,
            shape: nothing(alloc),
        },
    })
}

/// Nothing that meets nothing.
fn no_meeting(alloc: Global) -> Seen {
    Seen {
        came: nothing(alloc),
        there: nothing(alloc),
    }
}

/// The first fault of a code, if the rows show which one it is. The time is about that of a copy of what holds at each position, and of a
/// comparison along each edge.
pub fn fault_by(alloc: Global, code: &Code, table: &Table) -> Result<Option<Fault>, NoMemory>
    ensures { IfOk result (λ o. IfSome o (λ f. FirstFault (code_of code.now) f.rule f.position)) }
{
    let size = code.items.len();
    let mut x = nothing(alloc);
    if size == 0 || !starts_empty(table, &mut x)? {
        return Ok(None);
    }
    let locals = locals(code);
    let mut walk = start(alloc, size)?;
    let mut meeting = no_meeting(alloc);
    let leading = leading_handlers(alloc, code, table, &mut meeting)?;
    for _turn in 0..size {
        let Some(p) = next_waiting(&walk.came, &walk.gone, walk.from) else {
            return Ok(None);
        };
        match visit(
            alloc,
            code,
            locals,
            table,
            &leading,
            &mut walk,
            p,
            &mut x,
            &mut meeting,
        )? {
            Turn::GoesOn => {}
            Turn::Unknown => return Ok(None),
            Turn::Broken(rule) => return Ok(Some(Fault { rule, position: p })),
        }
    }
    Ok(None)
}
