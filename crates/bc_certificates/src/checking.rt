//! Whether rows certify a code: each position is looked at once, from the first one on.

ghost use Rattle.std.specs.Prelude.{◌≡◌, ◌+◌, ◌<◌, ◌≤◌, ◌^◌, ◌∷◌, [], ℕ, suc, List, Some, None, IfOk, OnOk, IfSome, length, map};
ghost use Rattle.std.specs.Prelude.{option_map, slice_get, ◌&&◌, true};
ghost use Rattle.std.specs.Bool.{OnFalse, OnTrue};
ghost use Rattle.bc_flow.specs.bc_shapes.Shape.{At, Under};
ghost use Rattle.bc_flow.specs.bc_shapes.declared.shape.Shape.{Shape as SpecShape};
ghost use Rattle.bc_flow.specs.bc_shapes.Views.{at_of};
ghost use Rattle.bc_flow.specs.Action.{Action as Does};
ghost use Rattle.bc_flow.specs.Code.{code_of};
ghost use Rattle.bc_flow.specs.Edges as edges_specs;
ghost use Rattle.bc_flow.specs.Verified.{begin};
ghost use Rattle.bc_flow.specs.Views.{action_of, behind_of, edge_of_rust, option_list};
ghost use Rattle.bc_certificates.specs.Rows.{Certifies, Rows, at_if, brought, or_else, row};
ghost use Rattle.bc_certificates.specs.Checking as checking_specs;
ghost use Rattle.bc_certificates.specs.Checking.{Begins, Falls, Kept, Lead, Stands, at_row, jump_edges, on_base, rows_of};

use crate::certificate::{Row, Table};
use bc_flow::{
    Action, Code, Edge, action_at, are_marked, base, change_of, copy, entries_behind, falls, finds,
    fits_entries, jump_edge, locals, next_edge, nothing, raise_edge, room, stays, takes,
};
use bc_shapes::{Entry, Kind, Shape, below, fits, under};
use mpy_base::NoMemory;
use std::alloc::Global;
use std::mem;

/// What holds at a position, where the flow comes there.
#[derive(Drop)]
pub(crate) struct Held {
    pub here: bool,
    pub x: Shape,
}

/// What arrives along an edge, and the row that it is compared with.
#[derive(Drop)]
pub struct Seen {
    pub came: Shape,
    pub there: Shape,
}

/// The row of a position in a list, if it has one.
fn row_in(rows: &[Option<Row>], p: usize) -> Option<&Row>
    ensures { (bases : List SpecShape) → row (map (option_map (at_row bases)) rows.now) p ≡ option_map (λ r. at_row bases r.now) result }
{
    if p < rows.len() {
        match &rows[p] {
            Some(row) => Some(row),
            None => None,
        }
    } else {
        None
    }
}

/// The row of a position, if it has one.
pub fn row_at(table: &Table, p: usize) -> Option<&Row>
    ensures { row (rows_of table.now) p ≡ option_map (λ r. at_row table.now.bases.items r.now) result }
{
    row_in(&table.rows, p)
}

/// The base of that number, if there is one.
#[tactic(auto, using(crate::proofs::Checks::base_in, crate::proofs::Checks::base_past))]
fn base_at(bases: &[Shape], n: usize) -> Option<&Shape>
    ensures { slice_get bases.now n ≡ option_map (λ b. b.now) result }
{
    if n < bases.len() {
        Some(&bases[n])
    } else {
        None
    }
}

/// Puts the topmost slots and entries on that many of the base's lowest ones.
fn put_on(x: &mut Shape, base: &Shape, slots: usize, entries: usize) -> Result<(), NoMemory>
    ensures { OnOk result (at_of x.new ≡ on_base (at_of x.old) slots entries (Some base.now)) }
{
    let low = base.slots.len().saturating_sub(slots);
    x.slots.extend_from_slice(below(&base.slots, low))?;
    let few = base.entries.len().saturating_sub(entries);
    x.entries.extend_from_slice(below(&base.entries, few))?;
    Ok(())
}

/// Makes the shape what the row says.
pub fn copy_row(table: &Table, row: &Row, x: &mut Shape) -> Result<(), NoMemory>
    ensures { OnOk result (at_of x.new ≡ at_row table.now.bases.items row.now) }
{
    copy(x, &row.top)?;
    match base_at(&table.bases, row.base) {
        None => Ok(()),
        Some(base) => put_on(x, base, row.slots, row.entries),
    }
}

/// Does what came lie below the row, of which a copy is made?
fn under_copy(table: &Table, row: &Row, seen: &mut Seen) -> Result<bool, NoMemory>
    ensures yes { IfOk result (λ yes. OnTrue yes (Under (at_of seen.old.came) (at_row table.now.bases.items row.now))) }
    ensures came { OnOk result (at_of seen.new.came ≡ at_of seen.old.came) }
{
    copy_row(table, row, &mut seen.there)?;
    Ok(under(&seen.came, &seen.there))
}

/// Does what came lie below the row?
fn under_row(table: &Table, row: &Row, seen: &mut Seen) -> Result<bool, NoMemory>
    ensures yes { IfOk result (λ yes. OnTrue yes (Under (at_of seen.old.came) (at_row table.now.bases.items row.now))) }
    ensures came { OnOk result (at_of seen.new.came ≡ at_of seen.old.came) }
{
    match base_at(&table.bases, row.base) {
        None => Ok(under(&seen.came, &row.top)),
        Some(_) => under_copy(table, row, seen),
    }
}

/// Does what arrives along an edge lie below the row, with its entries marked?
fn leads_to(table: &Table, row: &Row, edge: Edge, seen: &mut Seen) -> Result<bool, NoMemory>
    ensures { IfOk result (λ yes. OnTrue yes ((edges_specs.is_marked edge.entry.to (edge_of_rust edge.entry).at.entries ≡ true)
        × Under (edge_of_rust edge.entry).at (at_row table.now.bases.items row.now))) }
{
    edge.write(&mut seen.came)?;
    if !are_marked(edge) {
        return Ok(false);
    }
    under_row(table, row, seen)
}

/// Does an edge lead to a row that lies above what arrives?
fn leads(table: &Table, edge: Edge, seen: &mut Seen) -> Result<bool, NoMemory>
    ensures { IfOk result (λ yes. OnTrue yes (Lead (rows_of table.now) (edge_of_rust edge.entry ∷ []))) }
{
    match row_at(table, edge.to) {
        None => Ok(false),
        Some(row) => leads_to(table, row, edge, seen),
    }
}

/// Does the edge lead to such a row, if there is one?
pub fn leads_if(table: &Table, edge: Option<Edge>, seen: &mut Seen) -> Result<bool, NoMemory>
    ensures { IfOk result (λ yes. OnTrue yes (Lead (rows_of table.now) (map edge_of_rust (option_list edge.entry)))) }
{
    match edge {
        None => Ok(true),
        Some(edge) => leads(table, edge, seen),
    }
}

/// Does the edge of a jump lead to such a row, if there is one?
fn jump_leads(
    table: &Table,
    action: &Action,
    x: &Shape,
    base: &[Kind],
    seen: &mut Seen,
) -> Result<bool, NoMemory>
    requires base_is { base.now ≡ edges_specs.base (action_of action.now) (at_of x.now) }
    ensures { IfOk result (λ yes. OnTrue yes (Lead (rows_of table.now) (jump_edges (action_of action.now) (at_of x.now)))) }
{
    let behind = entries_behind(change_of(action), x.slots.len(), &x.entries);
    leads_if(table, jump_edge(action, behind, base), seen)
}

/// Does an entry stand no higher than that many slots, with its handler behind the position if it isn't active?
fn stands_on(slots: usize, p: usize, entry: Entry) -> bool
    ensures { result ≡ checking_specs.stands_on slots p entry }
{
    entry.height <= slots && (entry.active || p < entry.handler)
}

/// The handler of an entry that isn't active, and else the position.
fn last_handler(p: usize, entry: Entry) -> usize
    ensures { result ≡ checking_specs.last_handler p entry }
{
    if entry.active { p } else { entry.handler }
}

/// Does each entry stand no higher than the one above it, and have those that aren't active their handlers one behind another?
pub fn are_ordered(slots: usize, p: usize, entries: &[Entry]) -> bool
    ensures { result ≡ checking_specs.ordered slots p entries.now }
{
    let mut height = slots;
    let mut handler = p;
    for entry in entries {
        if !stands_on(height, handler, *entry) {
            return false;
        }
        handler = last_handler(handler, *entry);
        height = entry.height;
    }
    true
}

/// Are the rules kept but for the edges to the next position and to the finally handlers that run?
pub fn stands(
    code: &Code,
    locals: usize,
    table: &Table,
    action: &Action,
    p: usize,
    x: &Shape,
    base: &[Kind],
    seen: &mut Seen,
) -> Result<bool, NoMemory>
    requires within { p < length code.now.items.items }
    requires locals_are { locals ≡ (code_of code.now).locals }
    requires base_is { base.now ≡ edges_specs.base (action_of action.now) (at_of x.now) }
    ensures { IfOk result (λ yes. OnTrue yes (Stands (code_of code.now) (rows_of table.now) (action_of action.now) p (at_of x.now))) }
{
    if !fits_entries(code, action, x.slots.len(), &x.entries) {
        return Ok(false);
    }
    if !are_ordered(x.slots.len(), p, &x.entries) {
        return Ok(false);
    }
    if !finds(action, x, base) {
        return Ok(false);
    }
    if !room(code, locals, action, x, base) {
        return Ok(false);
    }
    if !stays(code, action, p) {
        return Ok(false);
    }
    if !jump_leads(table, action, x, base, seen)? {
        return Ok(false);
    }
    if !leads_if(table, raise_edge(x), seen)? {
        return Ok(false);
    }
    Ok(true)
}

/// Makes the buffer what the edge to the next position brings, if that may be there.
fn falls_to(table: &Table, edge: Edge, seen: &mut Seen) -> Result<bool, NoMemory>
    ensures may { IfOk result (λ yes. OnTrue yes (Falls (rows_of table.now) (edge_of_rust edge.entry))) }
    ensures brings { IfOk result (λ yes. OnTrue yes (at_of seen.new.came ≡ (edge_of_rust edge.entry).at)) }
{
    edge.write(&mut seen.came)?;
    if !are_marked(edge) {
        return Ok(false);
    }
    match row_at(table, edge.to) {
        None => Ok(true),
        Some(row) => under_row(table, row, seen),
    }
}

/// What the instruction at a position does.
pub fn action_in(code: &Code, p: usize) -> Action
    requires { p < length code.now.items.items }
    ensures { slice_get (code_of code.now).actions p ≡ Some (action_of result) }
{
    action_at(code.items.len(), code.items[p])
}

/// Takes what holds to the next position, if the rules are kept and it may be there.
fn go(
    code: &Code,
    locals: usize,
    table: &Table,
    action: &Action,
    p: usize,
    held: &mut Held,
    seen: &mut Seen,
) -> Result<bool, NoMemory>
    requires within { p < length code.now.items.items }
    requires locals_are { locals ≡ (code_of code.now).locals }
    requires here { held.now.here ≡ true }
    requires is { slice_get (code_of code.now).actions p ≡ Some (action_of action.now) }
    ensures keeps { IfOk result (λ yes. OnTrue yes (Kept (code_of code.now) (rows_of table.now) p (at_of held.old.x))) }
    ensures brings { IfOk result (λ yes. OnTrue yes (at_if held.new.here (at_of held.new.x)
        ≡ brought (code_of code.now) p (Some (at_of held.old.x)))) }
{
    let x = &held.x;
    let base = base(action, x);
    if !stands(code, locals, table, action, p, x, base, seen)? {
        return Ok(false);
    }
    if !falls(action) {
        held.here = false;
        return Ok(true);
    }
    let behind = entries_behind(change_of(action), x.slots.len(), &x.entries);
    if !falls_to(table, next_edge(action, p, behind, base), seen)? {
        return Ok(false);
    }
    mem::swap(&mut held.x, &mut seen.came);
    Ok(true)
}

/// Does it take and give slots, and go on?
fn is_straight(action: &Action) -> bool
    ensures { result ≡ checking_specs.is_straight (action_of action.now) }
{
    match *action {
        Action::Straight(_, _) => true,
        _ => false,
    }
}

/// Does it take and give slots, and go on, where there are no entries?
fn is_plain(action: &Action, entries: &[Entry]) -> bool
    ensures { result ≡ checking_specs.is_plain (action_of action.now) entries.now }
{
    match entries {
        [] => is_straight(action),
        [_, ..] => false,
    }
}

/// Has the position behind this one a row?
fn has_next_row(table: &Table, p: usize) -> bool
    requires { p + 1 < 2 ^ 64 }
    ensures { OnFalse result (row (rows_of table.now) (suc p) ≡ None) }
{
    match row_at(table, p + 1) {
        Some(_) => true,
        None => false,
    }
}

/// Takes what holds to the next position, which has no row, if the rules are kept: there are no entries, so that nothing but the slots counts.
fn go_plain(
    code: &Code,
    locals: usize,
    action: &Action,
    p: usize,
    x: &mut Shape,
    y: &mut Shape,
) -> Result<bool, NoMemory>
    requires within { p < length code.now.items.items }
    requires locals_are { locals ≡ (code_of code.now).locals }
    requires plain { checking_specs.is_plain (action_of action.now) x.now.entries.items ≡ true }
    requires is { slice_get (code_of code.now).actions p ≡ Some (action_of action.now) }
    ensures keeps { (rows : Rows) → row rows (suc p) ≡ None
        → IfOk result (λ yes. OnTrue yes (Kept (code_of code.now) rows p (at_of x.old))) }
    ensures brings { IfOk result (λ yes. OnTrue yes (Some (at_of x.new) ≡ brought (code_of code.now) p (Some (at_of x.old)))) }
{
    let base = base(action, x);
    if !fits(takes(action), base) {
        return Ok(false);
    }
    if !room(code, locals, action, x, base) {
        return Ok(false);
    }
    if !stays(code, action, p) {
        return Ok(false);
    }
    let behind = entries_behind(change_of(action), x.slots.len(), &x.entries);
    let edge = next_edge(action, p, behind, base);
    edge.slots.write(&mut y.slots)?;
    mem::swap(&mut x.slots, &mut y.slots);
    Ok(true)
}

/// Takes what holds to the next position, as `go` does, and sooner where there are no entries.
fn go_on(
    code: &Code,
    locals: usize,
    table: &Table,
    p: usize,
    held: &mut Held,
    seen: &mut Seen,
) -> Result<bool, NoMemory>
    requires within { p < length code.now.items.items }
    requires locals_are { locals ≡ (code_of code.now).locals }
    requires here { held.now.here ≡ true }
    ensures keeps { IfOk result (λ yes. OnTrue yes (Kept (code_of code.now) (rows_of table.now) p (at_of held.old.x))) }
    ensures brings { IfOk result (λ yes. OnTrue yes (at_if held.new.here (at_of held.new.x)
        ≡ brought (code_of code.now) p (Some (at_of held.old.x)))) }
{
    let action = action_in(code, p);
    if !is_plain(&action, &held.x.entries) {
        return go(code, locals, table, &action, p, held, seen);
    }
    if has_next_row(table, p) {
        return go(code, locals, table, &action, p, held, seen);
    }
    go_plain(code, locals, &action, p, &mut held.x, &mut seen.came)
}

/// Takes what holds to the next position, if the rules are kept, it may be there, and the flow comes to the position.
fn go_if(
    code: &Code,
    locals: usize,
    table: &Table,
    p: usize,
    held: &mut Held,
    seen: &mut Seen,
) -> Result<bool, NoMemory>
    requires within { p < length code.now.items.items }
    requires locals_are { locals ≡ (code_of code.now).locals }
    ensures keeps { (x : At) → at_if held.old.here (at_of held.old.x) ≡ Some x
        → IfOk result (λ yes. OnTrue yes (Kept (code_of code.now) (rows_of table.now) p x)) }
    ensures brings { IfOk result (λ yes. OnTrue yes (at_if held.new.here (at_of held.new.x)
        ≡ brought (code_of code.now) p (at_if held.old.here (at_of held.old.x)))) }
{
    if !held.here {
        return Ok(true);
    }
    if !go_on(code, locals, table, p, held, seen)? {
        return Ok(false);
    }
    Ok(true)
}

/// Takes the row of a position, if it has one.
fn take_row(table: &Table, p: usize, held: &mut Held) -> Result<(), NoMemory>
    ensures { OnOk result (at_if held.new.here (at_of held.new.x)
        ≡ or_else (row (rows_of table.now) p) (at_if held.old.here (at_of held.old.x))) }
{
    if let Some(row) = row_at(table, p) {
        copy_row(table, row, &mut held.x)?;
        held.here = true;
    }
    Ok(())
}

/// Does what came, which is what holds at the start, lie below a row of the first position?
fn starts_below(table: &Table, seen: &mut Seen) -> Result<bool, NoMemory>
    requires { at_of seen.now.came ≡ begin }
    ensures { IfOk result (λ yes. OnTrue yes (Begins (rows_of table.now))) }
{
    match row_at(table, 0) {
        None => Ok(false),
        Some(row) => under_row(table, row, seen),
    }
}

/// Is there a row at the first position, above what holds at the start?
fn starts(alloc: Global, table: &Table) -> Result<bool, NoMemory>
    ensures { IfOk result (λ yes. OnTrue yes (Begins (rows_of table.now))) }
{
    let came = nothing(alloc);
    let there = nothing(alloc);
    let mut seen = Seen { came, there };
    starts_below(table, &mut seen)
}

/// Are there at most that many rows?
fn has_few(table: &Table, size: usize) -> bool
    ensures { OnTrue result (length table.now.rows.items ≤ size) }
{
    table.rows.len() <= size
}

/// Do the rows certify the code? The time is about that of a copy of what holds at each position, and of a comparison along each edge.
pub fn check(alloc: Global, code: &Code, table: &Table) -> Result<bool, NoMemory>
    ensures { IfOk result (λ yes. OnTrue yes (Certifies (code_of code.now) (rows_of table.now))) }
{
    if !has_few(table, code.items.len()) {
        return Ok(false);
    }
    if !starts(alloc, table)? {
        return Ok(false);
    }
    let locals = locals(code);
    let mut held = Held {
        here: false,
        x: nothing(alloc),
    };
    let mut seen = Seen {
        came: nothing(alloc),
        there: nothing(alloc),
    };
    for p in 0..code.items.len() {
        take_row(table, p, &mut held)?;
        if !go_if(code, locals, table, p, &mut held, &mut seen)? {
            return Ok(false);
        }
    }
    Ok(true)
}
