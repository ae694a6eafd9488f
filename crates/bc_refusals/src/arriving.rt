//! Edges, and what stands where they end.

ghost use Rattle.std.specs.Prelude.{◌≡◌, ◌<◌, ◌≤◌, ℕ, IfOk, Some, false, get_or, length, map, set, true};
ghost use Rattle.std.specs.Bool.{OnTrue};
ghost use Rattle.bc_flow.specs.bc_shapes.Shape.{At};
ghost use Rattle.bc_flow.specs.bc_shapes.Views.{at_of};
ghost use Rattle.bc_flow.specs.Code.{Code as SpecCode};
ghost use Rattle.bc_flow.specs.Views.{edge_of_rust};
ghost use Rattle.bc_certificates.specs.Checking.{rows_of};
ghost use Rattle.bc_certificates.specs.Rows as rows_specs;
ghost use Rattle.bc_refusals.specs.Stages as specs;
ghost use Rattle.bc_refusals.specs.Stages.{AnyClash, BeginAll, Begins, Clash, IsSet, Lead, LeadAll};
ghost use Rattle.bc_refusals.specs.Views.{IsCarried};

use crate::opening::open_shape;
use bc_certificates::{Seen, Table, copy_row, row_at};
use bc_flow::{Edge, copy};
use bc_shapes::{Shape, Span, join, under};
use mpy_base::NoMemory;

/// What holds at a position that has no row, if one is known.
#[derive(Drop)]
pub(crate) struct Carried {
    pub here: bool,
    pub position: usize,
    pub shape: Shape,
}

/// Is the position's flag set?
pub(crate) fn is_set(flags: &[bool], p: usize) -> bool
    ensures { result ≡ get_or flags.now p false }
{
    if p < flags.len() { flags[p] } else { false }
}

/// Sets the position's flag.
#[tactic(auto, using(std::proofs::lemmas::List::set_past))]
pub(crate) fn note(flags: &mut Vec<bool>, p: usize)
    ensures { flags.new.items ≡ set flags.old.items p true }
{
    if p < flags.len() {
        flags[p] = true;
    }
}

/// Makes a shape what holds at a position, if that is known.
pub(crate) fn read_there(
    table: &Table,
    carried: &Carried,
    p: usize,
    x: &mut Shape,
) -> Result<bool, NoMemory>
    ensures { (code : SpecCode) → IsCarried code (rows_of table.now) carried.now
        → IfOk result (λ yes. OnTrue yes (rows_specs.carried code (rows_of table.now) p ≡ Some (at_of x.new))) }
{
    if let Some(row) = row_at(table, p) {
        copy_row(table, row, x)?;
        return Ok(true);
    }
    if carried.here && carried.position == p {
        copy(x, &carried.shape)?;
        return Ok(true);
    }
    Ok(false)
}

/// Had the causes among the slots at an edge's end been causes if the edge was the first to come there?
fn opens_below(meeting: &mut Seen) -> bool
    ensures { OnTrue result (specs.Opens (at_of meeting.old.came) (at_of meeting.old.there)) }
{
    open_shape(&mut meeting.came);
    open_shape(&mut meeting.there);
    under(&meeting.there, &meeting.came)
}

/// Does what an edge brings lie below what stands at its end?
fn leads(
    table: &Table,
    carried: &Carried,
    came: &[bool],
    edge: Edge,
    meeting: &mut Seen,
) -> Result<bool, NoMemory>
    ensures { (code : SpecCode) → IsCarried code (rows_of table.now) carried.now
        → IfOk result (λ yes. OnTrue yes (Lead (rows_specs.carried code (rows_of table.now)) came.now (edge_of_rust edge.entry))) }
{
    if edge.to >= came.len() {
        return Ok(false);
    }
    if !read_there(table, carried, edge.to, &mut meeting.there)? {
        return Ok(false);
    }
    edge.write(&mut meeting.came)?;
    if !under(&meeting.came, &meeting.there) {
        return Ok(false);
    }
    Ok(true)
}

/// Does the edge bring what may have come to its end first?
fn begins(
    table: &Table,
    carried: &Carried,
    edge: Edge,
    meeting: &mut Seen,
) -> Result<bool, NoMemory>
    ensures { (code : SpecCode) → IsCarried code (rows_of table.now) carried.now → IfOk result (λ yes. OnTrue yes ((x : At)
        × (rows_specs.carried code (rows_of table.now) edge.entry.to ≡ Some x) × specs.Opens (edge_of_rust edge.entry).at x)) }
{
    if !read_there(table, carried, edge.to, &mut meeting.there)? {
        return Ok(false);
    }
    edge.write(&mut meeting.came)?;
    Ok(opens_below(meeting))
}

/// Does any of the edges bring to a position what may have come there first?
fn any_begins(
    table: &Table,
    carried: &Carried,
    p: usize,
    edges: &[Edge],
    meeting: &mut Seen,
) -> Result<bool, NoMemory>
    ensures { (code : SpecCode) → IsCarried code (rows_of table.now) carried.now
        → IfOk result (λ yes. OnTrue yes (Begins (rows_specs.carried code (rows_of table.now)) p (map edge_of_rust edges.now))) }
{
    for edge in edges {
        if edge.to == p && begins(table, carried, *edge, meeting)? {
            return Ok(true);
        }
    }
    Ok(false)
}

/// Where edges end that nothing came to before, does one of them bring what may have come first?
pub(crate) fn all_begin(
    table: &Table,
    carried: &Carried,
    came: &[bool],
    edges: &[Edge],
    meeting: &mut Seen,
) -> Result<bool, NoMemory>
    ensures { (code : SpecCode) → IsCarried code (rows_of table.now) carried.now
        → IfOk result (λ yes. OnTrue yes (BeginAll (rows_specs.carried code (rows_of table.now)) came.now (map edge_of_rust edges.now)
        (map edge_of_rust edges.now))) }
{
    for edge in edges {
        if !is_set(came, edge.to) && !any_begins(table, carried, edge.to, edges, meeting)? {
            return Ok(false);
        }
    }
    Ok(true)
}

/// Do all edges bring what lies below what stands at their ends?
pub(crate) fn all_lead(
    table: &Table,
    carried: &Carried,
    came: &[bool],
    edges: &[Edge],
    meeting: &mut Seen,
) -> Result<bool, NoMemory>
    ensures { (code : SpecCode) → IsCarried code (rows_of table.now) carried.now
        → IfOk result (λ yes. OnTrue yes (LeadAll (rows_specs.carried code (rows_of table.now)) came.now (map edge_of_rust edges.now))) }
{
    for edge in edges {
        if !leads(table, carried, came, *edge, meeting)? {
            return Ok(false);
        }
    }
    Ok(true)
}

/// Notes that the edges brought something, and answers a position at most `from` in front of which nothing came anew.
pub(crate) fn note_all(came: &mut Vec<bool>, edges: &[Edge], from: usize) -> usize
    ensures come { came.new.items ≡ specs.come came.old.items (map edge_of_rust edges.now) }
    ensures lower { result ≤ from }
    ensures old { (p : ℕ) → p < result → IsSet came.new.items p → IsSet came.old.items p }
{
    let mut least = from;
    for edge in edges {
        if !is_set(came, edge.to) {
            least = least.min(edge.to);
        }
        note(came, edge.to);
    }
    least
}

/// Is an edge sure not to meet what stands at its end, whatever came there first?
fn clashes(
    table: &Table,
    carried: &Carried,
    came: &[bool],
    edge: Edge,
    there: &mut Shape,
) -> Result<bool, NoMemory>
    ensures { (code : SpecCode) → IsCarried code (rows_of table.now) carried.now
        → IfOk result (λ yes. OnTrue yes (Clash (rows_specs.carried code (rows_of table.now)) came.now (edge_of_rust edge.entry))) }
{
    if !is_set(came, edge.to) {
        return Ok(false);
    }
    if !read_there(table, carried, edge.to, there)? {
        return Ok(false);
    }
    open_shape(there);
    let mut span = Span { from: 0, to: 0 };
    match join(&mut there.slots, edge.slots, None, &mut span) {
        Some(_) => Ok(false),
        None => Ok(true),
    }
}

/// Is any edge sure not to meet what stands at its end?
pub(crate) fn any_clash(
    table: &Table,
    carried: &Carried,
    came: &[bool],
    edges: &[Edge],
    there: &mut Shape,
) -> Result<bool, NoMemory>
    ensures { (code : SpecCode) → IsCarried code (rows_of table.now) carried.now
        → IfOk result (λ yes. OnTrue yes (AnyClash (rows_specs.carried code (rows_of table.now)) came.now (map edge_of_rust edges.now))) }
{
    for edge in edges {
        if clashes(table, carried, came, *edge, there)? {
            return Ok(true);
        }
    }
    Ok(false)
}
