//! Handlers from which raises lead on from row to row. Where a raise leads to such a handler, so do the edges to all finally handlers that
//! run, and none of them has to be looked at.

ghost use Rattle.std.specs.Prelude.{◌≡◌, IfOk, OnOk, map};
ghost use Rattle.std.specs.Bool.{OnTrue};
ghost use Rattle.bc_flow.specs.bc_shapes.Views.{at_of};
ghost use Rattle.bc_flow.specs.Views.{edge_of_rust, option_list};
ghost use Rattle.bc_certificates.specs.Checking.{Lies, rows_of};
ghost use Rattle.bc_refusals.specs.Chains.{LeadOn, SetAll};

use crate::arriving::{is_set, note};
use crate::order::clear_flags;
use bc_certificates::{Seen, Table, are_ordered, copy_row, leads_if, row_at};
use bc_flow::{Change, Code, Edge, action_at, change_of, nothing, raise_edge};
use bc_shapes::Shape;
use mpy_base::NoMemory;
use std::alloc::Global;

/// Does the edge, if there is one, end where the flag is set?
pub(crate) fn ends_set(flags: &[bool], edge: Option<Edge>) -> bool
    ensures { OnTrue result (SetAll flags.now (map edge_of_rust (option_list edge.entry))) }
{
    match edge {
        None => true,
        Some(edge) => is_set(flags, edge.to),
    }
}

/// Does a raise over a handler's row lead to a row from which raises lead on, if it leads anywhere?
fn leads_on(
    table: &Table,
    leading: &[bool],
    h: usize,
    x: &Shape,
    meeting: &mut Seen,
) -> Result<bool, NoMemory>
    requires { LeadOn (rows_of table.now) leading.now }
    ensures { IfOk result (λ yes. OnTrue yes (Lies (rows_of table.now) (at_of x.now).slots (at_of x.now).entries)) }
{
    if !are_ordered(x.slots.len(), h, &x.entries) {
        return Ok(false);
    }
    let raise = raise_edge(x);
    if !ends_set(leading, raise) {
        return Ok(false);
    }
    leads_if(table, raise, meeting)
}

/// Notes a handler, if raises lead on from its row.
fn note_leading(
    table: &Table,
    handlers: &[bool],
    leading: &mut Vec<bool>,
    h: usize,
    x: &mut Shape,
    meeting: &mut Seen,
) -> Result<(), NoMemory>
    requires { LeadOn (rows_of table.now) leading.now.items }
    ensures { OnOk result (LeadOn (rows_of table.now) leading.new.items) }
{
    if !is_set(handlers, h) {
        return Ok(());
    }
    let Some(row) = row_at(table, h) else {
        return Ok(());
    };
    copy_row(table, row, x)?;
    if !leads_on(table, leading, h, x, meeting)? {
        return Ok(());
    }
    note(leading, h);
    Ok(())
}

/// Which positions are handlers'.
fn handlers(alloc: Global, code: &Code) -> Result<Vec<bool>, NoMemory> {
    let size = code.items.len();
    let mut flags = clear_flags(alloc, size)?;
    for item in &code.items {
        if let Change::Push(handler, _) = change_of(&action_at(size, *item)) {
            note(&mut flags, handler);
        }
    }
    Ok(flags)
}

/// The handlers from which raises lead on. Those behind come first, since a raise at a handler leads to one behind it.
pub(crate) fn leading_handlers(
    alloc: Global,
    code: &Code,
    table: &Table,
    meeting: &mut Seen,
) -> Result<Vec<bool>, NoMemory>
    ensures { IfOk result (λ v. LeadOn (rows_of table.now) v.items) }
{
    let size = code.items.len();
    let handlers = handlers(alloc, code)?;
    let mut leading = clear_flags(alloc, size)?;
    let mut x = nothing(alloc);
    for k in 0..size {
        let h = size - 1 - k;
        note_leading(table, &handlers, &mut leading, h, &mut x, meeting)?;
    }
    Ok(leading)
}
