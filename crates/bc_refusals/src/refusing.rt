//! Which rule a position breaks at its first visit.

ghost use Rattle.std.specs.Prelude.{◌≡◌, ◌<◌, ℕ, IfOk, IfSome, OnOk, Some, false, length, map, not, slice_get, true};
ghost use Rattle.std.specs.Bool.{OnTrue};
ghost use Rattle.bc_flow.specs.bc_shapes.Views.{at_of};
ghost use Rattle.bc_flow.specs.Code.{code_of};
ghost use Rattle.bc_flow.specs.Edges as edges_specs;
ghost use Rattle.bc_flow.specs.Views.{action_of, edge_of_rust};
ghost use Rattle.bc_certificates.specs.Checking.{rows_of};
ghost use Rattle.bc_certificates.specs.Rows as rows_specs;
ghost use Rattle.bc_refusals.specs.Stages as specs;
ghost use Rattle.bc_refusals.specs.Stages.{Agrees, Breaks, Clashes, IsSet};
ghost use Rattle.bc_refusals.specs.Views.{IsCarried};

use crate::agreeing::agree;
use crate::arriving::{Carried, all_lead, any_clash};
use crate::opening::open_shape;
use crate::parting::any_apart;
use bc_certificates::{Seen, Table};
use bc_flow::{
    Action, Code, Edge, Rule, all_edges, base, copy, finds, holds, nothing, room, stays,
};
use bc_shapes::Shape;
use mpy_base::NoMemory;
use std::alloc::Global;

/// Are slots missing or wrong that the instruction takes?
fn misses(action: &Action, x: &Shape) -> bool
    ensures { result ≡ not (edges_specs.finds (action_of action.now) (at_of x.now)) }
{
    let base = base(action, x);
    !finds(action, x, base)
}

/// Do the slots at the ends of edges not meet what they bring, whatever came first, or what two edges bring to one position?
fn clashes_first(
    alloc: Global,
    code: &Code,
    table: &Table,
    carried: &Carried,
    came: &[bool],
    action: &Action,
    p: usize,
    low: &Shape,
    there: &mut Shape,
) -> Result<bool, NoMemory>
    requires within { p < length code.now.items.items }
    requires carried_is { IsCarried (code_of code.now) (rows_of table.now) carried.now }
    ensures { IfOk result (λ yes. OnTrue yes (Clashes (rows_specs.carried (code_of code.now) (rows_of table.now)) came.now
        (edges_specs.edges (code_of code.now) (action_of action.now) p (at_of low.now)))) }
{
    let base = base(action, low);
    let edges = all_edges(alloc, code, action, p, low, base)?;
    if any_clash(table, carried, came, &edges, there)? {
        return Ok(true);
    }
    any_apart(&edges, there)
}

/// The rule State or Falls, where that is broken and all edges lead to rows.
fn broken_behind(
    code: &Code,
    locals: usize,
    table: &Table,
    carried: &Carried,
    came: &[bool],
    action: &Action,
    p: usize,
    x: &Shape,
    edges: &[Edge],
    meeting: &mut Seen,
) -> Result<Option<Rule>, NoMemory>
    requires within { p < length code.now.items.items }
    requires locals_are { locals ≡ (code_of code.now).locals }
    requires long { length came.now ≡ length (code_of code.now).actions }
    requires carried_is { IsCarried (code_of code.now) (rows_of table.now) carried.now }
    requires action_is { slice_get (code_of code.now).actions p ≡ Some (action_of action.now) }
    requires there { rows_specs.carried (code_of code.now) (rows_of table.now) p ≡ Some (at_of x.now) }
    requires came_there { IsSet came.now p }
    requires along { map edge_of_rust edges.now ≡ edges_specs.edges (code_of code.now) (action_of action.now) p (at_of x.now) }
    requires handlers { edges_specs.holds (code_of code.now) (action_of action.now) p (length (at_of x.now).slots) (at_of x.now).entries ≡ true }
    requires height { edges_specs.finds (action_of action.now) (at_of x.now) ≡ true }
    ensures { IfOk result (λ o. IfSome o (λ rule. Breaks (code_of code.now) (rows_specs.carried (code_of code.now) (rows_of table.now)) came.now p rule)) }
{
    if !all_lead(table, carried, came, edges, meeting)? {
        return Ok(None);
    }
    let base = base(action, x);
    if !room(code, locals, action, x, base) {
        return Ok(Some(Rule::State));
    }
    if !stays(code, action, p) {
        return Ok(Some(Rule::Falls));
    }
    Ok(None)
}

/// The rule that is broken by what the instruction takes, or by what leaves it, where entries agree.
fn broken_slots(
    alloc: Global,
    code: &Code,
    locals: usize,
    table: &Table,
    carried: &Carried,
    came: &[bool],
    action: &Action,
    p: usize,
    x: &Shape,
    edges: &[Edge],
    meeting: &mut Seen,
) -> Result<Option<Rule>, NoMemory>
    requires within { p < length code.now.items.items }
    requires locals_are { locals ≡ (code_of code.now).locals }
    requires long { length came.now ≡ length (code_of code.now).actions }
    requires carried_is { IsCarried (code_of code.now) (rows_of table.now) carried.now }
    requires action_is { slice_get (code_of code.now).actions p ≡ Some (action_of action.now) }
    requires there { rows_specs.carried (code_of code.now) (rows_of table.now) p ≡ Some (at_of x.now) }
    requires came_there { IsSet came.now p }
    requires along { map edge_of_rust edges.now ≡ edges_specs.edges (code_of code.now) (action_of action.now) p (at_of x.now) }
    requires handlers { edges_specs.holds (code_of code.now) (action_of action.now) p (length (at_of x.now).slots) (at_of x.now).entries ≡ true }
    requires agrees { Agrees (rows_specs.carried (code_of code.now) (rows_of table.now)) came.now (map edge_of_rust edges.now) true }
    ensures { IfOk result (λ o. IfSome o (λ rule. Breaks (code_of code.now) (rows_specs.carried (code_of code.now) (rows_of table.now)) came.now p rule)) }
{
    let mut low = nothing(alloc);
    copy(&mut low, x)?;
    open_shape(&mut low);
    if misses(action, &low) {
        return Ok(Some(Rule::Height));
    }
    if misses(action, x) {
        return Ok(None);
    }
    if clashes_first(
        alloc,
        code,
        table,
        carried,
        came,
        action,
        p,
        &low,
        &mut meeting.there,
    )? {
        return Ok(Some(Rule::Height));
    }
    broken_behind(
        code, locals, table, carried, came, action, p, x, edges, meeting,
    )
}

/// The rule that a position breaks in each table of the walk that comes to it first, if one is known.
pub(crate) fn broken(
    alloc: Global,
    code: &Code,
    locals: usize,
    table: &Table,
    carried: &Carried,
    came: &[bool],
    action: &Action,
    p: usize,
    x: &Shape,
    edges: &[Edge],
    meeting: &mut Seen,
) -> Result<Option<Rule>, NoMemory>
    requires within { p < length code.now.items.items }
    requires locals_are { locals ≡ (code_of code.now).locals }
    requires long { length came.now ≡ length (code_of code.now).actions }
    requires carried_is { IsCarried (code_of code.now) (rows_of table.now) carried.now }
    requires action_is { slice_get (code_of code.now).actions p ≡ Some (action_of action.now) }
    requires there { rows_specs.carried (code_of code.now) (rows_of table.now) p ≡ Some (at_of x.now) }
    requires came_there { IsSet came.now p }
    requires along { map edge_of_rust edges.now ≡ edges_specs.edges (code_of code.now) (action_of action.now) p (at_of x.now) }
    ensures { IfOk result (λ o. IfSome o (λ rule. Breaks (code_of code.now) (rows_specs.carried (code_of code.now) (rows_of table.now)) came.now p rule)) }
{
    if !holds(code, action, x, edges) {
        return Ok(Some(Rule::Handlers));
    }
    match agree(table, carried, came, edges, &mut meeting.there)? {
        None => Ok(None),
        Some(false) => Ok(Some(Rule::Handlers)),
        Some(true) => broken_slots(
            alloc, code, locals, table, carried, came, action, p, x, edges, meeting,
        ),
    }
}
