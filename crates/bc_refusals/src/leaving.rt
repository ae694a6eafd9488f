//! Positions from which the flow goes to finally handlers that run.

ghost use Rattle.std.specs.Prelude.{◌≡◌, ◌<◌, IfOk, Some, length, map, slice_get};
ghost use Rattle.std.specs.Bool.{OnTrue};
ghost use Rattle.bc_flow.specs.bc_shapes.Views.{at_of};
ghost use Rattle.bc_flow.specs.Code.{code_of};
ghost use Rattle.bc_flow.specs.Edges as edges_specs;
ghost use Rattle.bc_flow.specs.Views.{action_of, edge_of_rust};
ghost use Rattle.bc_certificates.specs.Checking.{rows_of};
ghost use Rattle.bc_certificates.specs.Rows as rows_specs;
ghost use Rattle.bc_refusals.specs.Chains.{AllInside, LeadOn};
ghost use Rattle.bc_refusals.specs.Stages.{Keeps};
ghost use Rattle.bc_refusals.specs.Views.{IsCarried};

use crate::arriving::{Carried, all_begin};
use crate::chaining::ends_set;
use bc_certificates::{Seen, Table, stands};
use bc_flow::{Action, Code, Edge, base, falls, raise_edge};
use bc_shapes::Shape;
use mpy_base::NoMemory;

/// Do all edges end in front of that position?
fn all_inside(edges: &[Edge], size: usize) -> bool
    ensures { OnTrue result (AllInside size (map edge_of_rust edges.now)) }
{
    for edge in edges {
        if edge.to >= size {
            return false;
        }
    }
    true
}

/// Are the rules kept at a position from which the flow doesn't go on to the next one, and does a raise lead from it to a handler from which
/// raises lead on? Then all finally handlers that run are such handlers, too.
pub(crate) fn keeps_leaving(
    code: &Code,
    locals: usize,
    table: &Table,
    carried: &Carried,
    leading: &[bool],
    came: &[bool],
    action: &Action,
    p: usize,
    x: &Shape,
    edges: &[Edge],
    meeting: &mut Seen,
) -> Result<bool, NoMemory>
    requires within { p < length code.now.items.items }
    requires locals_are { locals ≡ (code_of code.now).locals }
    requires carried_is { IsCarried (code_of code.now) (rows_of table.now) carried.now }
    requires there { rows_specs.carried (code_of code.now) (rows_of table.now) p ≡ Some (at_of x.now) }
    requires leading_are { LeadOn (rows_of table.now) leading.now }
    requires action_is { slice_get (code_of code.now).actions p ≡ Some (action_of action.now) }
    requires along { map edge_of_rust edges.now ≡ edges_specs.edges (code_of code.now) (action_of action.now) p (at_of x.now) }
    ensures { IfOk result (λ yes. OnTrue yes (Keeps (code_of code.now) (rows_specs.carried (code_of code.now) (rows_of table.now)) came.now p (at_of x.now))) }
{
    if falls(action) {
        return Ok(false);
    }
    if !ends_set(leading, raise_edge(x)) {
        return Ok(false);
    }
    if !all_inside(edges, came.len()) {
        return Ok(false);
    }
    let base = base(action, x);
    if !stands(code, locals, table, action, p, x, base, meeting)? {
        return Ok(false);
    }
    all_begin(table, carried, came, edges, meeting)
}
