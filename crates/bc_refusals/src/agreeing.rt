//! Whether the lists of entries that meet agree.

ghost use Rattle.std.specs.Prelude.{◌≡◌, IfOk, IfSome, length, map};
ghost use Rattle.bc_flow.specs.Code.{Code as SpecCode};
ghost use Rattle.bc_flow.specs.Verified as flow_specs;
ghost use Rattle.bc_flow.specs.Verified.{Table as SpecTable};
ghost use Rattle.bc_flow.specs.Views.{edge_of_rust};
ghost use Rattle.bc_certificates.specs.Checking.{rows_of};
ghost use Rattle.bc_certificates.specs.Rows as rows_specs;
ghost use Rattle.bc_refusals.specs.Stages.{Agrees, Between};
ghost use Rattle.bc_refusals.specs.Views.{IsCarried};

use crate::arriving::{Carried, is_set, read_there};
use bc_certificates::Table;
use bc_flow::{Edge, others, same_entries};
use bc_shapes::{Shape, below};
use mpy_base::NoMemory;

/// Are the entries that an edge brings those that hold at its end, if any do? None where that isn't known.
fn agrees(
    table: &Table,
    carried: &Carried,
    came: &[bool],
    edge: Edge,
    there: &mut Shape,
) -> Result<Option<bool>, NoMemory>
    ensures { (code : SpecCode) → IsCarried code (rows_of table.now) carried.now → IfOk result (λ o. IfSome o (λ yes. (t : SpecTable)
        → length t ≡ length came.now → Between (rows_specs.carried code (rows_of table.now)) came.now t
        → flow_specs.agrees t edge.entry.to (edge_of_rust edge.entry).at.entries ≡ yes)) }
{
    if edge.to >= came.len() {
        return Ok(Some(false));
    }
    if !is_set(came, edge.to) {
        return Ok(Some(true));
    }
    if !read_there(table, carried, edge.to, there)? {
        return Ok(None);
    }
    Ok(Some(same_entries(&there.entries, edge)))
}

/// Do all lists of entries that meet agree? None where that isn't known.
pub(crate) fn agree(
    table: &Table,
    carried: &Carried,
    came: &[bool],
    edges: &[Edge],
    there: &mut Shape,
) -> Result<Option<bool>, NoMemory>
    ensures { (code : SpecCode) → IsCarried code (rows_of table.now) carried.now → IfOk result (λ o. IfSome o (λ yes.
        Agrees (rows_specs.carried code (rows_of table.now)) came.now (map edge_of_rust edges.now) yes)) }
{
    for (k, edge) in edges.iter().enumerate() {
        match agrees(table, carried, came, *edge, there)? {
            None => return Ok(None),
            Some(false) => return Ok(Some(false)),
            Some(true) => {}
        }
        if !others(*edge, below(edges, k + 1)) {
            return Ok(Some(false));
        }
    }
    Ok(Some(true))
}
