//! Edges of one position that end at the same one, and what they bring there doesn't meet.

ghost use Rattle.std.specs.Prelude.{IfOk, map};
ghost use Rattle.std.specs.Bool.{OnTrue};
ghost use Rattle.bc_flow.specs.Views.{edge_of_rust};
ghost use Rattle.bc_refusals.specs.Stages.{AnyApart, Apart, ApartFrom};

use bc_flow::Edge;
use bc_shapes::{Shape, Span, below, join};
use mpy_base::NoMemory;

/// Do two edges end at one position, and doesn't what they bring meet there?
fn are_apart(one: Edge, other: Edge, there: &mut Shape) -> Result<bool, NoMemory>
    ensures { IfOk result (λ yes. OnTrue yes (Apart (edge_of_rust one.entry) (edge_of_rust other.entry))) }
{
    if one.to != other.to {
        return Ok(false);
    }
    one.write(there)?;
    let mut span = Span { from: 0, to: 0 };
    match join(&mut there.slots, other.slots, None, &mut span) {
        Some(_) => Ok(false),
        None => Ok(true),
    }
}

/// Do an edge and one of the others?
fn is_apart(edge: Edge, others: &[Edge], there: &mut Shape) -> Result<bool, NoMemory>
    ensures { IfOk result (λ yes. OnTrue yes (ApartFrom (edge_of_rust edge.entry) (map edge_of_rust others.now))) }
{
    for other in others {
        if are_apart(edge, *other, there)? {
            return Ok(true);
        }
    }
    Ok(false)
}

/// Do two of the edges?
pub(crate) fn any_apart(edges: &[Edge], there: &mut Shape) -> Result<bool, NoMemory>
    ensures { IfOk result (λ yes. OnTrue yes (AnyApart (map edge_of_rust edges.now))) }
{
    for (k, edge) in edges.iter().enumerate() {
        if is_apart(*edge, below(edges, k + 1), there)? {
            return Ok(true);
        }
    }
    Ok(false)
}
