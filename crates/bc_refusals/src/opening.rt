//! What may have come to a position first.

ghost use Rattle.std.specs.Prelude.{◌≡◌, map};
ghost use Rattle.bc_flow.specs.bc_shapes.Views.{at_of};
ghost use Rattle.bc_refusals.specs.Stages as specs;

use bc_shapes::{Kind, Shape};

/// A slot that is a value now may have been open.
fn open_kind(kind: Kind) -> Kind
    ensures { result ≡ specs.open_kind kind }
{
    match kind {
        Kind::Value => Kind::Either,
        other => other,
    }
}

/// Opens all slots that are values.
#[tactic(auto, using(std::proofs::lemmas::List::Edits::map_over_more))]
fn open_slots(slots: &mut Vec<Kind>)
    ensures { slots.new.items ≡ map specs.open_kind slots.old.items }
{
    for i in 0..slots.len() {
        slots[i] = open_kind(slots[i]);
    }
}

/// Makes what holds at a position what may have come there first.
pub(crate) fn open_shape(x: &mut Shape)
    ensures { at_of x.new ≡ specs.opened (at_of x.old) }
{
    open_slots(&mut x.slots);
}
