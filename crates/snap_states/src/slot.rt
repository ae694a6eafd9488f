//! Slots, as the flow tells them apart.

ghost use Rattle.std.specs.Prelude.{◌≡◌};
ghost use Rattle.bc_flow.specs.Machine.{cut};
ghost use Rattle.snap_states.specs.Stacks.{slot_as, stack_as, fits_kind, fit_kinds};

use bc_shapes::Kind;

/// What lies in a slot.
#[derive(Clone, Copy)]
pub(crate) enum Slot {
    Value,
    NoneOrException,
    KeptReturn,
    /// A jump to a position, out of a number of entries more, with an iterator or not.
    KeptJump {
        target: usize,
        count: usize,
        iterator: bool,
    },
    Iter1,
    Iter2,
    Iter3,
    Iter4,
    Null,
    Method,
}

/// Is the slot of the kind?
pub(crate) fn fits_kind(slot: Slot, kind: Kind) -> bool
    ensures { result ≡ fits_kind (slot_as slot) kind }
{
    match slot {
        Slot::Value => kind == Kind::Value,
        Slot::NoneOrException => matches!(kind, Kind::Value | Kind::Cause | Kind::Either),
        Slot::KeptReturn | Slot::KeptJump { .. } => kind == Kind::Cause,
        Slot::Iter1 => kind == Kind::Iter1,
        Slot::Iter2 => kind == Kind::Iter2,
        Slot::Iter3 => kind == Kind::Iter3,
        Slot::Iter4 => kind == Kind::Iter4,
        Slot::Null => kind == Kind::Null,
        Slot::Method => kind == Kind::Method,
    }
}

/// Are there equally many slots, and is each of its kind?
#[tactic(auto, using(crate::proofs::Fitting::kinds_step, crate::proofs::Fitting::kinds_end, crate::proofs::Fitting::kinds_differ, bc_shapes::proofs::Loops::and_first))]
pub(crate) fn fit_kinds(slots: &[Slot], kinds: &[Kind]) -> bool
    ensures { result ≡ fit_kinds (stack_as slots.now) kinds.now }
{
    if slots.len() != kinds.len() {
        return false;
    }
    for i in 0..slots.len() {
        if !fits_kind(slots[i], kinds[i]) {
            return false;
        }
    }
    true
}

/// The lowest `height` of the slots, the topmost of which stands first.
#[tactic(auto, using(crate::proofs::Fitting::lowest_some, crate::proofs::Fitting::lowest_all))]
pub(crate) fn lowest(slots: &[Slot], height: usize) -> &[Slot]
    ensures { stack_as result.now ≡ cut height (stack_as slots.now) }
{
    if height < slots.len() {
        &slots[slots.len() - height..]
    } else {
        slots
    }
}
