//! Whether each kept jump finds the shapes on its way.

ghost use Rattle.std.specs.Prelude.{◌≡◌, map, option_copied, slice_get};
ghost use Rattle.std.specs.Option.{option_map};
ghost use Rattle.bc_shapes.specs.Shape.{same_entries};
ghost use Rattle.bc_shapes.specs.Views.{at_of};
ghost use Rattle.bc_flow.specs.Verified.{at, seen};
ghost use Rattle.bc_flow.specs.Views.{cell_of, table_of};
ghost use Rattle.bc_flow.specs.Machine.{remark};
ghost use Rattle.snap_states.specs.Stacks.{stack_as, fit_kinds, is_shape, arrives, leads_on, top_leads_on, jump_leads_on, jumps_lead_on, leaves_first, on_top};

use crate::slot::{Slot, fit_kinds, fits_kind, lowest};
use bc_flow::State;
use bc_shapes::{Entry, Kind, Shape, same_entry};

/// What is known of a position.
fn shape_in(state: &State) -> Option<&Shape>
    ensures { option_map at_of (option_copied result) ≡ seen (cell_of state.now) }
{
    match state {
        State::Unseen => None,
        State::Pending(shape) | State::Done(shape) => Some(shape),
    }
}

/// What is known of the position, if the code has it.
fn state_at(states: &[State], position: usize) -> Option<&State>
    ensures { option_copied result ≡ slice_get states.now position }
{
    states.get(position)
}

/// What holds of the position, if the flow comes there.
pub(crate) fn shape_at(states: &[State], position: usize) -> Option<&Shape>
    ensures { option_map at_of (option_copied result) ≡ at (table_of states.now) position }
{
    match state_at(states, position) {
        None => None,
        Some(state) => shape_in(state),
    }
}

/// The entry, active from its handler's position on.
fn remark(entry: Entry, position: usize) -> Entry
    ensures { result ≡ remark position entry }
{
    Entry {
        active: entry.handler <= position,
        ..entry
    }
}

/// Are the found entries these others, as they are at the position?
#[tactic(auto, using(crate::proofs::Leading::marked_step, crate::proofs::Leading::marked_end, crate::proofs::Leading::marked_differ, bc_shapes::proofs::Loops::and_first))]
fn same_remarked(found: &[Entry], entries: &[Entry], position: usize) -> bool
    ensures { result ≡ same_entries found.now (map (remark position) entries.now) }
{
    if found.len() != entries.len() {
        return false;
    }
    for i in 0..found.len() {
        if !same_entry(found[i], remark(entries[i], position)) {
            return false;
        }
    }
    true
}

/// Are the slots, with one on top or none, of these kinds?
fn fit_with(top: Option<Slot>, slots: &[Slot], kinds: &[Kind]) -> bool
    ensures { result ≡ fit_kinds (on_top top (stack_as slots.now)) kinds.now }
{
    match top {
        None => fit_kinds(slots, kinds),
        Some(slot) => match kinds {
            [] => false,
            [kind, rest @ ..] => fits_kind(slot, *kind) && fit_kinds(slots, rest),
        },
    }
}

/// Is the shape of the position that of the slots, with one on top or none, and the entries?
fn is_shape(
    states: &[State],
    position: usize,
    top: Option<Slot>,
    slots: &[Slot],
    entries: &[Entry],
) -> bool
    ensures { result ≡ is_shape (at (table_of states.now)) position (on_top top (stack_as slots.now)) entries.now }
{
    match shape_at(states, position) {
        None => false,
        Some(shape) => {
            same_remarked(&shape.entries, entries, position) && fit_with(top, slots, &shape.slots)
        }
    }
}

/// Does a jump that is out of all entries that it leaves find the shape of its target?
fn arrives(
    states: &[State],
    target: usize,
    iterator: bool,
    entries: &[Entry],
    slots: &[Slot],
) -> bool
    ensures { result ≡ arrives (at (table_of states.now)) target iterator entries.now (stack_as slots.now) }
{
    if !iterator {
        return is_shape(states, target, None, slots, entries);
    }
    match slots {
        [
            Slot::Iter4,
            Slot::Iter3,
            Slot::Iter2,
            Slot::Iter1,
            rest @ ..,
        ] => { is_shape(states, target, None, rest, entries) }
        _ => false,
    }
}

/// Does a jump that leaves the first of the entries find the shape of its finally, if it runs it?
#[tactic(auto, using(crate::proofs::Leading::passes_except, crate::proofs::Leading::passes_active, crate::proofs::Leading::passes_run))]
fn passes(
    states: &[State],
    target: usize,
    iterator: bool,
    count: usize,
    entries: &[Entry],
    slots: &[Slot],
) -> bool
    ensures { result ≡ leaves_first (at (table_of states.now)) target iterator count entries.now (stack_as slots.now) }
{
    match entries {
        [] => false,
        [entry, ..] => {
            if !entry.is_finally || entry.active {
                return true;
            }
            let jump = Slot::KeptJump {
                target,
                count,
                iterator,
            };
            let rest = lowest(slots, entry.height);
            is_shape(states, entry.handler, Some(jump), rest, entries)
        }
    }
}

/// Does a jump lead on out of the first `count` entries, through each finally that it runs, to its target?
#[tactic(auto, using(crate::proofs::Leading::leads_none))]
pub(crate) fn leads_on(
    states: &[State],
    target: usize,
    iterator: bool,
    count: usize,
    entries: &[Entry],
    slots: &[Slot],
) -> bool
    ensures { result ≡ leads_on (at (table_of states.now)) target iterator count entries.now (stack_as slots.now) }
{
    if entries.len() < count {
        return false;
    }
    let mut rest = slots;
    for i in 0..count {
        let left = &entries[i..];
        if !passes(states, target, iterator, count - i - 1, left, rest) {
            return false;
        }
        rest = lowest(rest, entries[i].height);
    }
    arrives(states, target, iterator, &entries[count..], rest)
}

/// Does the jump that the topmost slot keeps lead on below it, if it keeps one?
fn top_leads_on(states: &[State], entries: &[Entry], slots: &[Slot]) -> bool
    ensures { result ≡ top_leads_on (at (table_of states.now)) entries.now (stack_as slots.now) }
{
    match slots {
        [
            Slot::KeptJump {
                target,
                count,
                iterator,
            },
            rest @ ..,
        ] => leads_on(states, *target, *iterator, *count, entries, rest),
        _ => true,
    }
}

/// Does the jump that the slot at this height keeps lead on, if there is one that keeps one?
#[tactic(auto, using(crate::proofs::Leading::high_leads))]
fn jump_leads_on(states: &[State], entries: &[Entry], height: usize, slots: &[Slot]) -> bool
    ensures { result ≡ jump_leads_on (at (table_of states.now)) entries.now height (stack_as slots.now) }
{
    if height < slots.len() {
        top_leads_on(states, entries, &slots[slots.len() - 1 - height..])
    } else {
        true
    }
}

/// Does each kept jump lead on out of entries below its own?
#[tactic(auto, using(crate::proofs::Leading::jumps_step, crate::proofs::Leading::jumps_end, bc_shapes::proofs::Loops::and_first))]
pub(crate) fn jumps_lead_on(states: &[State], entries: &[Entry], slots: &[Slot]) -> bool
    ensures { result ≡ jumps_lead_on (at (table_of states.now)) entries.now (stack_as slots.now) }
{
    let mut rest = slots;
    for i in 0..entries.len() {
        let height = entries[i].height;
        if !jump_leads_on(states, &entries[i + 1..], height, rest) {
            return false;
        }
        rest = lowest(rest, height);
    }
    true
}
