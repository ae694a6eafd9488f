//! Slots that arrive at a block: its first row, and then what of it changes.

ghost use Rattle.std.specs.Prelude.{◌<◌, length};

use crate::blocks::{
    Block, Exit, Walk, block_at, firm_number, firm_of, groups_of, make_room, place, put_block,
    put_row_group, row_group,
};
use crate::groups::{Firm, Group, MOST, Open, SIZE, below, bit, group_at, only_slots, same_firm};
use mpy_base::NoMemory;

/// Puts a block among those that wait for a visit.
pub(crate) fn wait(walk: &mut Walk, b: usize) {
    let at = b / SIZE;
    if at < walk.pending.len() {
        walk.pending[at] = walk.pending[at] | bit(b);
    }
}

/// Puts a block among those that wait for their first visit.
fn wait_first(walk: &mut Walk, b: usize) {
    let at = b / SIZE;
    if at < walk.fresh.len() {
        walk.fresh[at] = walk.fresh[at] | bit(b);
    }
    walk.least = walk.least.min(b);
    wait(walk, b);
}

/// Notes that a group of a block's row changed.
fn note_change(walk: &mut Walk, b: usize, g: usize) {
    if b < walk.changed.len() {
        walk.changed[b] = walk.changed[b] | bit(g);
    }
    wait(walk, b);
}

/// Which groups of a block's row changed since it was visited. From now on none has.
pub(crate) fn take_changes(walk: &mut Walk, b: usize) -> u64 {
    if b < walk.changed.len() {
        let changed = walk.changed[b];
        walk.changed[b] = 0;
        changed
    } else {
        0
    }
}

/// Lets values and causes arrive at a group of a block's row, and tells whether they may.
pub(crate) fn meet_open(walk: &mut Walk, b: usize, g: usize, come: Open) -> bool {
    let at = place(walk, g, b);
    if at >= walk.open.len() {
        return false;
    }
    let old = walk.open[at];
    let values = old.values | come.values;
    let causes = old.causes | come.causes;
    if values & causes != 0 {
        return false;
    }
    if values != old.values || causes != old.causes {
        walk.open[at] = Open { values, causes };
        note_change(walk, b, g);
    }
    true
}

/// Have the slots that stay the same kinds in both groups?
fn stay_alike(one: Group, other: Group) -> bool {
    let firm = one.firm.low | one.firm.high;
    one.firm.low == other.firm.low
        && one.firm.high == other.firm.high
        && (one.open.values ^ other.open.values) & firm == 0
}

/// Lets the slots of a group arrive at a block's row, and tells whether they may.
fn meet_group(walk: &mut Walk, b: usize, g: usize, come: Group) -> bool {
    if !stay_alike(row_group(walk, g, b), come) {
        return false;
    }
    meet_open(walk, b, g, come.open)
}

/// Are these the same lists of entries?
fn same_lists(walk: &Walk, one: usize, other: usize) -> bool {
    let mut a = one;
    let mut b = other;
    for _turn in 0..walk.nodes.len() {
        if a == b {
            return true;
        }
        if a >= walk.nodes.len() || b >= walk.nodes.len() {
            return false;
        }
        let x = walk.nodes[a];
        let y = walk.nodes[b];
        if x.handler != y.handler || x.height != y.height || x.depth != y.depth {
            return false;
        }
        if x.is_finally != y.is_finally {
            return false;
        }
        a = x.below;
        b = y.below;
    }
    a == b
}

/// A number for slots that stay in a group: that of the block that is walked, where they are the same there, or else the last one or a
/// new one; none where there are too many.
fn number_firm(walk: &mut Walk, g: usize, firm: Firm) -> Result<Option<u16>, NoMemory> {
    let here = firm_number(walk, g, walk.walked);
    if same_firm(firm_of(walk, here), firm) {
        return Ok(Some(here));
    }
    if same_firm(firm_of(walk, 0), firm) {
        return Ok(Some(0));
    }
    let count = walk.firms.len();
    if count > 65535 {
        return Ok(None);
    }
    if count > 0 && same_firm(walk.firms[count - 1], firm) {
        return Ok(Some((count - 1) as u16));
    }
    walk.firms.push(firm)?;
    Ok(Some(count as u16))
}

/// Makes the lowest slots of the walk the row of a block.
fn put_groups(walk: &mut Walk, b: usize, height: usize) -> Result<bool, NoMemory> {
    for g in 0..groups_of(height) {
        let come = only_slots(group_at(&walk.slots, g), below(g, height));
        match number_firm(walk, g, come.firm)? {
            None => return Ok(false),
            Some(number) => put_row_group(walk, g, b, come.open, number),
        }
    }
    Ok(true)
}

/// Makes the lowest slots of the walk the row of a block that an edge comes to first.
fn put_row(
    walk: &mut Walk,
    b: usize,
    block: Block,
    height: usize,
    entry: usize,
) -> Result<bool, NoMemory> {
    make_room(walk, groups_of(height))?;
    let mut first = block;
    first.reached = true;
    first.height = height;
    first.entry = entry;
    first.source = walk.walked;
    put_block(walk, b, first);
    walk.order.push(b)?;
    wait_first(walk, b);
    put_groups(walk, b, height)
}

/// Lets the lowest slots of the walk arrive at a block's row.
fn meet_row(walk: &mut Walk, b: usize, height: usize) -> bool {
    for g in 0..groups_of(height) {
        let slots = below(g, height);
        if slots != 0 {
            let come = only_slots(group_at(&walk.slots, g), slots);
            if !meet_group(walk, b, g, come) {
                return false;
            }
        }
    }
    true
}

/// Lets the lowest `height` slots of the walk arrive at a block with these entries, and tells whether they may.
pub(crate) fn arrive(
    walk: &mut Walk,
    b: usize,
    height: usize,
    entry: usize,
) -> Result<bool, NoMemory> {
    if b >= walk.blocks.len() {
        return Ok(false);
    }
    let block = block_at(walk, b);
    if !block.reached {
        return put_row(walk, b, block, height, entry);
    }
    if block.height != height || !same_lists(walk, block.entry, entry) {
        return Ok(false);
    }
    Ok(meet_row(walk, b, height))
}

/// Lets the slots of a block's row that changed arrive where they pass unchanged, and tells whether they may.
pub(crate) fn pass(walk: &mut Walk, b: usize, exit: Exit, changed: u64) -> bool {
    if exit.to >= walk.blocks.len() {
        return true;
    }
    let mut rest = changed;
    for _turn in 0..MOST {
        if rest == 0 {
            return true;
        }
        let g = rest.trailing_zeros() as usize;
        rest = rest & rest.wrapping_sub(1);
        let slots = below(g, exit.limit);
        if slots == 0 {
            return true;
        }
        let here = row_group(walk, g, b).open;
        let come = Open {
            values: here.values & slots,
            causes: here.causes & slots,
        };
        if !meet_open(walk, exit.to, g, come) {
            return false;
        }
    }
    true
}
