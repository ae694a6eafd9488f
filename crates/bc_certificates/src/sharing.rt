//! The rows that a walk found, as a table in which rows share the slots and entries that they have in common.

ghost use Rattle.std.specs.Prelude.{◌<◌, length};

use crate::blocks::{Block, NONE, Walk, block_at, groups_of, row_group};
use crate::certificate::{Row, Table};
use crate::groups::{Group, SIZE, below, bit, kind_of, only_kind, only_slots};
use bc_shapes::{Entry, Kind, Shape};
use mpy_base::NoMemory;
use std::alloc::Global;

/// How many of the last bases a row is compared with.
const RECENT: usize = 8;

/// Adds the slots of a group from one number up to another to a list, the topmost first.
fn push_slots(slots: &mut Vec<Kind>, group: Group, from: usize, to: usize) -> Result<(), NoMemory> {
    if let Some(kind) = only_kind(group, below(0, to)) {
        for _i in from..to {
            slots.push(kind)?;
        }
        return Ok(());
    }
    for i in from..to {
        slots.push(kind_of(group, bit(to - 1 - (i - from))))?;
    }
    Ok(())
}

/// The slots of a block's row with numbers from `low` on, the topmost first.
fn slots_from(
    alloc: Global,
    walk: &Walk,
    b: usize,
    low: usize,
    height: usize,
) -> Result<Vec<Kind>, NoMemory> {
    if height <= low {
        return Ok(Vec::new(alloc));
    }
    let mut slots = Vec::with_capacity(alloc, height - low)?;
    let groups = groups_of(height);
    for i in 0..groups {
        let g = groups - 1 - i;
        let first = g.saturating_mul(SIZE);
        let to = height.saturating_sub(first).min(SIZE);
        let from = low.saturating_sub(first).min(to);
        push_slots(&mut slots, row_group(walk, g, b), from, to)?;
    }
    Ok(slots)
}

/// How many entries a list has.
fn count_entries(walk: &Walk, entry: usize) -> usize {
    if entry < walk.nodes.len() {
        walk.nodes[entry].depth.saturating_add(1)
    } else {
        0
    }
}

/// The topmost `count` entries of a list, as they are at a position, the topmost first.
fn entries_from(
    alloc: Global,
    walk: &Walk,
    position: usize,
    entry: usize,
    count: usize,
) -> Result<Vec<Entry>, NoMemory> {
    let mut entries = Vec::new(alloc);
    let mut at = entry;
    for _turn in 0..count {
        if at >= walk.nodes.len() {
            return Ok(entries);
        }
        let node = walk.nodes[at];
        entries.push(Entry {
            handler: node.handler,
            is_finally: node.is_finally,
            active: node.handler <= position,
            height: node.height,
        })?;
        at = node.below;
    }
    Ok(entries)
}

/// The list of entries below that many.
fn drop_entries(walk: &Walk, entry: usize, count: usize) -> usize {
    let mut at = entry;
    for _turn in 0..count {
        if at >= walk.nodes.len() {
            return NONE;
        }
        at = walk.nodes[at].below;
    }
    at
}

/// How many of the lowest entries are the same in both lists, and as active at the one position as at the other.
fn common_entries(walk: &Walk, one: Block, other: Block) -> usize {
    let a = count_entries(walk, one.entry);
    let b = count_entries(walk, other.entry);
    let most = a.min(b);
    let mut x = drop_entries(walk, one.entry, a.saturating_sub(most));
    let mut y = drop_entries(walk, other.entry, b.saturating_sub(most));
    let mut common = 0;
    for i in 0..most {
        if x >= walk.nodes.len() || y >= walk.nodes.len() {
            return common;
        }
        let handler = walk.nodes[x].handler;
        if x != y || (handler <= one.position) != (handler <= other.position) {
            common = 0;
        } else if common == 0 {
            common = most - i;
        }
        x = walk.nodes[x].below;
        y = walk.nodes[y].below;
    }
    common
}

/// Have both groups the same bits?
fn same_group(one: Group, other: Group) -> bool {
    one.open.values == other.open.values
        && one.open.causes == other.open.causes
        && one.firm.low == other.firm.low
        && one.firm.high == other.firm.high
}

/// How many of the lowest slots are the same in both rows, or somewhat fewer.
fn common_slots(walk: &Walk, one: usize, other: usize, most: usize) -> usize {
    for g in 0..groups_of(most) {
        let slots = below(g, most);
        let a = only_slots(row_group(walk, g, one), slots);
        let b = only_slots(row_group(walk, g, other), slots);
        if !same_group(a, b) {
            return g.saturating_mul(SIZE);
        }
    }
    most
}

/// A base, and what a row has in common with it.
#[derive(Clone, Copy)]
struct Shared {
    base: usize,
    slots: usize,
    entries: usize,
}

/// The bases so far, the blocks whose rows they are, and what each block's row shares.
#[derive(Drop)]
struct Plan {
    bases: Vec<Shape>,
    owners: Vec<usize>,
    shares: Vec<Shared>,
    /// What rows that have somewhat more of their own took since the last base was made, in bytes.
    spent: usize,
}

/// Nothing shared with a base.
fn nothing_of(base: usize) -> Shared {
    Shared {
        base,
        slots: 0,
        entries: 0,
    }
}

/// All that a block's row has.
fn all_of(walk: &Walk, b: usize, base: usize) -> Shared {
    let block = block_at(walk, b);
    Shared {
        base,
        slots: block.height,
        entries: count_entries(walk, block.entry),
    }
}

/// What a block's row shares.
fn share_of(shares: &[Shared], b: usize) -> Shared {
    if b < shares.len() {
        shares[b]
    } else {
        nothing_of(NONE)
    }
}

/// What a row has in common with a base.
fn shared_with(walk: &Walk, b: usize, owners: &[usize], base: usize) -> Shared {
    if base >= owners.len() {
        return nothing_of(NONE);
    }
    let one = block_at(walk, b);
    let other = block_at(walk, owners[base]);
    Shared {
        base,
        slots: common_slots(walk, b, owners[base], one.height.min(other.height)),
        entries: common_entries(walk, one, other),
    }
}

/// How many bytes are saved, about.
fn saved(shared: Shared) -> usize {
    shared
        .slots
        .saturating_add(shared.entries.saturating_mul(24))
}

/// What a row of that many bytes has beside what it shares.
fn own_part(whole: usize, shared: Shared) -> usize {
    whole.saturating_sub(saved(shared))
}

/// May a row of that many bytes be on the base, without a new one? So it may where it has little of its own, and where it has somewhat
/// more as long as such rows took less than a base does.
fn serves(whole: usize, shared: Shared, spent: usize) -> bool {
    let own = own_part(whole, shared);
    own <= SIZE || (own <= whole / 8 && spent.saturating_add(own) <= whole)
}

/// Notes what a row takes that is on a base.
fn spend(plan: &mut Plan, whole: usize, shared: Shared) {
    let own = own_part(whole, shared);
    if own > SIZE {
        plan.spent = plan.spent.saturating_add(own);
    }
}

/// What a row has in common with that one of the last bases with which it has most in common.
fn best_shared(walk: &Walk, b: usize, owners: &[usize]) -> Shared {
    let mut best = nothing_of(NONE);
    for base in owners.len().saturating_sub(RECENT)..owners.len() {
        let shared = shared_with(walk, b, owners, base);
        if saved(shared) > saved(best) {
            best = shared;
        }
    }
    best
}

/// Makes a base of all slots and entries of a block's row.
fn push_base(alloc: Global, walk: &Walk, b: usize, plan: &mut Plan) -> Result<Shared, NoMemory> {
    let number = plan.bases.len();
    let whole = all_of(walk, b, number);
    let block = block_at(walk, b);
    let slots = slots_from(alloc, walk, b, 0, block.height)?;
    let entries = entries_from(alloc, walk, block.position, block.entry, whole.entries)?;
    plan.bases.push(Shape { slots, entries })?;
    plan.owners.push(b)?;
    plan.spent = 0;
    Ok(whole)
}

/// What a block's row shares: with the base of the row that the flow came from first or one of the last bases, if that serves, and else
/// with a new one.
fn share_row(
    alloc: Global,
    walk: &Walk,
    b: usize,
    base: usize,
    plan: &mut Plan,
) -> Result<Shared, NoMemory> {
    let whole = saved(all_of(walk, b, NONE));
    let mut shared = shared_with(walk, b, &plan.owners, base);
    if !serves(whole, shared, plan.spent) {
        shared = best_shared(walk, b, &plan.owners);
    }
    if !serves(whole, shared, plan.spent) {
        return push_base(alloc, walk, b, plan);
    }
    spend(plan, whole, shared);
    Ok(shared)
}

/// Notes what a block's row shares. Where no edges meet, that is nothing: it has no row in the table.
fn plan_row(alloc: Global, walk: &Walk, b: usize, plan: &mut Plan) -> Result<(), NoMemory> {
    let block = block_at(walk, b);
    let mut shared = nothing_of(share_of(&plan.shares, block.source).base);
    if block.meets {
        shared = share_row(alloc, walk, b, shared.base, plan)?;
    }
    if b < plan.shares.len() {
        plan.shares[b] = shared;
    }
    Ok(())
}

/// What the rows share. They are gone through in the order in which edges came to them.
fn plan_rows(alloc: Global, walk: &Walk) -> Result<Plan, NoMemory> {
    let mut shares = Vec::with_capacity(alloc, walk.blocks.len())?;
    for _block in &walk.blocks {
        shares.push(nothing_of(NONE))?;
    }
    let mut plan = Plan {
        bases: Vec::new(alloc),
        owners: Vec::new(alloc),
        shares,
        spent: 0,
    };
    for b in &walk.order {
        plan_row(alloc, walk, *b, &mut plan)?;
    }
    Ok(plan)
}

/// The row of a block, if edges may meet there and one was found.
fn row_of(alloc: Global, walk: &Walk, b: usize, shared: Shared) -> Result<Option<Row>, NoMemory> {
    let block = block_at(walk, b);
    if !block.meets || !block.reached {
        return Ok(None);
    }
    let count = count_entries(walk, block.entry).saturating_sub(shared.entries);
    let slots = slots_from(alloc, walk, b, shared.slots, block.height)?;
    let entries = entries_from(alloc, walk, block.position, block.entry, count)?;
    let base = if saved(shared) == 0 {
        NONE
    } else {
        shared.base
    };
    Ok(Some(Row {
        top: Shape { slots, entries },
        base,
        slots: shared.slots,
        entries: shared.entries,
    }))
}

/// The rows that a walk found.
pub(crate) fn share(alloc: Global, walk: &Walk) -> Result<Table, NoMemory> {
    let plan = plan_rows(alloc, walk)?;
    let mut rows = Vec::with_capacity(alloc, walk.numbers.len())?;
    for b in &walk.numbers {
        let row = row_of(alloc, walk, *b, share_of(&plan.shares, *b))?;
        rows.push(row)?;
    }
    Ok(Table {
        rows,
        bases: plan.bases,
    })
}
