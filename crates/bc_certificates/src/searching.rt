//! Rows for a code, by a walk that promises nothing of them: each block of the code is walked once, and a few times more where a slot
//! that it moves changes. What else changes passes along its edges by words (`passing`).

ghost use Rattle.std.specs.Prelude.{◌≡◌, ◌<◌, IfOk, length};
ghost use Rattle.std.specs.Bool.{OnTrue};
ghost use Rattle.bc_flow.specs.Code.{code_of};
ghost use Rattle.bc_flow.specs.Verified.{Verified};

use crate::blocks::{Exits, MORE, NONE, Walk, block_at, exits_at, put_block, row_group, start};
use crate::certificate::{Row, Table};
use crate::checking::check;
use crate::groups::{SIZE, bit};
use crate::passing::{arrive, pass, take_changes};
use crate::sharing::share;
use crate::walking::{Lists, no_lists, walk_block};
use bc_flow::{Code, nothing};
use bc_ops::Item;
use mpy_base::NoMemory;
use std::alloc::Global;

/// Has a watched slot changed since the block was walked? If so, that is noted.
fn has_moved(walk: &mut Walk, b: usize, i: usize) -> bool {
    if i >= walk.watched.len() {
        return false;
    }
    let mut watched = walk.watched[i];
    let open = row_group(walk, watched.slot / SIZE, b).open;
    let value = open.values & bit(watched.slot) != 0;
    let cause = open.causes & bit(watched.slot) != 0;
    if value == watched.value && cause == watched.cause {
        return false;
    }
    watched.value = value;
    watched.cause = cause;
    walk.watched[i] = watched;
    true
}

/// Has any of the slots that a block watches changed since it was walked?
fn any_moved(walk: &mut Walk, b: usize, exits: Exits) -> bool {
    let mut any = false;
    for i in exits.watched.from..exits.watched.to {
        if has_moved(walk, b, i) {
            any = true;
        }
    }
    any
}

/// Visits a block the first time: it is walked by all rules.
fn visit_first(
    code: &Code,
    walk: &mut Walk,
    lists: &mut Lists,
    b: usize,
) -> Result<bool, NoMemory> {
    let _changed = take_changes(walk, b);
    walk_block(code, walk, lists, b)
}

/// Visits a block again: where a slot that it moves changed, it is walked; else what changed passes along its edges. One that was refused, or
/// wasn't visited, is left where it was seen to be.
fn visit_again(
    code: &Code,
    walk: &mut Walk,
    lists: &mut Lists,
    b: usize,
) -> Result<bool, NoMemory> {
    let exits = exits_at(walk, b);
    let changed = take_changes(walk, b);
    if any_moved(walk, b, exits) {
        return walk_block(code, walk, lists, b);
    }
    Ok(
        pass(walk, b, exits.raise, changed)
            && pass(walk, b, exits.jump, changed)
            && pass(walk, b, exits.next, changed),
    )
}

/// The first block from that number on that waits for a visit.
fn waiting_from(pending: &[u64], from: usize) -> Option<usize> {
    let first = from / SIZE;
    for w in first..pending.len() {
        let mut word = pending[w];
        if w == first {
            word = word & (u64::MAX << (from % SIZE));
        }
        if word != 0 {
            return Some(
                w.saturating_mul(SIZE)
                    .saturating_add(word.trailing_zeros() as usize),
            );
        }
    }
    None
}

/// Takes the next block that waits for a visit: the first one from that number on, or else the first of all.
fn take_waiting(walk: &mut Walk, from: usize) -> Option<usize> {
    let b = match waiting_from(&walk.pending, from) {
        Some(b) => b,
        None => waiting_from(&walk.pending, 0)?,
    };
    let at = b / SIZE;
    if at < walk.pending.len() {
        walk.pending[at] = walk.pending[at] & (bit(b) ^ u64::MAX);
    }
    Some(b)
}

/// Takes the first block that waits for its first visit.
fn take_fresh(walk: &mut Walk) -> Option<usize> {
    let b = waiting_from(&walk.fresh, walk.least)?;
    let at = b / SIZE;
    if at < walk.fresh.len() {
        walk.fresh[at] = walk.fresh[at] & (bit(b) ^ u64::MAX);
    }
    walk.least = b;
    Some(b)
}

/// Visits each block once, the first one that waits each time, and tells the one that was refused, if one was. Those are noted in `apart`
/// that aren't visited right behind the block from which the flow goes on to them.
fn visit_once(
    code: &Code,
    walk: &mut Walk,
    lists: &mut Lists,
    apart: &mut Vec<usize>,
) -> Result<usize, NoMemory> {
    let mut next = NONE;
    walk.strict = true;
    for _turn in 0..walk.blocks.len() {
        let Some(b) = take_fresh(walk) else {
            return Ok(NONE);
        };
        if next != b {
            apart.push(next)?;
        }
        if !visit_first(code, walk, lists, b)? {
            return Ok(b);
        }
        next = exits_at(walk, b).next.to;
    }
    Ok(NONE)
}

/// Lets changes pass on until none waits, and tells whether they all may. Behind its first visit a block waits only where a slot of its
/// row changed, and each slot changes once; so that is also how many visits there may be.
fn pass_all(code: &Code, walk: &mut Walk, lists: &mut Lists) -> Result<bool, NoMemory> {
    let slots = code.n_state.saturating_add(2).saturating_add(MORE);
    let mut from = 0;
    walk.strict = false;
    for _turn in 0..walk.blocks.len().saturating_mul(slots) {
        let Some(b) = take_waiting(walk, from) else {
            return Ok(true);
        };
        if !visit_again(code, walk, lists, b)? {
            return Ok(false);
        }
        from = b.saturating_add(1);
    }
    Ok(true)
}

/// Notes that these blocks have rows of their own.
fn set_apart(walk: &mut Walk, apart: &[usize]) {
    for b in apart {
        let mut block = block_at(walk, *b);
        block.meets = true;
        put_block(walk, *b, block);
    }
}

/// Does any instruction jump, or have a handler? Else edges meet nowhere, and the row of the first position is all that is needed.
fn any_jumps(code: &Code) -> bool {
    for item in &code.items {
        match item {
            Item::Plain(_) => {}
            Item::Jump(_, _) | Item::Unwind(_, _) => return true,
        }
    }
    false
}

/// The row of the first position alone.
fn first_row(alloc: Global) -> Result<Table, NoMemory> {
    let mut rows = Vec::with_capacity(alloc, 1)?;
    rows.push(Some(Row {
        top: nothing(alloc),
        base: 0,
        slots: 0,
        entries: 0,
    }))?;
    Ok(Table {
        rows,
        bases: Vec::new(alloc),
    })
}

/// Rows for the positions where edges meet, of a code that jumps.
fn rows_by_blocks(alloc: Global, code: &Code) -> Result<Option<Table>, NoMemory> {
    let mut walk = start(alloc, code)?;
    if !arrive(&mut walk, 0, 0, NONE)? {
        return Ok(None);
    }
    let mut lists = no_lists(alloc);
    let mut apart = Vec::new(alloc);
    let refused = visit_once(code, &mut walk, &mut lists, &mut apart)?;
    if !pass_all(code, &mut walk, &mut lists)? {
        return Ok(None);
    }
    if refused != NONE {
        set_apart(&mut walk, &apart);
    }
    walk.exits = Vec::new(alloc);
    walk.watched = Vec::new(alloc);
    Ok(Some(share(alloc, &walk)?))
}

/// Rows for the positions where edges meet, if some were found. They lie above what the flow has at the positions that it visits before it
/// meets a fault, if it does, where each was visited once.
pub fn search(alloc: Global, code: &Code) -> Result<Option<Table>, NoMemory> {
    if code.items.is_empty() {
        return Ok(None);
    }
    if !any_jumps(code) {
        return Ok(Some(first_row(alloc)?));
    }
    rows_by_blocks(alloc, code)
}

/// Was a certificate found? Codes that have none are told `false`.
pub fn certified(alloc: Global, code: &Code) -> Result<bool, NoMemory>
    ensures { IfOk result (λ yes. OnTrue yes (Verified (code_of code.now))) }
{
    match search(alloc, code)? {
        Some(table) => check(alloc, code, &table),
        None => Ok(false),
    }
}
