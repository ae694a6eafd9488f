//! The walk of one block, instruction by instruction.

ghost use Rattle.std.specs.Prelude.{◌<◌, length};

use crate::blocks::{
    Exit, MORE, NONE, Node, Walk, Watched, block_at, exits_at, groups_of, number_at, put_block,
    put_exits, row_group,
};
use crate::groups::{MOST, SIZE, bit, group_at, kind_at, put_group, put_kind, put_values};
use crate::obeying::{has_room, may_act, may_go};
use crate::passing::arrive;
use bc_flow::{
    Action, Change, Code, action_at, change_of, falls, gives, gives_there, takes, target,
};
use bc_shapes::{Give, Gives, Kind, Span};
use mpy_base::NoMemory;
use std::alloc::Global;

/// How a walk goes on behind a position.
#[derive(Clone, Copy)]
enum Turn {
    Refused,
    Ends,
    GoesOn,
}

/// What the walk of a block knows of a position.
#[derive(Clone, Copy)]
pub(crate) struct Point {
    pub position: usize,
    pub height: usize,
    /// The topmost entry.
    pub entry: usize,
    /// How many slots, from the lowest one, the block left alone so far.
    pub low: usize,
}

/// A slot that an instruction gives: its kind, and the slot of the block's beginning that it is.
#[derive(Clone, Copy)]
struct Given {
    kind: Kind,
    origin: usize,
}

/// The slot of the block's beginning that a slot is, or none.
fn origin_of(walk: &Walk, low: usize, slot: usize) -> usize {
    if slot < low {
        slot
    } else {
        number_at(&walk.origins, slot)
    }
}

/// Notes which slot of the block's beginning a slot is.
fn put_origin(walk: &mut Walk, slot: usize, origin: usize) {
    if slot < walk.origins.len() {
        walk.origins[slot] = origin;
    }
}

/// What a slot is that an instruction gives.
fn given_by(walk: &Walk, point: Point, give: Give) -> Given {
    match give {
        Give::New(kind) => Given { kind, origin: NONE },
        Give::Again(n) => {
            let slot = point.height.saturating_sub(n.saturating_add(1));
            Given {
                kind: kind_at(&walk.slots, slot),
                origin: origin_of(walk, point.low, slot),
            }
        }
    }
}

/// The slots that an instruction gives below its new values, the topmost first.
fn list_given(
    walk: &Walk,
    point: Point,
    gives: Gives,
    list: &mut Vec<Given>,
) -> Result<(), NoMemory> {
    list.clear();
    for give in gives.others {
        list.push(given_by(walk, point, *give))?;
    }
    Ok(())
}

/// Puts slots that are given onto the lowest `base` ones, with that number of new values on top, and answers how many slots there
/// are then.
fn put_given(walk: &mut Walk, base: usize, list: &[Given], values: u32) -> usize {
    let behind = base.saturating_add(list.len());
    for (k, given) in list.iter().enumerate() {
        let slot = behind.saturating_sub(k.saturating_add(1));
        put_kind(&mut walk.slots, slot, given.kind);
        put_origin(walk, slot, given.origin);
    }
    let height = behind.saturating_add(values as usize);
    put_values(&mut walk.slots, behind, height);
    for slot in behind..height.min(walk.origins.len()) {
        put_origin(walk, slot, NONE);
    }
    height
}

/// A slot of a block's beginning, with the bits that it has in the row.
fn watch(walk: &Walk, b: usize, slot: usize) -> Watched {
    let open = row_group(walk, slot / SIZE, b).open;
    Watched {
        slot,
        value: open.values & bit(slot) != 0,
        cause: open.causes & bit(slot) != 0,
    }
}

/// Is a slot among those that are watched from that number on?
fn is_watched(watched: &[Watched], from: usize, slot: usize) -> bool {
    for i in from..watched.len() {
        if watched[i].slot == slot {
            return true;
        }
    }
    false
}

/// Watches the slots of the block's beginning that stand elsewhere at its end.
fn watch_moved(
    walk: &mut Walk,
    b: usize,
    from: usize,
    low: usize,
    height: usize,
) -> Result<(), NoMemory> {
    for slot in low..height {
        let origin = number_at(&walk.origins, slot);
        if origin != NONE && !is_watched(&walk.watched, from, origin) {
            let watched = watch(walk, b, origin);
            walk.watched.push(watched)?;
        }
    }
    Ok(())
}

/// Loads a block's row.
fn load(walk: &mut Walk, b: usize, height: usize) {
    for g in 0..groups_of(height) {
        let group = row_group(walk, g, b);
        put_group(&mut walk.slots, g, group);
    }
}

/// May a block begin with that many slots, or is it behind an instruction that has no room for them?
fn fits(code: &Code, height: usize) -> bool {
    height <= code.n_state.saturating_add(MORE) && height <= MOST * SIZE
}

/// Goes along an edge of the block, and tells it, if the slots may arrive there.
fn leave(
    code: &Code,
    walk: &mut Walk,
    to: usize,
    height: usize,
    point: Point,
) -> Result<Option<Exit>, NoMemory> {
    if !fits(code, height) || !arrive(walk, to, height, point.entry)? {
        return Ok(None);
    }
    Ok(Some(Exit {
        to,
        limit: point.low.min(height),
    }))
}

/// The topmost entry that isn't active at a position, or none.
fn raised(walk: &Walk, position: usize, entry: usize) -> usize {
    let mut at = entry;
    for _turn in 0..walk.nodes.len() {
        if at >= walk.nodes.len() {
            return NONE;
        }
        if walk.nodes[at].handler > position {
            return at;
        }
        at = walk.nodes[at].below;
    }
    NONE
}

/// Goes along the edge from a block's first position to the handler of an entry.
fn leave_raised(
    code: &Code,
    walk: &mut Walk,
    position: usize,
    entry: usize,
) -> Result<Option<Exit>, NoMemory> {
    if entry >= walk.nodes.len() {
        return Ok(None);
    }
    let node = walk.nodes[entry];
    let height = node.height.saturating_add(1);
    if !fits(code, height) || !may_go(walk, node.below, position, node.handler) {
        return Ok(None);
    }
    let kept = group_at(&walk.slots, node.height / SIZE);
    let first = if node.is_finally {
        Kind::Cause
    } else {
        Kind::Either
    };
    put_kind(&mut walk.slots, node.height, first);
    let to = number_at(&walk.numbers, node.handler);
    let fine = arrive(walk, to, height, entry)?;
    put_group(&mut walk.slots, node.height / SIZE, kept);
    if !fine {
        return Ok(None);
    }
    Ok(Some(Exit {
        to,
        limit: node.height,
    }))
}

/// Goes to the handler that a raise at the block's first position runs, if an entry was pushed just before.
fn walk_raise(code: &Code, walk: &mut Walk, b: usize) -> Result<bool, NoMemory> {
    let block = block_at(walk, b);
    if !block.behind_setup {
        return Ok(true);
    }
    let entry = raised(walk, block.position, block.entry);
    if entry == NONE {
        return Ok(true);
    }
    match leave_raised(code, walk, block.position, entry)? {
        None => Ok(false),
        Some(exit) => {
            let mut exits = exits_at(walk, b);
            exits.raise = exit;
            put_exits(walk, b, exits);
            Ok(true)
        }
    }
}

/// The entry that the block's last instruction pushes.
fn push_entry(
    code: &Code,
    walk: &mut Walk,
    b: usize,
    point: Point,
    handler: usize,
    is_finally: bool,
) -> Result<Option<usize>, NoMemory> {
    let mut block = block_at(walk, b);
    if block.made != NONE {
        return Ok(Some(block.made));
    }
    let depth = if point.entry < walk.nodes.len() {
        walk.nodes[point.entry].depth.saturating_add(1)
    } else {
        0
    };
    if depth >= code.n_exc {
        return Ok(None);
    }
    block.made = walk.nodes.len();
    put_block(walk, b, block);
    walk.nodes.push(Node {
        below: point.entry,
        handler,
        is_finally,
        height: point.height,
        depth,
    })?;
    Ok(Some(block.made))
}

/// Leaves that number of entries, each with a cut to its height.
fn leave_entries(walk: &Walk, point: &mut Point, count: usize) -> bool {
    for _turn in 0..count {
        if point.entry >= walk.nodes.len() {
            return false;
        }
        let node = walk.nodes[point.entry];
        point.entry = node.below;
        point.height = point.height.min(node.height);
    }
    true
}

/// Changes the entries as an instruction does, and tells whether it may.
fn change_entries(
    code: &Code,
    walk: &mut Walk,
    b: usize,
    point: &mut Point,
    action: &Action,
) -> Result<bool, NoMemory> {
    match change_of(action) {
        Change::Keep => Ok(true),
        Change::Push(handler, is_finally) => {
            match push_entry(code, walk, b, *point, handler, is_finally)? {
                None => Ok(false),
                Some(entry) => {
                    point.entry = entry;
                    Ok(true)
                }
            }
        }
        Change::DropExcept | Change::DropActive => {
            if point.entry >= walk.nodes.len() {
                return Ok(false);
            }
            point.entry = walk.nodes[point.entry].below;
            Ok(true)
        }
        Change::Leave(count) => Ok(leave_entries(walk, point, count)),
    }
}

/// What a walk keeps beside the blocks: the slots that an instruction gives where it goes on, and where it jumps.
#[derive(Drop)]
pub(crate) struct Lists {
    next: Vec<Given>,
    there: Vec<Given>,
}

/// Lists without a slot.
pub(crate) fn no_lists(alloc: Global) -> Lists {
    Lists {
        next: Vec::new(alloc),
        there: Vec::new(alloc),
    }
}

/// Walks along the jump of a block's last instruction, if it jumps.
fn walk_jump(
    code: &Code,
    walk: &mut Walk,
    b: usize,
    point: Point,
    action: &Action,
    there: &[Given],
) -> Result<bool, NoMemory> {
    let Some(position) = target(action) else {
        return Ok(true);
    };
    let height = put_given(walk, point.height, there, gives_there(action).values);
    let mut exits = exits_at(walk, b);
    if !exits.visited {
        watch_moved(walk, b, exits.watched.from, point.low, height)?;
    }
    if !may_go(walk, point.entry, point.position, position) {
        return Ok(false);
    }
    let to = number_at(&walk.numbers, position);
    match leave(code, walk, to, height, point)? {
        None => Ok(false),
        Some(exit) => {
            exits.jump = exit;
            put_exits(walk, b, exits);
            Ok(true)
        }
    }
}

/// Walks to the next position.
fn walk_next(
    code: &Code,
    walk: &mut Walk,
    b: usize,
    point: &mut Point,
    action: &Action,
    next: &[Given],
) -> Result<Turn, NoMemory> {
    let height = put_given(walk, point.height, next, gives(action).values);
    if !fits(code, height) {
        return Ok(Turn::Refused);
    }
    point.height = height;
    point.position = point.position.saturating_add(1);
    let to = number_at(&walk.numbers, point.position);
    if to == NONE {
        return Ok(Turn::GoesOn);
    }
    let mut exits = exits_at(walk, b);
    if !exits.visited {
        watch_moved(walk, b, exits.watched.from, point.low, height)?;
    }
    match leave(code, walk, to, height, *point)? {
        None => Ok(Turn::Refused),
        Some(exit) => {
            exits.next = exit;
            put_exits(walk, b, exits);
            Ok(Turn::Ends)
        }
    }
}

/// Walks over one position. A jump comes last: where it leads to the block's own first position, it changes the row that was walked.
fn step(
    code: &Code,
    walk: &mut Walk,
    lists: &mut Lists,
    b: usize,
    point: &mut Point,
    action: &Action,
) -> Result<Turn, NoMemory> {
    let before = *point;
    if !change_entries(code, walk, b, point, action)? {
        return Ok(Turn::Refused);
    }
    let taken = takes(action).len();
    if taken > point.height || !may_act(walk, before, *point, action) {
        return Ok(Turn::Refused);
    }
    list_given(walk, *point, gives(action), &mut lists.next)?;
    list_given(walk, *point, gives_there(action), &mut lists.there)?;
    point.height = point.height - taken;
    point.low = point.low.min(point.height);
    let here = *point;
    let turn = if falls(action) {
        walk_next(code, walk, b, point, action, &lists.next)?
    } else {
        Turn::Ends
    };
    if !walk_jump(code, walk, b, here, action, &lists.there)? {
        return Ok(Turn::Refused);
    }
    if !has_room(code, walk, before.height, here.height, action) {
        return Ok(Turn::Refused);
    }
    Ok(turn)
}

/// Notes that a block was visited. What both its edges take to one block, the jump takes alone.
fn note_visit(walk: &mut Walk, b: usize) {
    let mut exits = exits_at(walk, b);
    if !exits.visited {
        exits.watched = Span {
            from: exits.watched.from,
            to: walk.watched.len(),
        };
        exits.visited = true;
    }
    if exits.next.to == exits.jump.to && exits.next.limit <= exits.jump.limit {
        exits.next.to = NONE;
    }
    put_exits(walk, b, exits);
}

/// Begins the list of the slots that a block watches, where it is visited first.
fn begin_watch(walk: &mut Walk, b: usize) {
    let mut exits = exits_at(walk, b);
    if !exits.visited {
        let count = walk.watched.len();
        exits.watched = Span {
            from: count,
            to: count,
        };
        put_exits(walk, b, exits);
    }
}

/// Walks over a block, and tells whether nothing was refused.
pub(crate) fn walk_block(
    code: &Code,
    walk: &mut Walk,
    lists: &mut Lists,
    b: usize,
) -> Result<bool, NoMemory> {
    begin_watch(walk, b);
    walk.walked = b;
    let block = block_at(walk, b);
    load(walk, b, block.height);
    if !walk_raise(code, walk, b)? {
        return Ok(false);
    }
    let mut point = Point {
        position: block.position,
        height: block.height,
        entry: block.entry,
        low: block.height,
    };
    for p in block.position..code.items.len() {
        let action = action_at(code.items.len(), code.items[p]);
        match step(code, walk, lists, b, &mut point, &action)? {
            Turn::Refused => return Ok(false),
            Turn::Ends => {
                note_visit(walk, b);
                return Ok(true);
            }
            Turn::GoesOn => {}
        }
    }
    Ok(false)
}
