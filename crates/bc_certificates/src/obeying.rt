//! The rules that a walk asks at the first visit of a block, so that it ends where the flow does.

ghost use Rattle.std.specs.Prelude.{◌<◌, length};

use crate::blocks::Walk;
use crate::groups::{Group, SIZE, below, group_at, kind_at};
use crate::walking::Point;
use bc_flow::{Action, Change, Code, change_of, gives, gives_there, takes};
use bc_shapes::{Takes, fits};

/// Do the slots from one number up to another serve as values?
fn are_values(groups: &[Group], from: usize, to: usize) -> bool {
    if from >= to {
        return true;
    }
    for g in from / SIZE..to / SIZE + 1 {
        let slots = below(g, to) & (below(g, from) ^ u64::MAX);
        let group = group_at(groups, g);
        if (group.open.causes | group.firm.low | group.firm.high) & slots != 0 {
            return false;
        }
    }
    true
}

/// Are the slots there, below `height` of them, that are asked below values?
fn fit_others(groups: &[Group], takes: Takes, height: usize) -> bool {
    for k in 0..takes.others.len() {
        let want = Takes {
            values: 0,
            others: &takes.others[k..k + 1],
        };
        let kind = kind_at(groups, height.saturating_sub(k.saturating_add(1)));
        if !fits(want, &[kind]) {
            return false;
        }
    }
    true
}

/// Are the slots there, on top of `height` of them, that the instruction asks for?
fn finds(walk: &Walk, action: &Action, height: usize) -> bool {
    let takes = takes(action);
    let low = height.saturating_sub(takes.values as usize);
    are_values(&walk.slots, low, height) && fit_others(&walk.slots, takes, low)
}

/// The height of an entry, or 0 where there is none.
fn floor_at(walk: &Walk, entry: usize) -> usize {
    if entry < walk.nodes.len() {
        walk.nodes[entry].height
    } else {
        0
    }
}

/// Does an instruction that leaves that many slots leave those alone that lie below the entries that remain?
fn is_deep(walk: &Walk, before: Point, behind: Point, change: Change, left: usize) -> bool {
    match change {
        Change::Keep | Change::Push(_, _) => floor_at(walk, before.entry) <= left,
        Change::DropExcept | Change::DropActive => floor_at(walk, before.entry) == left,
        Change::Leave(_) => floor_at(walk, behind.entry) <= left,
    }
}

/// Does the topmost entry have the kind that an instruction asks for?
fn asks(walk: &Walk, before: Point, change: Change) -> bool {
    if before.entry >= walk.nodes.len() {
        return true;
    }
    let node = walk.nodes[before.entry];
    match change {
        Change::DropExcept => !node.is_finally,
        Change::DropActive => node.handler <= before.position,
        _ => true,
    }
}

/// May the instruction act, by the entries and slots before it? Asked at first visits alone.
pub(crate) fn may_act(walk: &Walk, before: Point, behind: Point, action: &Action) -> bool {
    if !walk.strict {
        return true;
    }
    let change = change_of(action);
    let left = behind.height.saturating_sub(takes(action).len());
    asks(walk, before, change)
        && finds(walk, action, behind.height)
        && is_deep(walk, before, behind, change, left)
}

/// May the flow go from a position to another with these entries: does it pass none of their handlers? Asked at first visits alone.
pub(crate) fn may_go(walk: &Walk, entry: usize, from: usize, to: usize) -> bool {
    if !walk.strict {
        return true;
    }
    let mut at = entry;
    for _turn in 0..walk.nodes.len() {
        if at >= walk.nodes.len() {
            return true;
        }
        let handler = walk.nodes[at].handler;
        if from < to {
            if from < handler && handler < to {
                return false;
            }
        } else if to < handler && handler <= from {
            return false;
        }
        at = walk.nodes[at].below;
    }
    true
}

/// Have that many slots room beside the locals?
fn have_room(code: &Code, walk: &Walk, slots: usize) -> bool {
    walk.locals.saturating_add(slots) <= code.n_state
}

/// Is there room before an instruction, behind it and where it jumps, where it leaves that many slots? Asked at first visits alone.
pub(crate) fn has_room(
    code: &Code,
    walk: &Walk,
    before: usize,
    left: usize,
    action: &Action,
) -> bool {
    !walk.strict
        || (have_room(code, walk, before)
            && have_room(code, walk, left.saturating_add(gives(action).len()))
            && have_room(code, walk, left.saturating_add(gives_there(action).len())))
}
