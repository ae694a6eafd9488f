//! The blocks of a code: runs of instructions of which the last one alone jumps, and what a walk over them has found.

ghost use Rattle.std.specs.Prelude.{◌<◌, length};

use crate::groups::{Firm, Group, MOST, Open, SIZE, all_open};
use bc_flow::{Code, locals};
use bc_ops::{Instr, Item, Op, Target};
use bc_shapes::Span;
use mpy_base::NoMemory;
use std::alloc::Global;

/// The number of no block and of no entry.
pub(crate) const NONE: usize = usize::MAX;

/// How many slots more than it may have a row may have behind one instruction: there is no row behind that.
pub(crate) const MORE: usize = 256;

/// A handler entry on others. Lists of entries share their lower parts, and an entry is active from its handler's position on.
#[derive(Clone, Copy)]
pub(crate) struct Node {
    /// The entry below it.
    pub below: usize,
    pub handler: usize,
    pub is_finally: bool,
    pub height: usize,
    /// How many entries it stands on.
    pub depth: usize,
}

/// An edge to a block's first position, along which the slots with numbers below the limit pass as they are.
#[derive(Clone, Copy)]
pub(crate) struct Exit {
    pub to: usize,
    pub limit: usize,
}

/// What is known of a block.
#[derive(Clone, Copy)]
pub(crate) struct Block {
    /// Where it begins.
    pub position: usize,
    /// An edge may come here that isn't the one from the position before.
    pub meets: bool,
    pub behind_setup: bool,
    pub reached: bool,
    /// How many slots it begins with.
    pub height: usize,
    /// The topmost entry that it begins with.
    pub entry: usize,
    /// The block from which an edge came here first.
    pub source: usize,
    /// The entry that its last instruction pushes, once it was visited.
    pub made: usize,
}

/// The edges that leave a block, once it was visited.
#[derive(Clone, Copy)]
pub(crate) struct Exits {
    pub visited: bool,
    pub next: Exit,
    pub jump: Exit,
    pub raise: Exit,
    /// Which of the watched slots are its own.
    pub watched: Span,
}

/// A slot of a block's beginning that stands elsewhere at its end, with the bits that it had when the block was walked.
#[derive(Clone, Copy)]
pub(crate) struct Watched {
    pub slot: usize,
    pub value: bool,
    pub cause: bool,
}

/// A walk over the blocks of a code.
#[derive(Drop)]
pub(crate) struct Walk {
    pub blocks: Vec<Block>,
    pub exits: Vec<Exits>,
    /// The block that begins at a position, if one does.
    pub numbers: Vec<usize>,
    pub nodes: Vec<Node>,
    pub watched: Vec<Watched>,
    /// The blocks that edges came to, in that order.
    pub order: Vec<usize>,
    /// The rows of all blocks, the lowest groups first; of the slots that stay, the number in `firms`.
    pub open: Vec<Open>,
    pub firm: Vec<u16>,
    /// The first one has none.
    pub firms: Vec<Firm>,
    /// The groups of each row that changed since the block was visited.
    pub changed: Vec<u64>,
    /// A bit for each block, which is set where it waits for a visit.
    pub pending: Vec<u64>,
    /// A bit for each block, which is set where it waits for its first visit, and a number below which none does.
    pub fresh: Vec<u64>,
    pub least: usize,
    /// Are all rules asked, as at first visits, and how many locals are there?
    pub strict: bool,
    pub locals: usize,
    /// The block that is walked, its slots, and where each came from.
    pub walked: usize,
    pub slots: Vec<Group>,
    pub origins: Vec<usize>,
}

/// An edge to no block.
fn no_exit() -> Exit {
    Exit { to: NONE, limit: 0 }
}

/// A block of which nothing is known.
pub(crate) fn block_from(position: usize, meets: bool, behind_setup: bool) -> Block {
    Block {
        position,
        meets,
        behind_setup,
        reached: false,
        height: 0,
        entry: NONE,
        source: NONE,
        made: NONE,
    }
}

/// The edges of a block that wasn't visited.
pub(crate) fn no_exits() -> Exits {
    Exits {
        visited: false,
        next: no_exit(),
        jump: no_exit(),
        raise: no_exit(),
        watched: Span { from: 0, to: 0 },
    }
}

/// The block of that number, or one of which nothing is known.
pub(crate) fn block_at(walk: &Walk, b: usize) -> Block {
    if b < walk.blocks.len() {
        walk.blocks[b]
    } else {
        block_from(0, false, false)
    }
}

/// Puts what is known of a block.
pub(crate) fn put_block(walk: &mut Walk, b: usize, block: Block) {
    if b < walk.blocks.len() {
        walk.blocks[b] = block;
    }
}

/// The edges that leave a block.
pub(crate) fn exits_at(walk: &Walk, b: usize) -> Exits {
    if b < walk.exits.len() {
        walk.exits[b]
    } else {
        no_exits()
    }
}

/// Puts the edges that leave a block.
pub(crate) fn put_exits(walk: &mut Walk, b: usize, exits: Exits) {
    if b < walk.exits.len() {
        walk.exits[b] = exits;
    }
}

/// The number at a place of a list, or that of no block.
pub(crate) fn number_at(numbers: &[usize], p: usize) -> usize {
    if p < numbers.len() { numbers[p] } else { NONE }
}

/// Where a group of a block's row stands.
pub(crate) fn place(walk: &Walk, g: usize, b: usize) -> usize {
    g.saturating_mul(walk.blocks.len()).saturating_add(b)
}

/// The number of the slots that stay in a group of a block's row.
pub(crate) fn firm_number(walk: &Walk, g: usize, b: usize) -> u16 {
    let at = place(walk, g, b);
    if at < walk.firm.len() {
        walk.firm[at]
    } else {
        0
    }
}

/// The slots that stay, by their number.
pub(crate) fn firm_of(walk: &Walk, number: u16) -> Firm {
    let n = usize::from(number);
    if n < walk.firms.len() {
        walk.firms[n]
    } else {
        all_open().firm
    }
}

/// A group of a block's row.
pub(crate) fn row_group(walk: &Walk, g: usize, b: usize) -> Group {
    let at = place(walk, g, b);
    if at < walk.open.len() {
        Group {
            open: walk.open[at],
            firm: firm_of(walk, firm_number(walk, g, b)),
        }
    } else {
        all_open()
    }
}

/// Puts a group of a block's row.
pub(crate) fn put_row_group(walk: &mut Walk, g: usize, b: usize, open: Open, firm: u16) {
    let at = place(walk, g, b);
    if at < walk.open.len() && at < walk.firm.len() {
        walk.open[at] = open;
        walk.firm[at] = firm;
    }
}

/// How many groups that many slots take.
pub(crate) fn groups_of(height: usize) -> usize {
    height / SIZE + 1
}

/// What an instruction says of the beginnings of blocks.
enum Bound {
    Inside,
    /// The position that it jumps to does.
    There,
    /// Both do.
    Both,
}

/// Where blocks begin for the sake of a jump.
fn jump_bound(op: Op) -> Bound {
    match op {
        Op::Jump | Op::PopExceptJump => Bound::There,
        _ => Bound::Both,
    }
}

/// Where blocks begin for the sake of an item.
fn bound_of(item: Item) -> Bound {
    match item {
        Item::Plain(_) => Bound::Inside,
        Item::Jump(op, _) => jump_bound(op),
        Item::Unwind(_, _) => Bound::There,
    }
}

/// The position that an item jumps to, or has its handler at, or none.
fn target_of(item: Item) -> usize {
    match item {
        Item::Jump(_, Target::Position(to)) | Item::Unwind(Target::Position(to), _) => to,
        _ => NONE,
    }
}

/// Does an item push a handler's entry?
fn is_setup(item: Item) -> bool {
    matches!(item, Item::Jump(Op::SetupExcept | Op::SetupFinally, _))
}

/// How a position begins a block.
#[derive(Clone, Copy)]
struct Begin {
    begins: bool,
    meets: bool,
    behind_setup: bool,
}

/// Notes that a block begins at a position.
fn note_beginning(list: &mut Vec<Begin>, p: usize, meets: bool, behind_setup: bool) {
    if p < list.len() {
        let old = list[p];
        list[p] = Begin {
            begins: true,
            meets: old.meets || meets,
            behind_setup: old.behind_setup || behind_setup,
        };
    }
}

/// Notes where blocks begin for the sake of an item.
fn begin_by(list: &mut Vec<Begin>, p: usize, item: Item) {
    let behind = p.saturating_add(1);
    match bound_of(item) {
        Bound::Inside => {}
        Bound::There => note_beginning(list, target_of(item), true, false),
        Bound::Both => {
            note_beginning(list, behind, false, is_setup(item));
            note_beginning(list, target_of(item), true, false);
        }
    }
}

/// Does the flow go on behind an item?
fn goes_on(item: Item) -> bool {
    !matches!(
        item,
        Item::Plain(Instr::Plain(Op::ReturnValue | Op::RaiseLast | Op::RaiseObj))
            | Item::Jump(Op::Jump | Op::PopExceptJump, _)
            | Item::Unwind(_, _)
    )
}

/// Notes that the flow may come to a position, the first time among those to go on from.
fn come(reached: &mut Vec<bool>, waiting: &mut Vec<usize>, p: usize) -> Result<(), NoMemory> {
    if p < reached.len() && !reached[p] {
        reached[p] = true;
        waiting.push(p)?;
    }
    Ok(())
}

/// Notes where the flow may come from an item.
fn come_from(
    item: Item,
    p: usize,
    reached: &mut Vec<bool>,
    waiting: &mut Vec<usize>,
) -> Result<(), NoMemory> {
    come(reached, waiting, target_of(item))?;
    if goes_on(item) {
        come(reached, waiting, p.saturating_add(1))?;
    }
    Ok(())
}

/// The positions that the flow may come to, by where instructions go, jump and have their handlers.
fn reach(alloc: Global, code: &Code) -> Result<Vec<bool>, NoMemory> {
    let mut reached = Vec::with_capacity(alloc, code.items.len())?;
    for _item in &code.items {
        reached.push(false)?;
    }
    let mut waiting = Vec::new(alloc);
    come(&mut reached, &mut waiting, 0)?;
    for _turn in 0..code.items.len() {
        let Some(p) = waiting.pop() else {
            return Ok(reached);
        };
        if p < code.items.len() {
            come_from(code.items[p], p, &mut reached, &mut waiting)?;
        }
    }
    Ok(reached)
}

/// How each position begins a block.
fn begins_of(alloc: Global, code: &Code) -> Result<Vec<Begin>, NoMemory> {
    let size = code.items.len();
    let mut list = Vec::with_capacity(alloc, size)?;
    for _p in 0..size {
        list.push(Begin {
            begins: false,
            meets: false,
            behind_setup: false,
        })?;
    }
    note_beginning(&mut list, 0, true, false);
    let reached = reach(alloc, code)?;
    for (p, item) in code.items.iter().enumerate() {
        if p < reached.len() && reached[p] {
            begin_by(&mut list, p, *item);
        }
    }
    Ok(list)
}

/// Adds that many words without a bit.
fn push_clear(list: &mut Vec<u64>, count: usize) -> Result<(), NoMemory> {
    for _i in 0..count {
        list.push(0)?;
    }
    Ok(())
}

/// Makes room for that many groups of each row, where there is less.
pub(crate) fn make_room(walk: &mut Walk, groups: usize) -> Result<(), NoMemory> {
    let room = groups.min(MOST).saturating_mul(walk.blocks.len());
    for _i in walk.open.len()..room {
        walk.open.push(all_open().open)?;
        walk.firm.push(0)?;
    }
    Ok(())
}

/// A walk with no block at all.
fn empty_walk(alloc: Global) -> Walk {
    Walk {
        blocks: Vec::new(alloc),
        exits: Vec::new(alloc),
        numbers: Vec::new(alloc),
        nodes: Vec::new(alloc),
        watched: Vec::new(alloc),
        order: Vec::new(alloc),
        open: Vec::new(alloc),
        firm: Vec::new(alloc),
        firms: Vec::new(alloc),
        changed: Vec::new(alloc),
        pending: Vec::new(alloc),
        fresh: Vec::new(alloc),
        least: 0,
        strict: false,
        locals: 0,
        walked: NONE,
        slots: Vec::new(alloc),
        origins: Vec::new(alloc),
    }
}

/// Numbers the blocks, in the order of their positions.
fn push_blocks(alloc: Global, code: &Code, walk: &mut Walk) -> Result<(), NoMemory> {
    let list = begins_of(alloc, code)?;
    for (p, begin) in list.iter().enumerate() {
        if begin.begins {
            walk.numbers.push(walk.blocks.len())?;
            walk.blocks
                .push(block_from(p, begin.meets, begin.behind_setup))?;
            walk.exits.push(no_exits())?;
        } else {
            walk.numbers.push(NONE)?;
        }
    }
    Ok(())
}

/// A walk that has come to no block.
pub(crate) fn start(alloc: Global, code: &Code) -> Result<Walk, NoMemory> {
    let mut walk = empty_walk(alloc);
    push_blocks(alloc, code, &mut walk)?;
    let blocks = walk.blocks.len();
    let groups = groups_of(code.n_state.saturating_add(MORE)).min(MOST);
    walk.firms.push(all_open().firm)?;
    push_clear(&mut walk.changed, blocks)?;
    push_clear(&mut walk.pending, blocks / SIZE + 1)?;
    push_clear(&mut walk.fresh, blocks / SIZE + 1)?;
    walk.locals = locals(code);
    for _g in 0..groups {
        walk.slots.push(all_open())?;
    }
    for _slot in 0..groups.saturating_mul(SIZE) {
        walk.origins.push(NONE)?;
    }
    Ok(walk)
}
