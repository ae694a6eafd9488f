//! A code, and the rules on each of its instructions.

ghost use Rattle.std.specs.Prelude.{◌≡◌, ℕ, ◌+◌, ◌*◌, ◌<◌, ◌≤◌, ◌↔◌, IsTrue, IfSome, Some, None, length};
ghost use Rattle.bc_flow.specs.Code as specs;
ghost use Rattle.bc_flow.specs.Code.{LeavesCode, item_locals, named};
ghost use Rattle.bc_flow.specs.Rules.{IsOnInstruction};

use crate::action::arguments;
use bc_ops::{Instr, Item, Op, Target};
use bc_shapes::limits::MAX_ITEMS;

/// A code as the list of its instructions.
#[derive(Debug, Drop)]
pub struct Code {
    pub items: Vec<Item>,
    /// How many locals and slots it may have at a time.
    pub n_state: usize,
    /// How many handler entries it may have at a time.
    pub n_exc: usize,
    pub arguments: usize,
}

/// What verified code keeps.
#[derive(Clone, Copy, Debug, PartialEq, Eq)]
pub enum Rule {
    /// A jump goes to an instruction.
    Jump,
    /// An instruction finds its slots, and shapes that meet agree.
    Height,
    /// Handler entries are there where they are asked, and no more than there may be.
    Handlers,
    /// The flow doesn't pass the last instruction.
    Falls,
    /// A local has a number below n_state.
    Local,
    /// Locals and slots have room, and no operand names too many items.
    State,
}

/// A rule that is broken, and the position where.
#[derive(Clone, Copy, Debug, PartialEq, Eq)]
pub struct Fault {
    pub rule: Rule,
    pub position: usize,
}

/// One more than the local that the item names, or 0.
#[tactic(auto, unfolding(crate::specs::Code::item_locals))]
fn item_locals(item: &Item) -> usize
    ensures { result ≡ specs.item_locals item.now }
{
    match *item {
        Item::Plain(Instr::Num(op, n)) => match op {
            Op::LoadFast | Op::StoreFast | Op::LoadFastN | Op::StoreFastN | Op::DeleteFast => {
                n as usize + 1
            }
            _ => 0,
        },
        _ => 0,
    }
}

/// How many locals there are: the arguments, or more where a greater one is named.
#[tactic(auto, using(crate::proofs::Items::locals_step, crate::proofs::Items::locals_most))]
pub fn locals(code: &Code) -> usize
    ensures { result ≡ specs.locals code.now.arguments code.now.items.items }
{
    let mut most = code.arguments;
    for item in &code.items {
        most = most.max(item_locals(item));
    }
    most
}

/// How many items the operand names.
#[tactic(auto, unfolding(crate::specs::Code::named))]
fn named(item: &Item) -> usize
    ensures { result ≡ specs.named item.now }
{
    match *item {
        Item::Plain(Instr::Num(op, n)) => match op {
            Op::BuildTuple | Op::BuildList | Op::BuildMap | Op::UnpackSequence => n as usize,
            Op::CallFunction | Op::CallMethod => arguments(n) as usize,
            _ => 0,
        },
        _ => 0,
    }
}

/// Does no instruction of a list of that length stand at the target?
fn is_outside(size: usize, target: Target) -> bool
    ensures { IsTrue result ↔ specs.IsOutside size target }
{
    match target {
        Target::Position(position) => size <= position,
        Target::Offset(_) => true,
    }
}

/// Does a jump, or the entry of a handler, go to no instruction?
fn leaves_code(size: usize, item: &Item) -> bool
    ensures { IsTrue result ↔ specs.LeavesCode size item.now }
{
    match *item {
        Item::Plain(_) => false,
        Item::Jump(_, target) | Item::Unwind(target, _) => is_outside(size, target),
    }
}

/// The rule of one instruction alone that the item breaks.
pub fn fault_of(code: &Code, item: &Item) -> Option<Rule>
    ensures jump { result ≡ Some Rule.Jump ↔ LeavesCode (length code.now.items.items) item.now }
    ensures local { result ≡ Some Rule.Local ↔ (code.now.n_state < item_locals item.now) }
    ensures state { result ≡ Some Rule.State ↔ (MAX_ITEMS < named item.now) }

    // And no other rule.
    ensures fine { result ≡ None
        ↔ (¬ LeavesCode (length code.now.items.items) item.now × (item_locals item.now ≤ code.now.n_state)
        × (named item.now ≤ MAX_ITEMS)) }
    ensures only { IfSome result IsOnInstruction }
{
    if leaves_code(code.items.len(), item) {
        return Some(Rule::Jump);
    }
    if code.n_state < item_locals(item) {
        return Some(Rule::Local);
    }
    if MAX_ITEMS < named(item) {
        return Some(Rule::State);
    }
    None
}
