//! The table of the instructions: what each does with slots, handler entries and the flow.

ghost use Rattle.std.specs.Prelude.{◌≡◌, ℕ, ◌+◌, ◌*◌, ◌/◌, ◌%◌, ◌^◌, ◌<◌};
ghost use Rattle.bc_flow.specs.Action as specs;
ghost use Rattle.bc_flow.specs.Views.{action_of};

use bc_ops::{Instr, Item, Op, Target};
use bc_shapes::{Give, Gives, Kind, Takes, Want};

/// What an instruction does. Where it jumps is a position.
#[derive(Clone, Copy)]
pub enum Action {
    /// Takes and gives slots, and goes on.
    Straight(Takes, Gives),
    /// Takes slots, and gives some and goes on, or gives others and jumps.
    Branch(Takes, Gives, Gives, usize),
    Jump(usize),
    /// Pushes the entry of a handler, which is a finally handler or not.
    Setup(usize, bool),
    /// Drops an except entry, and jumps.
    PopExcept(usize),
    EndFinally,
    /// Jumps to an offset, out of a number of entries, and takes an iterator or not.
    Unwind(usize, usize, bool),
    Return,
    /// Takes that number of values, and raises.
    Raise(u32),
}

/// Takes `values` values on top of the slots `wants`, gives `new_values` new values on top of `gives`, and goes on.
fn straight(values: u32, wants: &'static [Want], new_values: u32, gives: &'static [Give]) -> Action
    ensures { action_of result ≡ specs.straight values wants.now new_values gives.now }
{
    let takes = Takes {
        values,
        others: wants,
    };
    let gives = Gives {
        values: new_values,
        others: gives,
    };
    Action::Straight(takes, gives)
}

/// Takes the slots `takes`, gives `gives`, and goes on; or gives `there`, and jumps to `to`.
fn branch(takes: Takes, gives: Gives, there: &'static [Give], to: usize) -> Action
    ensures { action_of result ≡ specs.branch takes.values takes.others.now gives.values gives.others.now there.now to }
{
    let there = Gives {
        values: 0,
        others: there,
    };
    Action::Branch(takes, gives, there, to)
}

/// How many arguments a call's operand names: a keyword argument is a name and a value.
pub(crate) fn arguments(operand: u32) -> u32
    ensures value { result ≡ specs.arguments operand }
    ensures small { result < 2 ^ 26 }
{
    operand % 256 + 2 * (operand / 256)
}

/// What the instructions do that don't jump, with their number.
#[tactic(auto, unfolding(crate::specs::Action::op_action))]
fn op_action(op: Op, n: u32) -> Action
    ensures { action_of result ≡ specs.op_action op n }
{
    match op {
        Op::LoadConstString
        | Op::LoadName
        | Op::LoadGlobal
        | Op::LoadConstObj
        | Op::LoadFastN
        | Op::LoadFast
        | Op::BuildMap
        | Op::MakeFunction
        | Op::LoadConstFalse
        | Op::LoadConstTrue => straight(0, &[], 1, &[]),
        Op::LoadConstNone => straight(0, &[], 0, &[Give::New(Kind::Either)]),
        Op::LoadNull => straight(0, &[], 0, &[Give::New(Kind::Null)]),
        Op::StoreName | Op::StoreGlobal | Op::StoreFastN | Op::StoreFast => {
            straight(1, &[], 0, &[])
        }
        Op::StoreAttr => straight(2, &[], 0, &[]),
        Op::StoreSubscr => straight(2, &[Want::ValueOrNull], 0, &[]),
        Op::StoreMap => straight(3, &[], 0, &[Give::Again(2)]),
        Op::DeleteName | Op::DeleteGlobal | Op::DeleteFast => straight(0, &[], 0, &[]),
        Op::LoadAttr => straight(1, &[], 1, &[]),
        Op::LoadMethod => straight(
            1,
            &[],
            0,
            &[Give::New(Kind::Method), Give::New(Kind::Value)],
        ),
        Op::ImportName | Op::LoadSubscr => straight(2, &[], 1, &[]),
        Op::ImportFrom => straight(1, &[], 1, &[Give::Again(0)]),
        Op::BuildTuple | Op::BuildList => straight(n, &[], 1, &[]),
        Op::UnpackSequence => straight(1, &[], n, &[]),
        Op::MakeFunctionDefargs => straight(0, &[Want::Null, Want::Value], 1, &[]),
        Op::CallFunction => straight(arguments(n) + 1, &[], 1, &[]),
        Op::CallMethod => straight(arguments(n), &[Want::Method, Want::Value], 1, &[]),
        Op::DupTop => straight(1, &[], 0, &[Give::Again(0), Give::Again(0)]),
        Op::DupTopTwo => straight(
            2,
            &[],
            0,
            &[
                Give::Again(0),
                Give::Again(1),
                Give::Again(0),
                Give::Again(1),
            ],
        ),
        Op::PopTop => straight(0, &[Want::Top], 0, &[]),
        Op::RotTwo => straight(
            0,
            &[Want::ValueOrNull, Want::ValueOrNull],
            0,
            &[Give::Again(1), Give::Again(0)],
        ),
        Op::RotThree => straight(
            0,
            &[Want::ValueOrNull, Want::ValueOrNull, Want::ValueOrNull],
            0,
            &[Give::Again(1), Give::Again(2), Give::Again(0)],
        ),
        Op::GetIterStack => straight(
            1,
            &[],
            0,
            &[
                Give::New(Kind::Iter4),
                Give::New(Kind::Iter3),
                Give::New(Kind::Iter2),
                Give::New(Kind::Iter1),
            ],
        ),
        Op::EndFinally => Action::EndFinally,
        Op::ReturnValue => Action::Return,
        Op::RaiseLast => Action::Raise(0),
        Op::RaiseObj => Action::Raise(1),
        Op::Jump
        | Op::PopJumpIfTrue
        | Op::PopJumpIfFalse
        | Op::JumpIfTrueOrPop
        | Op::JumpIfFalseOrPop
        | Op::SetupExcept
        | Op::SetupFinally
        | Op::PopExceptJump
        | Op::ForIter => Action::Raise(0),
    }
}

/// What those do that jump to the position, or have their handler there.
#[tactic(auto, unfolding(crate::specs::Action::jump_action))]
fn jump_action(op: Op, to: usize) -> Action
    ensures { action_of result ≡ specs.jump_action op to }
{
    let value = Takes {
        values: 1,
        others: &[],
    };
    let nothing = Gives {
        values: 0,
        others: &[],
    };
    match op {
        Op::Jump => Action::Jump(to),
        Op::PopJumpIfTrue | Op::PopJumpIfFalse => branch(value, nothing, &[], to),
        Op::JumpIfTrueOrPop | Op::JumpIfFalseOrPop => {
            branch(value, nothing, &[Give::Again(0)], to)
        }
        Op::SetupExcept => Action::Setup(to, false),
        Op::SetupFinally => Action::Setup(to, true),
        Op::PopExceptJump => Action::PopExcept(to),
        Op::ForIter => next_item(to),
        _ => Action::Raise(0),
    }
}

/// What the instruction does that asks an iterator for its next item.
fn next_item(to: usize) -> Action
    ensures { action_of result ≡ specs.next_item to }
{
    let takes = Takes {
        values: 0,
        others: &[Want::Iter4, Want::Iter3, Want::Iter2, Want::Iter1],
    };
    let gives = Gives {
        values: 1,
        others: &[
            Give::Again(0),
            Give::Again(1),
            Give::Again(2),
            Give::Again(3),
        ],
    };
    branch(takes, gives, &[], to)
}

/// What an instruction does that is no jump.
#[tactic(auto, unfolding(crate::specs::Action::instr_action))]
fn instr_action(instr: Instr) -> Action
    ensures { action_of result ≡ specs.instr_action instr }
{
    match instr {
        Instr::Plain(op) => op_action(op, 0),
        Instr::Name(op, n) | Instr::Num(op, n) => op_action(op, n),
        Instr::Int(_) => straight(0, &[], 1, &[]),
        Instr::Unary(_) => straight(1, &[], 1, &[]),
        Instr::Binary(_) => straight(2, &[], 1, &[]),
        Instr::Jump { .. } | Instr::Unwind { .. } => Action::Raise(0),
    }
}

/// The position of a target in a list of that length.
fn place(size: usize, target: Target) -> usize
    ensures { result ≡ specs.place size target }
{
    match target {
        Target::Position(position) => position,
        Target::Offset(_) => size,
    }
}

/// What an item does in a list of that length. A target that is no position counts as the position behind the list.
#[tactic(auto, unfolding(crate::specs::Action::action))]
pub fn action_at(size: usize, item: Item) -> Action
    ensures { action_of result ≡ specs.action size item }
{
    match item {
        Item::Plain(instr) => instr_action(instr),
        Item::Jump(op, target) => jump_action(op, place(size, target)),
        Item::Unwind(target, byte) => Action::Unwind(
            place(size, target),
            usize::from(byte % 128),
            byte >= 128,
        ),
    }
}
