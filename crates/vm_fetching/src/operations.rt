//! Operations by what carries them out.

ghost use Rattle.std.specs.Prelude.{◌≡◌, Bool};
ghost use Rattle.frame_moves.specs.bc_ops.declared.form.Form.TheVariants as forms;
ghost use Rattle.frame_moves.specs.bc_ops.declared.instr.Instr.TheVariants as instrs;
ghost use Rattle.frame_moves.specs.bc_ops.Table.{code_of, form_of};
ghost use Rattle.vm_fetching.specs.Families.{IsJumping, IsNamed, IsWhole};

use crate::instruction::{Action, Step};
use arena_heap::StrNo;
use bc_ops::Op;

/// An operation that moves slots, or loads a constant that has no operand.
#[derive(Clone, Copy, Debug, PartialEq, Eq)]
pub enum MoveOp {
    LoadConstFalse,
    LoadConstNone,
    LoadConstTrue,
    LoadNull,
    DupTop,
    DupTopTwo,
    PopTop,
    RotTwo,
    RotThree,
}

/// An operation on an item, of what lies on top.
#[derive(Clone, Copy, Debug, PartialEq, Eq)]
pub enum ItemOp {
    LoadSubscr,
    StoreSubscr,
    StoreMap,
}

/// An operation that leaves the running call, or a part of it.
#[derive(Clone, Copy, Debug, PartialEq, Eq)]
pub enum LeaveOp {
    ReturnValue,
    RaiseLast,
    RaiseObj,
}

/// An operation on a local of the running call.
#[derive(Clone, Copy, Debug, PartialEq, Eq)]
pub enum LocalOp {
    LoadFast,
    LoadFastN,
    StoreFast,
    StoreFastN,
    DeleteFast,
}

/// An operation that makes a collection of what lies on top, or takes one apart.
#[derive(Clone, Copy, Debug, PartialEq, Eq)]
pub enum BuildOp {
    BuildTuple,
    BuildList,
    BuildMap,
    UnpackSequence,
}

/// An operation that makes a function, without defaults or with those that lie on top.
#[derive(Clone, Copy, Debug, PartialEq, Eq)]
pub enum MakeOp {
    MakeFunction,
    MakeFunctionDefargs,
}

/// An operation that calls a value.
#[derive(Clone, Copy, Debug, PartialEq, Eq)]
pub enum CallOp {
    CallFunction,
    CallMethod,
}

/// An operation on a name of the running call's module.
#[derive(Clone, Copy, Debug, PartialEq, Eq)]
pub enum NameOp {
    LoadName,
    LoadGlobal,
    StoreName,
    StoreGlobal,
    DeleteName,
    DeleteGlobal,
}

/// An operation on an attribute of a value.
#[derive(Clone, Copy, Debug, PartialEq, Eq)]
pub enum AttributeOp {
    LoadAttr,
    LoadMethod,
    StoreAttr,
    ImportFrom,
}

/// A jump that tests the value on top.
#[derive(Clone, Copy, Debug, PartialEq, Eq)]
pub enum TestOp {
    PopJumpIfTrue,
    PopJumpIfFalse,
    JumpIfTrueOrPop,
    JumpIfFalseOrPop,
}

/// An operation that sets up a handler, or leaves one.
#[derive(Clone, Copy, Debug, PartialEq, Eq)]
pub enum HandlerOp {
    SetupExcept,
    SetupFinally,
    PopExceptJump,
}

/// The operation without an operand, by what carries it out.
#[inline(always)]
pub(crate) fn plain(op: Op) -> Action
    requires { form_of (code_of op) ≡ forms.Whole (instrs.Plain op) }
    ensures { IsWhole op result }
{
    match op {
        Op::LoadConstFalse => Action::Stays(Step::Move(MoveOp::LoadConstFalse)),
        Op::LoadConstNone => Action::Stays(Step::Move(MoveOp::LoadConstNone)),
        Op::LoadConstTrue => Action::Stays(Step::Move(MoveOp::LoadConstTrue)),
        Op::LoadNull => Action::Stays(Step::Move(MoveOp::LoadNull)),
        Op::DupTop => Action::Stays(Step::Move(MoveOp::DupTop)),
        Op::DupTopTwo => Action::Stays(Step::Move(MoveOp::DupTopTwo)),
        Op::PopTop => Action::Stays(Step::Move(MoveOp::PopTop)),
        Op::RotTwo => Action::Stays(Step::Move(MoveOp::RotTwo)),
        Op::RotThree => Action::Stays(Step::Move(MoveOp::RotThree)),
        Op::LoadSubscr => Action::Stays(Step::Item(ItemOp::LoadSubscr)),
        Op::StoreSubscr => Action::Stays(Step::Item(ItemOp::StoreSubscr)),
        Op::StoreMap => Action::Stays(Step::Item(ItemOp::StoreMap)),
        Op::GetIterStack => Action::Stays(Step::Iterate),
        Op::EndFinally => Action::Finishes,
        Op::ReturnValue => Action::Leaves(LeaveOp::ReturnValue),
        Op::RaiseLast => Action::Leaves(LeaveOp::RaiseLast),
        Op::RaiseObj => Action::Leaves(LeaveOp::RaiseObj),
        _ => unreachable!(),
    }
}

/// The operation that names a text of the pool, by what carries it out.
#[inline(always)]
pub(crate) fn named(op: Op, text: u32) -> Action
    requires { form_of (code_of op) ≡ forms.Name op }
    ensures { IsNamed op text result }
{
    let name = StrNo::Pool(text);
    match op {
        Op::LoadConstString => Action::Stays(Step::Text(name)),
        Op::LoadName => Action::Stays(Step::Name(NameOp::LoadName, name)),
        Op::LoadGlobal => Action::Stays(Step::Name(NameOp::LoadGlobal, name)),
        Op::StoreName => Action::Stays(Step::Name(NameOp::StoreName, name)),
        Op::StoreGlobal => Action::Stays(Step::Name(NameOp::StoreGlobal, name)),
        Op::DeleteName => Action::Stays(Step::Name(NameOp::DeleteName, name)),
        Op::DeleteGlobal => Action::Stays(Step::Name(NameOp::DeleteGlobal, name)),
        Op::LoadAttr => Action::Stays(Step::Attribute(AttributeOp::LoadAttr, name)),
        Op::LoadMethod => Action::Stays(Step::Attribute(AttributeOp::LoadMethod, name)),
        Op::StoreAttr => Action::Stays(Step::Attribute(AttributeOp::StoreAttr, name)),
        Op::ImportFrom => Action::Stays(Step::Attribute(AttributeOp::ImportFrom, name)),
        Op::ImportName => Action::Imports(text),
        _ => unreachable!(),
    }
}

/// The operation that has an offset, by what carries it out.
#[inline(always)]
pub(crate) fn jumping(op: Op, target: u32) -> Step
    requires { (signed : Bool) × (form_of (code_of op) ≡ forms.Offset op signed) }
    ensures { IsJumping op target result }
{
    match op {
        Op::Jump => Step::Jump(target),
        Op::PopJumpIfTrue => Step::Test(TestOp::PopJumpIfTrue, target),
        Op::PopJumpIfFalse => Step::Test(TestOp::PopJumpIfFalse, target),
        Op::JumpIfTrueOrPop => Step::Test(TestOp::JumpIfTrueOrPop, target),
        Op::JumpIfFalseOrPop => Step::Test(TestOp::JumpIfFalseOrPop, target),
        Op::SetupExcept => Step::Handle(HandlerOp::SetupExcept, target),
        Op::SetupFinally => Step::Handle(HandlerOp::SetupFinally, target),
        Op::PopExceptJump => Step::Handle(HandlerOp::PopExceptJump, target),
        Op::ForIter => Step::ForIter(target),
        _ => unreachable!(),
    }
}
