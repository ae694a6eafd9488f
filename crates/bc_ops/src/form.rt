//! The table of the first bytes.

ghost use Rattle.std.specs.Prelude.{◌≡◌, ◌≤◌};
ghost use Rattle.bc_ops.specs.Table as specs;
ghost use Rattle.bc_ops.specs.Table.{form_of};

use crate::instr::{Instr, Op};

/// What follows the first byte of an instruction.
#[derive(Clone, Copy, Debug, PartialEq, Eq)]
pub enum Form {
    /// Nothing: the byte is the instruction.
    Whole(Instr),
    /// The number of a name.
    Name(Op),
    /// Another number.
    Number(Op),
    /// The counts of a call's arguments.
    Call(Op),
    /// A signed number.
    Signed,
    /// The offset of a jump.
    Offset { op: Op, signed: bool },
    /// A signed offset, and a byte.
    Unwind,
    /// No instruction that is supported.
    Outside,
    /// No instruction.
    Unknown,
}

impl Form {
    ghost use Rattle.std.specs.Prelude.{◌≡◌};
    ghost use Rattle.bc_ops.specs.Code.{is_signed};

    /// Is the offset of this form signed?
    pub(crate) fn is_signed(self) -> bool
        ensures { result ≡ is_signed self }
    {
        match self {
            Form::Offset { signed, .. } => signed,
            _ => false,
        }
    }
}

/// The form of the instructions that begin with a byte below 0x20.
#[tactic(auto, unfolding(crate::specs::Table::name_form))]
fn name_form(byte: u8) -> Form
    ensures { result ≡ specs.name_form byte }
{
    match byte {
        0x10 => Form::Name(Op::LoadConstString),
        0x11 => Form::Name(Op::LoadName),
        0x12 => Form::Name(Op::LoadGlobal),
        0x13 => Form::Name(Op::LoadAttr),
        0x14 => Form::Name(Op::LoadMethod),
        0x16 => Form::Name(Op::StoreName),
        0x17 => Form::Name(Op::StoreGlobal),
        0x18 => Form::Name(Op::StoreAttr),
        0x19 => Form::Name(Op::DeleteName),
        0x1a => Form::Name(Op::DeleteGlobal),
        0x1b => Form::Name(Op::ImportName),
        0x1c => Form::Name(Op::ImportFrom),
        0x15 => Form::Outside,
        _ => Form::Unknown,
    }
}

/// The form of the instructions that begin with a byte from 0x20 to 0x3f.
#[tactic(auto, unfolding(crate::specs::Table::number_form))]
fn number_form(byte: u8) -> Form
    ensures { result ≡ specs.number_form byte }
{
    match byte {
        0x22 => Form::Signed,
        0x23 => Form::Number(Op::LoadConstObj),
        0x24 => Form::Number(Op::LoadFastN),
        0x26 => Form::Number(Op::StoreFastN),
        0x28 => Form::Number(Op::DeleteFast),
        0x2a => Form::Number(Op::BuildTuple),
        0x2b => Form::Number(Op::BuildList),
        0x2c => Form::Number(Op::BuildMap),
        0x30 => Form::Number(Op::UnpackSequence),
        0x32 => Form::Number(Op::MakeFunction),
        0x33 => Form::Number(Op::MakeFunctionDefargs),
        0x34 => Form::Call(Op::CallFunction),
        0x36 => Form::Call(Op::CallMethod),
        0x20 | 0x21 | 0x25 | 0x27 | 0x29 | 0x2d..=0x2f | 0x31 | 0x35 | 0x37 => Form::Outside,
        _ => Form::Unknown,
    }
}

/// The form of the instructions that begin with a byte from 0x40 to 0x4f.
#[tactic(auto, unfolding(crate::specs::Table::jump_form))]
fn jump_form(byte: u8) -> Form
    ensures { result ≡ specs.jump_form byte }
{
    match byte {
        0x40 => Form::Unwind,
        0x42 => Form::Offset {
            op: Op::Jump,
            signed: true,
        },
        0x43 => Form::Offset {
            op: Op::PopJumpIfTrue,
            signed: true,
        },
        0x44 => Form::Offset {
            op: Op::PopJumpIfFalse,
            signed: true,
        },
        0x45 => Form::Offset {
            op: Op::JumpIfTrueOrPop,
            signed: false,
        },
        0x46 => Form::Offset {
            op: Op::JumpIfFalseOrPop,
            signed: false,
        },
        0x48 => Form::Offset {
            op: Op::SetupExcept,
            signed: false,
        },
        0x49 => Form::Offset {
            op: Op::SetupFinally,
            signed: false,
        },
        0x4a => Form::Offset {
            op: Op::PopExceptJump,
            signed: false,
        },
        0x4b => Form::Offset {
            op: Op::ForIter,
            signed: false,
        },
        0x47 => Form::Outside,
        _ => Form::Unknown,
    }
}

/// The form of the instructions that begin with a byte from 0x50 to 0x6f.
#[tactic(auto, unfolding(crate::specs::Table::plain_form))]
fn plain_form(byte: u8) -> Form
    ensures { result ≡ specs.plain_form byte }
{
    match byte {
        0x50 => Form::Whole(Instr::Plain(Op::LoadConstFalse)),
        0x51 => Form::Whole(Instr::Plain(Op::LoadConstNone)),
        0x52 => Form::Whole(Instr::Plain(Op::LoadConstTrue)),
        0x53 => Form::Whole(Instr::Plain(Op::LoadNull)),
        0x55 => Form::Whole(Instr::Plain(Op::LoadSubscr)),
        0x56 => Form::Whole(Instr::Plain(Op::StoreSubscr)),
        0x57 => Form::Whole(Instr::Plain(Op::DupTop)),
        0x58 => Form::Whole(Instr::Plain(Op::DupTopTwo)),
        0x59 => Form::Whole(Instr::Plain(Op::PopTop)),
        0x5a => Form::Whole(Instr::Plain(Op::RotTwo)),
        0x5b => Form::Whole(Instr::Plain(Op::RotThree)),
        0x5d => Form::Whole(Instr::Plain(Op::EndFinally)),
        0x5f => Form::Whole(Instr::Plain(Op::GetIterStack)),
        0x62 => Form::Whole(Instr::Plain(Op::StoreMap)),
        0x63 => Form::Whole(Instr::Plain(Op::ReturnValue)),
        0x64 => Form::Whole(Instr::Plain(Op::RaiseLast)),
        0x65 => Form::Whole(Instr::Plain(Op::RaiseObj)),
        0x54 | 0x5c | 0x5e | 0x66..=0x69 => Form::Outside,
        _ => Form::Unknown,
    }
}

/// The form of the instructions that begin with a byte from 0x70 on.
#[tactic(auto, unfolding(crate::specs::Table::short_form))]
fn short_form(byte: u8) -> Form
    requires { 0x70 ≤ byte }
    ensures { result ≡ specs.short_form byte }
{
    match byte {
        0x70..=0xaf => Form::Whole(Instr::Int(i32::from(byte) - 0x80)),
        0xb0..=0xbf => Form::Whole(Instr::Num(Op::LoadFast, u32::from(byte - 0xb0))),
        0xc0..=0xcf => Form::Whole(Instr::Num(Op::StoreFast, u32::from(byte - 0xc0))),
        0xd0..=0xd3 => Form::Whole(Instr::Unary(byte - 0xd0)),
        0xe8 | 0xea | 0xf5 | 0xf7 => Form::Outside,
        0xd7..=0xf9 => Form::Whole(Instr::Binary(byte - 0xd7)),
        _ => Form::Unknown,
    }
}

/// The form of the instructions that begin with the byte.
#[tactic(auto, unfolding(crate::specs::Table::form_of))]
#[inline(always)]
pub(crate) fn form_at(byte: u8) -> Form
    ensures { result ≡ form_of byte }
{
    match byte {
        0x00..=0x1f => name_form(byte),
        0x20..=0x3f => number_form(byte),
        0x40..=0x4f => jump_form(byte),
        0x50..=0x6f => plain_form(byte),
        _ => short_form(byte),
    }
}
