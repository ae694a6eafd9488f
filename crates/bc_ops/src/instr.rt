//! Instructions.

ghost use Rattle.std.specs.Prelude.{◌≡◌};
ghost use Rattle.bc_ops.specs.Code.{is_signed};
ghost use Rattle.bc_ops.specs.Table.{code_of, form_of};

use crate::form::form_at;

/// What an instruction does. The number is the byte that its bytes begin with; of the short forms of locals, which have
/// the local's number inside that byte, it is the first.
#[derive(Clone, Copy, Debug, PartialEq, Eq)]
pub enum Op {
    LoadConstString = 0x10,
    LoadName = 0x11,
    LoadGlobal = 0x12,
    LoadAttr = 0x13,
    LoadMethod = 0x14,
    StoreName = 0x16,
    StoreGlobal = 0x17,
    StoreAttr = 0x18,
    DeleteName = 0x19,
    DeleteGlobal = 0x1a,
    ImportName = 0x1b,
    ImportFrom = 0x1c,
    LoadConstObj = 0x23,
    LoadFastN = 0x24,
    StoreFastN = 0x26,
    DeleteFast = 0x28,
    BuildTuple = 0x2a,
    BuildList = 0x2b,
    BuildMap = 0x2c,
    UnpackSequence = 0x30,
    MakeFunction = 0x32,
    MakeFunctionDefargs = 0x33,
    CallFunction = 0x34,
    CallMethod = 0x36,
    Jump = 0x42,
    PopJumpIfTrue = 0x43,
    PopJumpIfFalse = 0x44,
    JumpIfTrueOrPop = 0x45,
    JumpIfFalseOrPop = 0x46,
    SetupExcept = 0x48,
    SetupFinally = 0x49,
    PopExceptJump = 0x4a,
    ForIter = 0x4b,
    LoadConstFalse = 0x50,
    LoadConstNone = 0x51,
    LoadConstTrue = 0x52,
    LoadNull = 0x53,
    LoadSubscr = 0x55,
    StoreSubscr = 0x56,
    DupTop = 0x57,
    DupTopTwo = 0x58,
    PopTop = 0x59,
    RotTwo = 0x5a,
    RotThree = 0x5b,
    EndFinally = 0x5d,
    GetIterStack = 0x5f,
    StoreMap = 0x62,
    ReturnValue = 0x63,
    RaiseLast = 0x64,
    RaiseObj = 0x65,
    LoadFast = 0xb0,
    StoreFast = 0xc0,
}

impl Op {
    /// The byte that its instructions begin with.
    pub fn code(self) -> u8
        ensures { result ≡ code_of self }
    {
        self as u8
    }

    /// Is it a jump whose offset is signed?
    pub fn has_signed_offset(self) -> bool
        ensures { result ≡ is_signed (form_of (code_of self)) }
    {
        form_at(self.code()).is_signed()
    }
}

/// An instruction with its operand as its bytes have it.
#[derive(Clone, Copy, Debug, PartialEq, Eq)]
pub enum Instr {
    Plain(Op),
    /// The operation and the number of a name.
    Name(Op, u32),
    /// The operation and the number of an object, a local or a child, or a count. A call's count has the positional
    /// arguments in its low eight bits and the keyword arguments in the next eight.
    Num(Op, u32),
    /// A small integer.
    Int(i32),
    /// The offset counts from the end of its own bytes, of which it has two where it is wide.
    Jump { op: Op, offset: i32, wide: bool },
    /// The offset counts from the end of its own bytes. The byte says how many handler entries are left, and in its
    /// top bit whether an iterator is.
    Unwind { offset: i32, wide: bool, byte: u8 },
    /// A unary operator, by its number.
    Unary(u8),
    /// A binary operator, by its number.
    Binary(u8),
}
