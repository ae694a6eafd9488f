//! What is fetched: an instruction with the numbers of its library, in place of those of its module.

use crate::operations::{
    AttributeOp, BuildOp, CallOp, HandlerOp, ItemOp, LeaveOp, LocalOp, MakeOp, MoveOp, NameOp,
    TestOp,
};
use arena_heap::{StrNo, Value};

/// An instruction by what it costs, with the numbers of its library: a text, an object and the offset that it jumps to.
#[derive(Clone, Copy, Debug, PartialEq, Eq)]
pub enum Instruction {
    /// It makes no visits.
    Acts(Action),
    /// An operator over two operands, by its number. Its visits are paid first.
    Binary(u8),
    /// A call. The number says how many operands lie on top. Its visits are paid first.
    Calls(CallOp, u32),
}

/// An instruction without visits, by where it leads.
#[derive(Clone, Copy, Debug, PartialEq, Eq)]
pub enum Action {
    /// The running call goes on.
    Stays(Step),
    /// A return or a raise.
    Leaves(LeaveOp),
    /// The end of a finally.
    Finishes,
    /// A function of the child that has the number.
    Makes(MakeOp, u32),
    /// An import of the module whose name has the number in the library's pool.
    Imports(u32),
}

/// An instruction that stays in the running call, by what it works on. Targets are offsets.
#[derive(Clone, Copy, Debug, PartialEq, Eq)]
pub enum Step {
    Move(MoveOp),
    /// Loads a small integer.
    Int(i32),
    /// Loads a text.
    Text(StrNo),
    /// Loads an object.
    Object(Value),
    Local(LocalOp, u32),
    Item(ItemOp),
    /// The number counts what it takes, or what it leaves.
    Build(BuildOp, u32),
    Name(NameOp, StrNo),
    Attribute(AttributeOp, StrNo),
    /// A unary operator, by its number.
    Unary(u8),
    Jump(u32),
    /// A jump that tests the value on top.
    Test(TestOp, u32),
    /// A handler that is set up at the offset, or left for it.
    Handle(HandlerOp, u32),
    /// Puts an iterator over the value on top.
    Iterate,
    /// The next item of the iterator on top, or a jump behind the last one.
    ForIter(u32),
    /// The byte counts the entries that are left, and its highest bit says that an iterator is taken.
    Unwind { target: u32, byte: u8 },
}

/// An instruction, and the offset that it ends at.
#[derive(Clone, Copy, Debug, PartialEq, Eq)]
pub struct Fetched {
    pub instruction: Instruction,
    pub end: u32,
}
