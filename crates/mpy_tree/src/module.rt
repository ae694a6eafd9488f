//! Modules with texts, objects and positions in place of numbers and offsets.

use bc_ops::{Instr, Op};
use qstr_pool::{Items, Text};

/// An object that code loads.
#[derive(Drop)]
pub enum Constant {
    None,
    False,
    True,
    Str(Text),
    Int(i32),
    Tuple(Items<Constant>),
}

/// An instruction.
#[derive(Drop)]
pub enum Item {
    /// One that names no text, no object and no place.
    Plain(Instr),
    /// One that names a text.
    Named(Op, Text),
    /// The one that loads an object.
    Object(Constant),
    /// One that names another by its position in the list.
    Jump(Op, u32),
    /// One that names another by its position in the list, with the byte that stands behind the offset.
    Unwind(u32, u8),
}

/// The code of a module or a function.
#[derive(Drop)]
pub struct Code {
    pub name: Text,
    pub args: Items<Text>,
    /// How many of the arguments have a default.
    pub defaults: u32,
    /// The slots for locals and the stack.
    pub n_state: u32,
    /// The handler entries.
    pub n_exc: u32,
    pub instrs: Items<Item>,
    /// A line for each instruction.
    pub lines: Items<u32>,
    /// The codes of the functions in this one, which it makes by their positions here.
    pub children: Items<Code>,
}

/// A module: the name of its source, and the code of its outermost statements.
#[derive(Drop)]
pub struct ModuleCode {
    pub source: Text,
    pub code: Code,
}
