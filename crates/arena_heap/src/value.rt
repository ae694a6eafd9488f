//! The values of a run, and the numbers of objects that they hold.

use qstr_pool::Builtin;

/// A list's number, which is its first cell.
#[derive(Clone, Copy, Debug, PartialEq, Eq)]
pub struct ListNo {
    pub cell: u32,
}

/// A dict's number, which is its first cell.
#[derive(Clone, Copy, Debug, PartialEq, Eq)]
pub struct DictNo {
    pub cell: u32,
}

/// The number of a tuple of one item or more, which is its first cell. The empty tuple is `Value::Empty`.
#[derive(Clone, Copy, Debug, PartialEq, Eq)]
pub struct TupleNo {
    pub cell: u32,
}

/// The number of a text of one byte or more, which is its first cell. The empty text is `StrNo::Pool(1)`.
#[derive(Clone, Copy, Debug, PartialEq, Eq)]
pub struct TextNo {
    pub cell: u32,
}

/// A function's number, which is its first cell.
#[derive(Clone, Copy, Debug, PartialEq, Eq)]
pub struct FunNo {
    pub cell: u32,
}

/// An exception's number, which is its first cell.
#[derive(Clone, Copy, Debug, PartialEq, Eq)]
pub struct ExcNo {
    pub cell: u32,
}

/// A bound method's number, which is its first cell.
#[derive(Clone, Copy, Debug, PartialEq, Eq)]
pub struct MethodNo {
    pub cell: u32,
}

/// A range's number, which is its first cell.
#[derive(Clone, Copy, Debug, PartialEq, Eq)]
pub struct RangeNo {
    pub cell: u32,
}

/// The number of a module that is made, which is its first cell.
#[derive(Clone, Copy, Debug, PartialEq, Eq)]
pub struct ModuleNo {
    pub cell: u32,
}

/// A constant of a module: its objects and the items of their tuples in preorder, counted from 0.
#[derive(Clone, Copy, Debug, PartialEq, Eq)]
pub struct ConstNo {
    pub module: u32,
    pub object: u32,
}

/// A text that lies outside the arena: one that names may have, or a constant. The empty text is `Pool(1)`.
#[derive(Clone, Copy, Debug, PartialEq, Eq)]
pub enum StrNo {
    Pool(u32),
    Object(ConstNo),
}

/// A value of a running program.
#[derive(Clone, Copy, Debug, PartialEq, Eq)]
pub enum Value {
    None,
    Bool(bool),
    Int(i32),
    /// A constant text.
    Str(StrNo),
    /// A constant tuple with items.
    Fixed(ConstNo),
    /// The empty tuple.
    Empty,
    List(ListNo),
    Dict(DictNo),
    Tuple(TupleNo),
    Text(TextNo),
    Fun(FunNo),
    Exc(ExcNo),
    Method(MethodNo),
    Range(RangeNo),
    Module(ModuleNo),
    Built(Builtin),
}

/// The number of an object, by its kind.
#[derive(Clone, Copy, Debug, PartialEq, Eq)]
pub enum ObjectNo {
    List(ListNo),
    Dict(DictNo),
    Tuple(TupleNo),
    Text(TextNo),
    Fun(FunNo),
    Exc(ExcNo),
    Method(MethodNo),
    Range(RangeNo),
    Module(ModuleNo),
}
