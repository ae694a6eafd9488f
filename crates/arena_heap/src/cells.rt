//! What a cell of an arena holds.

ghost use Rattle.std.specs.Prelude.{◌≡◌, option_map};
ghost use Rattle.arena_heap.specs.Cells.{cell_of, value_of, dict_number, dict_in, object_in, place_in, first_link, next_link};

use crate::value::{
    ConstNo, DictNo, ExcNo, FunNo, ListNo, MethodNo, ModuleNo, ObjectNo, RangeNo, StrNo, TextNo,
    TupleNo, Value,
};
use qstr_pool::{Builtin, Kind};

/// Where the items of a list or the pairs of a dict lie. A pair has three cells.
#[derive(Clone, Copy, Debug)]
pub(crate) struct Region {
    pub start: u32,
    pub len: u32,
    pub room: u32,
}

/// Where a text's bytes lie.
#[derive(Clone, Copy, Debug)]
pub(crate) struct Span {
    pub start: u32,
    pub len: u32,
}

/// A value, the first cell of an object, or the place of an exception. Values stand here with no enum inside, so that a
/// cell has 16 bytes.
#[derive(Clone, Copy, Debug)]
pub(crate) enum Cell {
    None,
    Bool(bool),
    Int(i32),
    Pool(u32),
    Object(ConstNo),
    Fixed(ConstNo),
    Empty,
    List(ListNo),
    Dict(DictNo),
    Tuple(TupleNo),
    Text(TextNo),
    Fun(FunNo),
    Exc(ExcNo),
    Method(MethodNo),
    Range(RangeNo),
    Module(ModuleNo),
    Built(Builtin),
    ListHead(Region),
    DictHead(Region),
    /// How many items follow.
    TupleHead(u32),
    TextHead(Span),
    /// Its namespace and its defaults follow.
    FunHead { name: u32, module: u32, code: u32 },
    /// Its arguments and its place follow.
    ExcHead(Kind),
    /// The object follows.
    MethodHead(Builtin),
    RangeHead { start: i32, stop: i32, step: i32 },
    /// Its name. Its namespace follows, or None.
    ModuleHead(u32),
    Place { file: u32, line: u32, name: u32 },
    /// What stands behind a pair of a dict, each 0 or one more than a place: `first` leads to the last pair of the bucket
    /// with this place's number, `next` to the pair in front of this place's own in its bucket.
    Links { first: u32, next: u32 },
}

impl Cell {
    /// The cell that holds the value.
    #[inline(always)]
    pub(crate) fn of(v: Value) -> Cell
        ensures { result ≡ cell_of v }
    {
        match v {
            Value::None => Cell::None,
            Value::Bool(b) => Cell::Bool(b),
            Value::Int(n) => Cell::Int(n),
            Value::Str(StrNo::Pool(n)) => Cell::Pool(n),
            Value::Str(StrNo::Object(c)) => Cell::Object(c),
            Value::Fixed(c) => Cell::Fixed(c),
            Value::Empty => Cell::Empty,
            Value::List(l) => Cell::List(l),
            Value::Dict(d) => Cell::Dict(d),
            Value::Tuple(t) => Cell::Tuple(t),
            Value::Text(t) => Cell::Text(t),
            Value::Fun(f) => Cell::Fun(f),
            Value::Exc(e) => Cell::Exc(e),
            Value::Method(m) => Cell::Method(m),
            Value::Range(r) => Cell::Range(r),
            Value::Module(m) => Cell::Module(m),
            Value::Built(b) => Cell::Built(b),
        }
    }

    /// The value in the cell, and None where it holds none.
    #[inline(always)]
    pub(crate) fn value(self) -> Value
        ensures { result ≡ value_of self }
    {
        match self {
            Cell::Bool(b) => Value::Bool(b),
            Cell::Int(n) => Value::Int(n),
            Cell::Pool(n) => Value::Str(StrNo::Pool(n)),
            Cell::Object(c) => Value::Str(StrNo::Object(c)),
            Cell::Fixed(c) => Value::Fixed(c),
            Cell::Empty => Value::Empty,
            Cell::List(l) => Value::List(l),
            Cell::Dict(d) => Value::Dict(d),
            Cell::Tuple(t) => Value::Tuple(t),
            Cell::Text(t) => Value::Text(t),
            Cell::Fun(f) => Value::Fun(f),
            Cell::Exc(e) => Value::Exc(e),
            Cell::Method(m) => Value::Method(m),
            Cell::Range(r) => Value::Range(r),
            Cell::Module(m) => Value::Module(m),
            Cell::Built(b) => Value::Built(b),
            _ => Value::None,
        }
    }

    /// The object whose first cell this is, at its place, if it is one.
    pub(crate) fn object(self, cell: u32) -> Option<ObjectNo>
        ensures { result ≡ object_in self cell }
    {
        match self {
            Cell::ListHead(_) => Some(ObjectNo::List(ListNo { cell })),
            Cell::DictHead(_) => Some(ObjectNo::Dict(DictNo { cell })),
            Cell::TupleHead(_) => Some(ObjectNo::Tuple(TupleNo { cell })),
            Cell::TextHead(_) => Some(ObjectNo::Text(TextNo { cell })),
            Cell::FunHead { .. } => Some(ObjectNo::Fun(FunNo { cell })),
            Cell::ExcHead(_) => Some(ObjectNo::Exc(ExcNo { cell })),
            Cell::MethodHead(_) => Some(ObjectNo::Method(MethodNo { cell })),
            Cell::RangeHead { .. } => Some(ObjectNo::Range(RangeNo { cell })),
            Cell::ModuleHead(_) => Some(ObjectNo::Module(ModuleNo { cell })),
            _ => None,
        }
    }

    /// The dict that the cell leads to, and number 0 where it leads to none.
    pub(crate) fn dict(self) -> DictNo
        ensures { result.cell ≡ dict_number self }
    {
        match self {
            Cell::Dict(d) => d,
            _ => DictNo { cell: 0 },
        }
    }

    /// The dict that the cell leads to, if it does.
    pub(crate) fn names(self) -> Option<DictNo>
        ensures { option_map (λ names. names.cell) result ≡ dict_in self }
    {
        match self {
            Cell::Dict(d) => Some(d),
            _ => None,
        }
    }

    /// The file, the line and the name of a place, which are empty where the cell holds none.
    pub(crate) fn place(self) -> (u32, u32, u32)
        ensures file { result.0 ≡ (place_in self).file }
        ensures line { result.1 ≡ (place_in self).line }
        ensures name { result.2 ≡ (place_in self).name }
    {
        match self {
            Cell::Place { file, line, name } => (file, line, name),
            _ => (1, 0, 1),
        }
    }

    /// The link to the last pair of a bucket, and 0 where the cell holds no links.
    pub(crate) fn first(self) -> u32
        ensures { result ≡ first_link self }
    {
        match self {
            Cell::Links { first, .. } => first,
            _ => 0,
        }
    }

    /// The link to the pair in front, and 0 where the cell holds no links.
    pub(crate) fn next(self) -> u32
        ensures { result ≡ next_link self }
    {
        match self {
            Cell::Links { next, .. } => next,
            _ => 0,
        }
    }
}
