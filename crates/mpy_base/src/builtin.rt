//! What a program finds without making it.

use crate::Kind;

/// A built-in function or type, a kind of exceptions, a method of a type, the module `port`, or one of its calls.
#[derive(Clone, Copy, Debug, PartialEq, Eq)]
pub enum Builtin {
    Bool,
    Int,
    Str,
    List,
    Tuple,
    Dict,
    Print,
    Len,
    Abs,
    Range,
    Min,
    Max,
    Repr,
    Ord,
    Chr,
    IsInstance,
    Kind(Kind),
    ListAppend,
    ListPop,
    ListInsert,
    ListExtend,
    DictGet,
    DictKeys,
    DictValues,
    DictItems,
    DictPop,
    StrJoin,
    StrFind,
    StrStartsWith,
    StrSplit,
    Port,
    PortPut,
    PortGet,
    PortCount,
}
