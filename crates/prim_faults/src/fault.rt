//! Faults: a kind of fault with the values and names that its text tells. None takes memory.

use crate::method::SpecialMethod;
use crate::types::ValueType;
use prim_walks::{NumFault, StrNo, Value};

/// A fault that a primitive or the machine raises. Names that a program may make are strs of the arena.
#[derive(Clone, Copy, Debug, PartialEq, Eq)]
pub enum Fault {
    Unsupported {
        method: SpecialMethod,
        left: ValueType,
        right: ValueType,
    },
    UnsupportedOne {
        method: SpecialMethod,
        operand: ValueType,
    },
    UnsupportedMatch,
    NotAnException,
    Arithmetic(NumFault),
    NotCallable(ValueType),
    NotIterable(ValueType),
    NotSubscriptable(ValueType),
    NotAssignable(ValueType),
    NotDeletable(ValueType),
    NoLength(ValueType),
    NotANumber(ValueType),
    NotAnIndex {
        sequence: ValueType,
        index: ValueType,
    },
    OutOfRange(ValueType),
    EmptyList,
    NoKey(Value),
    NoAttribute {
        object: ValueType,
        name: StrNo,
    },
    WrongCount {
        takes: u32,
        given: u32,
    },
    Missing(u32),
    TooFew {
        least: u32,
        given: u32,
    },
    TooMany {
        most: u32,
        given: u32,
    },
    NoKeywords,
    KeywordNotAStr,
    UnknownKeyword(Value),
    RepeatedKeyword(Value),
    NotAStr(Value),
    ZeroStep,
    NothingToCompare,
    NoNumeral,
    NoCharacter,
    NoCode,
    NotTypes,
    JoinsNoStr,
    EmptySeparator,
    NoSuchPort,
    PortFailed,
    NoSuchName(StrNo),
    Unassigned,
    NotImported(StrNo),
    UnpacksMore(u32),
    UnpacksFewer(u32),
    NothingToRaise,
    TooDeep,
    /// No module has the name that is these first bytes of an imported one.
    NoModule {
        name: StrNo,
        len: u32,
    },
    RelativeImport,
    IncompatibleFile,
    BadDefaults,
}
