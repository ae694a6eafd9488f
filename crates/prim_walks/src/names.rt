//! How built-ins are called.

ghost use Rattle.std.specs.Prelude.{◌≡◌};
ghost use Rattle.py_primitives.specs.py_values.Names.{builtin_name as name_of};
ghost use Rattle.py_primitives.specs.Builtins.{globals};

use py_primitives::{Builtin, Kind};

/// What names can mean that no namespace has, as `global_builtins` gives it.
const GLOBALS: [Builtin; 39] = [
    Builtin::Bool,
    Builtin::Int,
    Builtin::Str,
    Builtin::List,
    Builtin::Tuple,
    Builtin::Dict,
    Builtin::Print,
    Builtin::Len,
    Builtin::Abs,
    Builtin::Range,
    Builtin::Min,
    Builtin::Max,
    Builtin::Repr,
    Builtin::Ord,
    Builtin::Chr,
    Builtin::IsInstance,
    Builtin::Kind(Kind::BaseException),
    Builtin::Kind(Kind::SystemExit),
    Builtin::Kind(Kind::KeyboardInterrupt),
    Builtin::Kind(Kind::Exception),
    Builtin::Kind(Kind::ArithmeticError),
    Builtin::Kind(Kind::OverflowError),
    Builtin::Kind(Kind::ZeroDivisionError),
    Builtin::Kind(Kind::AssertionError),
    Builtin::Kind(Kind::AttributeError),
    Builtin::Kind(Kind::EofError),
    Builtin::Kind(Kind::ImportError),
    Builtin::Kind(Kind::LookupError),
    Builtin::Kind(Kind::IndexError),
    Builtin::Kind(Kind::KeyError),
    Builtin::Kind(Kind::MemoryError),
    Builtin::Kind(Kind::NameError),
    Builtin::Kind(Kind::OsError),
    Builtin::Kind(Kind::RuntimeError),
    Builtin::Kind(Kind::NotImplementedError),
    Builtin::Kind(Kind::StopIteration),
    Builtin::Kind(Kind::SyntaxError),
    Builtin::Kind(Kind::TypeError),
    Builtin::Kind(Kind::ValueError),
];

/// What names can mean that no namespace has, in the order in which a name is looked for.
pub fn global_builtins() -> &'static [Builtin]
    ensures { result.now ≡ globals }
{
    &GLOBALS
}

/// The name that a built-in alone has: that of a method or of a call of `port` stands behind its type or `port`.
pub fn builtin_name(b: Builtin) -> &'static str
    ensures { result.now ≡ name_of b }
{
    match b {
        Builtin::Bool => "bool",
        Builtin::Int => "int",
        Builtin::Str => "str",
        Builtin::List => "list",
        Builtin::Tuple => "tuple",
        Builtin::Dict => "dict",
        Builtin::Print => "print",
        Builtin::Len => "len",
        Builtin::Abs => "abs",
        Builtin::Range => "range",
        Builtin::Min => "min",
        Builtin::Max => "max",
        Builtin::Repr => "repr",
        Builtin::Ord => "ord",
        Builtin::Chr => "chr",
        Builtin::IsInstance => "isinstance",
        Builtin::Kind(kind) => kind.name(),
        Builtin::ListAppend => "list.append",
        Builtin::ListPop => "list.pop",
        Builtin::ListInsert => "list.insert",
        Builtin::ListExtend => "list.extend",
        Builtin::DictGet => "dict.get",
        Builtin::DictKeys => "dict.keys",
        Builtin::DictValues => "dict.values",
        Builtin::DictItems => "dict.items",
        Builtin::DictPop => "dict.pop",
        Builtin::StrJoin => "str.join",
        Builtin::StrFind => "str.find",
        Builtin::StrStartsWith => "str.startswith",
        Builtin::StrSplit => "str.split",
        Builtin::Port => "port",
        Builtin::PortPut => "port.put",
        Builtin::PortGet => "port.get",
        Builtin::PortCount => "port.count",
    }
}
