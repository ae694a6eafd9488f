//! The types of values.

ghost use Rattle.std.specs.Prelude.{◌≡◌, ◌≤◌, length};
ghost use Rattle.prim_walks.specs.arena_heap.Values.{Leads};
ghost use Rattle.prim_walks.specs.py_values.Names.{builtin_type as type_of_builtin};
ghost use Rattle.prim_faults.specs.Types.{type_text, IsTypeName};

use prim_walks::{Arena, Builtin, Kind, Value, exc_parts};

/// A type of values.
#[derive(Clone, Copy, Debug, PartialEq, Eq)]
pub enum ValueType {
    None,
    Bool,
    Int,
    Str,
    Tuple,
    List,
    Dict,
    Range,
    Function,
    Module,
    /// The type of types.
    Metatype,
    BoundMethod,
    Exception(Kind),
}

/// The name of a kind of exceptions, which is short.
fn exception_name(kind: Kind) -> &'static str
    ensures name { result.now ≡ type_text (ValueType.Exception kind) }
    ensures short { length result.now ≤ 32 }
{
    kind.name()
}

impl ValueType {
    /// How messages call the type.
    pub fn name(self) -> &'static str
        ensures name { result.now ≡ type_text self }
        ensures short { length result.now ≤ 32 }
    {
        match self {
            ValueType::None => "NoneType",
            ValueType::Bool => "bool",
            ValueType::Int => "int",
            ValueType::Str => "str",
            ValueType::Tuple => "tuple",
            ValueType::List => "list",
            ValueType::Dict => "dict",
            ValueType::Range => "range",
            ValueType::Function => "function",
            ValueType::Module => "module",
            ValueType::Metatype => "type",
            ValueType::BoundMethod => "bound_method",
            ValueType::Exception(kind) => exception_name(kind),
        }
    }
}

/// The type of a built-in: that of types, of modules or of functions.
fn builtin_type(b: Builtin) -> ValueType
    ensures { type_text result ≡ type_of_builtin b }
{
    match b {
        Builtin::Bool
        | Builtin::Int
        | Builtin::Str
        | Builtin::List
        | Builtin::Tuple
        | Builtin::Dict
        | Builtin::Kind(_) => ValueType::Metatype,
        Builtin::Port => ValueType::Module,
        _ => ValueType::Function,
    }
}

/// The type of a value.
pub fn type_of(arena: &Arena, v: Value) -> ValueType
    requires { Leads arena.now.objects v }
    ensures { IsTypeName arena.now v (type_text result) }
{
    match v {
        Value::None => ValueType::None,
        Value::Bool(_) => ValueType::Bool,
        Value::Int(_) => ValueType::Int,
        Value::Str(_) | Value::Text(_) => ValueType::Str,
        Value::Fixed(_) => ValueType::Tuple,
        Value::Empty | Value::Tuple(_) => ValueType::Tuple,
        Value::List(_) => ValueType::List,
        Value::Dict(_) => ValueType::Dict,
        Value::Range(_) => ValueType::Range,
        Value::Fun(_) => ValueType::Function,
        Value::Module(_) => ValueType::Module,
        Value::Method(_) => ValueType::BoundMethod,
        Value::Exc(e) => ValueType::Exception(exc_parts(arena, e).0),
        Value::Built(b) => builtin_type(b),
    }
}

/// The name of a value's type, as messages have it.
pub fn type_name(arena: &Arena, v: Value) -> &'static str
    requires { Leads arena.now.objects v }
    ensures { IsTypeName arena.now v result.now }
{
    type_of(arena, v).name()
}
