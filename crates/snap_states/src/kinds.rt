//! Kinds of objects.

ghost use Rattle.std.specs.Prelude.{◌≡◌, ◌↔◌, IsTrue, Some};
ghost use Rattle.std.specs.Option.{option_map};
ghost use Rattle.snap_states.specs.Knowing.{object_kind};
ghost use Rattle.snap_states.specs.Parts as parts;

use mpy_base::Builtin;
use snap_grammar::ObjectPart;

/// What an object is.
#[derive(Clone, Copy, Debug, PartialEq, Eq)]
pub enum PartKind {
    List,
    Dict,
    Tuple,
    Text,
    Function,
    Exception,
    Method,
    Range,
    Module,
}

/// The kind of an object.
pub(crate) fn part_kind(object: &ObjectPart) -> PartKind
    ensures { object_kind result ≡ parts.part_kind object.now }
{
    match object {
        ObjectPart::List { .. } => PartKind::List,
        ObjectPart::Dict { .. } => PartKind::Dict,
        ObjectPart::Tuple { .. } => PartKind::Tuple,
        ObjectPart::Text { .. } => PartKind::Text,
        ObjectPart::Function { .. } => PartKind::Function,
        ObjectPart::Exception { .. } => PartKind::Exception,
        ObjectPart::Method { .. } => PartKind::Method,
        ObjectPart::Range { .. } => PartKind::Range,
        ObjectPart::Module { .. } => PartKind::Module,
    }
}

/// Whose method a built-in is, if it is one.
pub(crate) fn method_of(builtin: Builtin) -> Option<PartKind>
    ensures { option_map object_kind result ≡ parts.method_of builtin }
{
    match builtin {
        Builtin::ListAppend | Builtin::ListPop | Builtin::ListInsert | Builtin::ListExtend => {
            Some(PartKind::List)
        }
        Builtin::DictGet
        | Builtin::DictKeys
        | Builtin::DictValues
        | Builtin::DictItems
        | Builtin::DictPop => Some(PartKind::Dict),
        Builtin::StrJoin | Builtin::StrFind | Builtin::StrStartsWith | Builtin::StrSplit => {
            Some(PartKind::Text)
        }
        Builtin::Bool
        | Builtin::Int
        | Builtin::Str
        | Builtin::List
        | Builtin::Tuple
        | Builtin::Dict
        | Builtin::Print
        | Builtin::Len
        | Builtin::Abs
        | Builtin::Range
        | Builtin::Min
        | Builtin::Max
        | Builtin::Repr
        | Builtin::Ord
        | Builtin::Chr
        | Builtin::IsInstance
        | Builtin::Kind(_)
        | Builtin::Port
        | Builtin::PortPut
        | Builtin::PortGet
        | Builtin::PortCount => None,
    }
}

/// Whether this kind was found.
pub(crate) fn is_kind(found: Option<PartKind>, kind: PartKind) -> bool
    ensures { IsTrue result ↔ (option_map object_kind found ≡ Some (object_kind kind)) }
{
    match found {
        Some(other) => other == kind,
        None => false,
    }
}
