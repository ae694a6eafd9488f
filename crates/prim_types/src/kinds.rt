//! The kinds of exceptions, and what is under which.

ghost use Rattle.std.specs.Prelude.{◌≡◌};
ghost use Rattle.prim_builtins.specs.arena_heap.Values.{Leads};
ghost use Rattle.prim_builtins.specs.py_primitives.Builtins.{kind_in as kind_that_is};
ghost use Rattle.prim_builtins.specs.py_primitives.Operators.{is_under as is_under_in};
ghost use Rattle.prim_types.specs.Types.{IsExceptionKind, IsNamedKind};

use mpy_base::{Builtin, Kind};
use prim_operators::{Arena, Value, exc_parts};

/// The kind that a built-in is, if it is one.
pub(crate) fn kind_in(b: Builtin) -> Option<Kind>
    ensures { result ≡ kind_that_is b }
{
    match b {
        Builtin::Kind(kind) => Some(kind),
        _ => None,
    }
}

/// The kind that a value names, if it names one.
pub(crate) fn named_kind(v: Value) -> Option<Kind>
    ensures { IsNamedKind v result }
{
    match v {
        Value::Built(b) => kind_in(b),
        Value::Fixed(_) => None,
        _ => None,
    }
}

/// The kind of an exception. Other values have none.
pub(crate) fn exception_kind(arena: &Arena, v: Value) -> Option<Kind>
    requires { Leads arena.now.objects v }
    ensures { IsExceptionKind arena.now v result }
{
    match v {
        Value::Exc(e) => Some(exc_parts(arena, e).0),
        _ => None,
    }
}

/// Whether a kind is this one, or below it.
pub(crate) fn is_under(kind: Kind, other: Kind) -> bool
    ensures { result ≡ is_under_in kind other }
{
    kind.is_under(other)
}
