//! The objects that methods are bound to.

ghost use Rattle.std.specs.Prelude.{◌≡◌};
ghost use Rattle.prim_assignments.specs.arena_heap.Values.{IsList, IsDict};

use arena_heap::{DictNo, ListNo, Value};

/// The number of a list.
pub(crate) fn list_number(object: Value) -> ListNo
    requires { IsList object }
    ensures { object ≡ Value.List result }
{
    match object {
        Value::List(l) => l,
        _ => unreachable!(),
    }
}

/// The number of a dict.
pub(crate) fn dict_number(object: Value) -> DictNo
    requires { IsDict object }
    ensures { object ≡ Value.Dict result }
{
    match object {
        Value::Dict(d) => d,
        _ => unreachable!(),
    }
}
