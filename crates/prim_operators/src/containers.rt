//! What indexes find in values.

ghost use Rattle.prim_faults.specs.arena_heap.Values.{Leads};
ghost use Rattle.prim_operators.specs.Containers.{IsContainer};

use prim_faults::{Arena, DictNo, ListNo, Value};

/// What an index finds in a value: a dict's keys, places that can be set, places, or nothing.
#[derive(Clone, Copy)]
pub enum Container {
    Dict(DictNo),
    List(ListNo),
    Sequence,
    Other,
}

/// What an index finds in the value.
pub fn container_of(_arena: &Arena, v: Value) -> Container
    requires { Leads _arena.now.objects v }
    ensures { IsContainer _arena.now v result }
{
    match v {
        Value::Dict(d) => Container::Dict(d),
        Value::List(l) => Container::List(l),
        Value::Fixed(_) => Container::Sequence,
        Value::Str(_) | Value::Text(_) | Value::Empty | Value::Tuple(_) | Value::Range(_) => {
            Container::Sequence
        }
        _ => Container::Other,
    }
}
