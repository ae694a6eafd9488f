//! Keys.

ghost use Rattle.std.specs.Prelude.{◌↔◌, IsTrue};
ghost use Rattle.prim_walks.specs.arena_heap.Values.{Leads, IsKey};
ghost use Rattle.prim_faults.specs.Keys.{DecidesKey};

use prim_walks::{Arena, Value};

/// Whether a value may be a key.
pub fn is_key(_arena: &Arena, v: Value) -> bool
    requires { Leads _arena.now.objects v }
    ensures key { IsTrue result ↔ IsKey v }
    ensures shown { DecidesKey _arena.now v result }
{
    match v {
        Value::Fixed(_) => false,
        Value::None | Value::Bool(_) | Value::Int(_) | Value::Str(_) | Value::Text(_) => true,
        _ => false,
    }
}
