//! Pairs of dicts that are made.

ghost use Rattle.std.specs.Prelude.{[], ◌∷◌};
ghost use Rattle.prim_raising.specs.py_effects.Names.{store_pair as stores};
ghost use Rattle.prim_methods.specs.prim_faults.Sights.{under};
ghost use Rattle.prim_raising.specs.Worlds.{Stands, HasEffect};

use arena_heap::{Arena, Constants, Value};
use prim_methods::set_item;
use prim_operators::{Container, Fault, Stop, container_of, type_of};

/// Sets a pair of the dict that is made. Any other value is a fault.
pub fn store_pair<C: Constants>(
    arena: &mut Arena,
    consts: &C,
    object: Value,
    key: Value,
    v: Value,
) -> Result<Value, Stop>
    requires { under C.Constants consts.now Stands arena.old (object ∷ key ∷ v ∷ []) }
    ensures { under C.Constants consts.now HasEffect arena.old arena.new result (λ w see. stores w (see.value object) (see.value key) (see.value v)) }
{
    match container_of(arena, object) {
        Container::Dict(_) => set_item(arena, consts, object, key, v),
        _ => Err(Stop::Raises(Fault::NotAssignable(type_of(arena, object)))),
    }
}
