//! Locals of calls, which may be empty.

ghost use Rattle.std.specs.Prelude.{[], IfSome};
ghost use Rattle.std.specs.Option.{option_map};
ghost use Rattle.prim_raising.specs.py_effects.Names.{assigned as is_assigned};
ghost use Rattle.prim_methods.specs.prim_faults.Sights.{under, Knows};
ghost use Rattle.prim_raising.specs.Worlds.{Stands, HasEffect};

use arena_heap::{Arena, Constants, Value};
use prim_operators::{Fault, Stop};

/// The value of a local, which is a fault where its slot is empty.
pub fn assigned<C: Constants>(
    _arena: &Arena,
    _consts: &C,
    local: Option<Value>,
) -> Result<Value, Stop>
    requires known { IfSome local (Knows C.Constants _consts.now _arena.now) }
    requires stands { under C.Constants _consts.now Stands _arena.now [] }
    ensures { under C.Constants _consts.now HasEffect _arena.now _arena.now result (λ w see. is_assigned w (option_map see.value local)) }
{
    match local {
        Some(v) => Ok(v),
        None => Err(Stop::Raises(Fault::Unassigned)),
    }
}
