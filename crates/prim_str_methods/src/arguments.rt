//! Arguments that are strs.

ghost use Rattle.prim_builtins.specs.arena_heap.Values.{Leads};
ghost use Rattle.prim_str_methods.specs.Arguments.{IsNoStr};

use arena_heap::{Arena, Value};
use prim_builtins::{Fault, SpecialMethod, type_of};

/// What a str method raises over an argument that is no str.
pub(crate) fn no_str(arena: &Arena, object: Value, v: Value) -> Fault
    requires object { Leads arena.now.objects object }
    requires leads { Leads arena.now.objects v }
    ensures { IsNoStr arena.now object v result }
{
    Fault::Unsupported {
        method: SpecialMethod::Contains,
        left: type_of(arena, object),
        right: type_of(arena, v),
    }
}
