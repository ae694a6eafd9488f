//! The bytes of strs.

ghost use Rattle.std.specs.Prelude.{◌≡◌, ◌<◌, All};
ghost use Rattle.prim_builtins.specs.arena_heap.Values.{Leads};
ghost use Rattle.prim_builtins.specs.arena_objects.Iterables.{spelled};
ghost use Rattle.prim_builtins.specs.prim_faults.Sights.{Tells};

use arena_heap::{Arena, Constants, Value};
use arena_objects::text_bytes;

/// The bytes of a str, and none of another value.
pub(crate) fn spelled_bytes<'a, C: Constants>(arena: &'a Arena, consts: &'a C, v: Value) -> &'a [u8]
    requires leads { Leads arena.now.objects v }
    requires told { Tells C.Constants consts.now v }
    ensures bytes { result.now ≡ spelled (C.text_of consts.now) arena.now v }
    ensures ascii { All (λ b. b < 128) result.now }
{
    match v {
        Value::Str(_) | Value::Text(_) => text_bytes(arena, consts, v),
        _ => &[],
    }
}
