//! Arguments that are strs.

ghost use Rattle.std.specs.Prelude.{◌≡◌, ◌<◌, All, IfSome, option_copied};
ghost use Rattle.prim_builtins.specs.arena_heap.Values.{Leads, IsStr};
ghost use Rattle.prim_builtins.specs.arena_objects.Iterables.{spelled};
ghost use Rattle.prim_builtins.specs.py_values.Shown.{shown};
ghost use Rattle.prim_builtins.specs.py_primitives.Methods.{str_in};
ghost use Rattle.prim_builtins.specs.prim_faults.Sights.{sight, Tells};

use arena_heap::{Arena, Constants, Value};
use arena_objects::text_bytes;

/// The bytes of a str. Other values have none.
pub(crate) fn str_of<'a, C: Constants>(
    arena: &'a Arena,
    consts: &'a C,
    v: Value,
) -> Option<&'a [u8]>
    requires leads { Leads arena.now.objects v }
    requires told { Tells C.Constants consts.now v }
    ensures shown { let see = sight C.Constants consts.now in option_copied result ≡ str_in (shown (see.heap arena.now) (see.value v)) }
    ensures str { IfSome result (λ _. IsStr v) }
    ensures spelled { IfSome result (λ bytes. bytes.now ≡ spelled (C.text_of consts.now) arena.now v) }
    ensures ascii { IfSome result (λ bytes. All (λ b. b < 128) bytes.now) }
{
    match v {
        Value::Str(_) | Value::Text(_) => Some(text_bytes(arena, consts, v)),
        Value::Fixed(_) => None,
        _ => None,
    }
}
