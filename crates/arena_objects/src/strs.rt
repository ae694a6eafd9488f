//! The bytes of strs.

ghost use Rattle.std.specs.Prelude.{◌≡◌, ◌<◌, ◌^◌, length, Some, All};
ghost use Rattle.arena_heap.specs.Values.{Leads, IsStr};
ghost use Rattle.arena_heap.specs.Constants.{IsTold};
ghost use Rattle.arena_objects.specs.Keys.{bytes_of};

use arena_heap::{Arena, Constants, Value, made_text};

/// The bytes of a str, each below 0x80, whether it is a constant or was made.
pub fn text_bytes<'a, C: Constants>(arena: &'a Arena, consts: &'a C, s: Value) -> &'a [u8]
    requires str { IsStr s }
    requires leads { Leads arena.now.objects s }
    requires told { IsTold (C.text_of consts.now) (C.items_of consts.now) s }
    ensures bytes { bytes_of (C.text_of consts.now) arena.now s ≡ Some result.now }
    ensures ascii { All (λ b. b < 128) result.now }
    ensures few { length result.now < 2 ^ 32 }
{
    match s {
        Value::Str(n) => consts.text(n).unwrap(),
        Value::Text(t) => made_text(arena, t),
        _ => unreachable!(),
    }
}
