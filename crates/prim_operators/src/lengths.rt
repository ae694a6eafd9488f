//! How many items an iterable has.

ghost use Rattle.std.specs.Prelude.{◌≡◌};
ghost use Rattle.prim_faults.specs.arena_heap.Values.{Leads};
ghost use Rattle.prim_faults.specs.py_primitives.Iterables.{length_of as length_in};
ghost use Rattle.prim_faults.specs.Sights.{sight, Tells};

use prim_faults::{Arena, Constants, Look, Value, dict_len, look_at, range_count};

/// How many items an iterable has. Other values have none.
pub fn length_of<C: Constants>(arena: &Arena, consts: &C, over: Value) -> usize
    requires leads { Leads arena.now.objects over }
    requires told { Tells C.Constants consts.now over }
    ensures { let see = sight C.Constants consts.now in result ≡ length_in (see.heap arena.now) (see.value over) }
{
    match look_at(arena, consts, over) {
        Look::Text(bytes) => bytes.len(),
        Look::Tuple(count) | Look::Items(count) => count as usize,
        Look::Pairs(d) => dict_len(arena, d) as usize,
        Look::Range { start, stop, step } => range_count(start, stop, step) as usize,
        _ => 0,
    }
}
