//! Truth.

ghost use Rattle.std.specs.Prelude.{◌≡◌};
ghost use Rattle.arena_objects.specs.arena_heap.Values.{Leads};
ghost use Rattle.arena_objects.specs.arena_heap.Constants.{IsTold};
ghost use Rattle.py_primitives.specs.py_values.Shown.{truth as truth_of};
ghost use Rattle.prim_walks.specs.Plain.{plain, plain_heap};

use crate::look::{Look, look_at};
use arena_objects::{Arena, Constants, Value, dict_len, range_count};

/// Whether a value counts as true.
pub fn truth<C: Constants>(arena: &Arena, consts: &C, v: Value) -> bool
    requires leads { Leads arena.now.objects v }
    requires told { IsTold (C.text_of consts.now) (C.items_of consts.now) v }
    ensures { result ≡ truth_of (plain_heap (C.text_of consts.now) (C.items_of consts.now) arena.now) (plain (C.text_of consts.now) (C.items_of consts.now) v) }
{
    match look_at(arena, consts, v) {
        Look::Nothing => false,
        Look::Number(n) => n != 0,
        Look::Text(bytes) => !bytes.is_empty(),
        Look::Tuple(count) | Look::Items(count) => count != 0,
        Look::Pairs(d) => dict_len(arena, d) != 0,
        Look::Range { start, stop, step } => range_count(start, stop, step) != 0,
        Look::Other => true,
    }
}
