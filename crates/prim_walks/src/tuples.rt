//! What stands behind the items of a tuple.

ghost use Rattle.std.specs.Prelude.{◌≡◌, ◌<◌, ℕ, List, Bool, All, map, codes};
ghost use Rattle.py_primitives.specs.mpy_base.Val.{Val as PlainValue};
ghost use Rattle.arena_objects.specs.arena_heap.Values.{Leads, IsTuple};
ghost use Rattle.arena_objects.specs.arena_heap.Constants.{IsTold};
ghost use Rattle.arena_objects.specs.Iterables.{items_in};
ghost use Rattle.py_primitives.specs.py_values.Equality.{Walk};
ghost use Rattle.py_primitives.specs.Texts.{texts_between, written};
ghost use Rattle.prim_walks.specs.Leaves.{end_of_tuple};
ghost use Rattle.prim_walks.specs.Plain.{plain, plain_heap};

use crate::look::look_at;
use arena_objects::{Arena, Constants, Value, item_count};

/// What stands behind the `count` items of a tuple: a lone one has a comma.
fn end_of(count: u32) -> &'static [u8]
    ensures end { result.now ≡ end_of_tuple count }
    ensures ascii { All (λ b. b < 128) result.now }
{
    if count == 1 { b",)" } else { b")" }
}

/// What stands behind the items of a tuple.
pub(crate) fn tuple_end<C: Constants>(arena: &Arena, consts: &C, v: Value) -> &'static [u8]
    requires tuple { IsTuple v }
    requires leads { Leads arena.now.objects v }
    requires told { IsTold (C.text_of consts.now) (C.items_of consts.now) v }
    ensures written { (write : Bool → PlainValue → Walk (List ℕ)) (raw : Bool)
        → written (plain_heap (C.text_of consts.now) (C.items_of consts.now) arena.now) write raw
        (plain (C.text_of consts.now) (C.items_of consts.now) v)
        ≡ texts_between (plain_heap (C.text_of consts.now) (C.items_of consts.now) arena.now) write (codes "(") result.now
        (map (plain (C.text_of consts.now) (C.items_of consts.now)) (items_in (C.items_of consts.now) arena.now v)) }
    ensures ascii { All (λ b. b < 128) result.now }
{
    let _ = look_at(arena, consts, v);
    end_of(item_count(arena, consts, v))
}
