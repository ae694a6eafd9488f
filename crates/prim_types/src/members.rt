//! The members of a value: the items of a tuple, and else the value itself.

ghost use Rattle.std.specs.Prelude.{◌≡◌, ◌<◌, length, slice_get, Some};
ghost use Rattle.prim_builtins.specs.arena_heap.Values.{Leads};
ghost use Rattle.prim_builtins.specs.arena_heap.Constants.{IsTold};
ghost use Rattle.prim_builtins.specs.arena_objects.Keys.{AllTold};
ghost use Rattle.prim_types.specs.Members.{members_in};

use prim_operators::{Arena, Constants, Value, item_at, item_count};

/// How many members a value has.
pub(crate) fn member_count<C: Constants>(arena: &Arena, consts: &C, v: Value) -> u32
    requires leads { Leads arena.now.objects v }
    requires told { IsTold (C.text_of consts.now) (C.items_of consts.now) v }
    ensures { result ≡ length (members_in (C.items_of consts.now) arena.now v) }
{
    match v {
        Value::Fixed(_) | Value::Empty | Value::Tuple(_) => item_count(arena, consts, v),
        _ => 1,
    }
}

/// The member of a value at a place.
pub(crate) fn member_at<C: Constants>(arena: &Arena, consts: &C, v: Value, at: u32) -> Value
    requires leads { Leads arena.now.objects v }
    requires told { IsTold (C.text_of consts.now) (C.items_of consts.now) v }
    requires all_told { AllTold (C.text_of consts.now) (C.items_of consts.now) arena.now.objects }
    requires within { at < length (members_in (C.items_of consts.now) arena.now v) }
    ensures member { slice_get (members_in (C.items_of consts.now) arena.now v) at ≡ Some result }
    ensures leads { Leads arena.now.objects result }
    ensures told { IsTold (C.text_of consts.now) (C.items_of consts.now) result }
{
    match v {
        Value::Fixed(_) | Value::Empty | Value::Tuple(_) => item_at(arena, consts, v, at),
        _ => v,
    }
}
