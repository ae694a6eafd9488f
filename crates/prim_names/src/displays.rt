//! Displays: lists and dicts that are made.

ghost use Rattle.std.specs.Prelude.{◌≡◌, ◌<◌, ◌≤◌, ◌^◌, [], length, map, All, Some, slice_get};
ghost use Rattle.mpy_base.specs.World.{DictObject, AList, IsA, items_at, room_at, with_list};
ghost use Rattle.mpy_base.specs.Weights.{room_for};
ghost use Rattle.prim_methods.specs.arena_heap.Values.{Leads};
ghost use Rattle.prim_raising.specs.py_effects.py_primitives.Outcome.{making, making_list};
ghost use Rattle.prim_methods.specs.prim_faults.Sights.{under, Does};
ghost use Rattle.prim_raising.specs.Worlds.{Stands};

use arena_heap::{Arena, Constants, ListNo, Value, put_in_list};
use prim_operators::Stop;

/// The item at a place.
fn item_at(items: &[Value], at: usize) -> Value
    requires { at < length items.now }
    ensures { slice_get items.now at ≡ Some result }
{
    items[at]
}

/// Puts items into an empty list with room for them.
fn fill(arena: &mut Arena, l: ListNo, items: &[Value])
    requires list { IsA arena.old.objects AList l.cell }
    requires few { length items.now < 2 ^ 32 }
    requires leads { All (Leads arena.old.objects) items.now }
    requires empty { length (items_at arena.old l.cell) ≡ 0 }
    requires room { length items.now ≤ room_at arena.old l.cell }
    ensures { arena.new ≡ with_list arena.old l.cell items.now }
{
    for at in 0..items.len() {
        let item = item_at(items, at);
        put_in_list(arena, l, at as u32, item);
    }
}

/// A new list of these items.
pub fn make_list<C: Constants>(
    arena: &mut Arena,
    _consts: &C,
    items: &[Value],
) -> Result<Value, Stop>
    requires few { length items.now < 2 ^ 32 }
    requires stands { under C.Constants _consts.now Stands arena.old items.now }
    ensures { Does C.Constants _consts.now arena.old arena.new result (λ heap see. making_list heap (map see.value items.now)) }
{
    match arena.make_list(items.len() as u64) {
        Ok(l) => {
            fill(arena, l, items);
            Ok(Value::List(l))
        }
        Err(room) => Err(Stop::Full(room)),
    }
}

/// A new dict, empty, with room for a number of pairs.
pub fn make_dict<C: Constants>(arena: &mut Arena, _consts: &C, pairs: u32) -> Result<Value, Stop>
    requires { under C.Constants _consts.now Stands arena.old [] }
    ensures { Does C.Constants _consts.now arena.old arena.new result (λ heap see. making heap (DictObject [] (room_for pairs))) }
{
    match arena.make_dict(pairs) {
        Ok(dict) => Ok(Value::Dict(dict)),
        Err(room) => Err(Stop::Full(room)),
    }
}
