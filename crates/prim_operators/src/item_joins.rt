//! Tuples and lists that are joined and repeated.

ghost use Rattle.std.specs.Prelude.{◌≡◌, ◌≤◌, length, map};
ghost use Rattle.prim_faults.specs.mpy_base.World.{AList, ATuple, IsA, Later, items_at, room_at, with_list, with_tuple};
ghost use Rattle.prim_faults.specs.py_primitives.Outcome.{making_tuple, making_list};
ghost use Rattle.prim_faults.specs.Sights.{under, TellsAll, Does};
ghost use Rattle.prim_operators.specs.Sources.{source_items, AreKnown, AreElsewhere};

use crate::sources::{Source, items_len, source_item};
use prim_faults::{Arena, Constants, ListNo, Stop, TupleNo, Value, put_in_list, tuple_fill};

/// Fills a tuple with the items of values.
fn fill_tuple<C: Constants>(arena: &mut Arena, consts: &C, t: TupleNo, count: u32, source: Source)
    requires tuple { IsA arena.old.objects ATuple t.cell }
    requires known { under C.Constants consts.now AreKnown arena.old.objects source }
    requires all_told { TellsAll C.Constants consts.now arena.old }
    requires apart { AreElsewhere t.cell source }
    requires items { length (source_items (C.items_of consts.now) arena.old source) ≡ count }
    requires room { length (items_at arena.old t.cell) ≡ count }
    ensures filled { arena.new ≡ with_tuple arena.old t.cell (source_items (C.items_of consts.now) arena.old source) }
    ensures later { Later arena.old.objects arena.new.objects }
    ensures all_told { TellsAll C.Constants consts.now arena.new }
{
    for at in 0..count {
        let v = source_item(arena, consts, source, at);
        tuple_fill(arena, t, at, v);
    }
}

/// A tuple of the items of values. The empty one takes no room.
pub(crate) fn make_joined_tuple<C: Constants>(
    arena: &mut Arena,
    consts: &C,
    source: Source,
) -> Result<Value, Stop>
    requires known { under C.Constants consts.now AreKnown arena.old.objects source }
    requires all_told { TellsAll C.Constants consts.now arena.old }
    ensures { Does C.Constants consts.now arena.old arena.new result
        (λ heap see. making_tuple heap (map see.value (source_items see.tuples arena.old source))) }
{
    let len = items_len(arena, consts, source);
    if len == 0 {
        return Ok(Value::Empty);
    }
    let before = arena.used().cells;
    match arena.make_tuple(len) {
        Ok(t) => {
            let count = arena.used().cells - before - 1;
            fill_tuple(arena, consts, t, count, source);
            Ok(Value::Tuple(t))
        }
        Err(room) => Err(Stop::Full(room)),
    }
}

/// Puts the items of values into an empty list with room for them.
fn fill_list<C: Constants>(arena: &mut Arena, consts: &C, l: ListNo, count: u32, source: Source)
    requires list { IsA arena.old.objects AList l.cell }
    requires known { under C.Constants consts.now AreKnown arena.old.objects source }
    requires all_told { TellsAll C.Constants consts.now arena.old }
    requires apart { AreElsewhere l.cell source }
    requires items { length (source_items (C.items_of consts.now) arena.old source) ≡ count }
    requires empty { length (items_at arena.old l.cell) ≡ 0 }
    requires room { count ≤ room_at arena.old l.cell }
    ensures filled { arena.new ≡ with_list arena.old l.cell (source_items (C.items_of consts.now) arena.old source) }
    ensures later { Later arena.old.objects arena.new.objects }
    ensures all_told { TellsAll C.Constants consts.now arena.new }
{
    for at in 0..count {
        let v = source_item(arena, consts, source, at);
        put_in_list(arena, l, at, v);
    }
}

/// A list of the items of values.
pub(crate) fn make_joined_list<C: Constants>(
    arena: &mut Arena,
    consts: &C,
    source: Source,
) -> Result<Value, Stop>
    requires known { under C.Constants consts.now AreKnown arena.old.objects source }
    requires all_told { TellsAll C.Constants consts.now arena.old }
    ensures { Does C.Constants consts.now arena.old arena.new result (λ heap see. making_list heap (map see.value (source_items see.tuples arena.old source))) }
{
    let len = items_len(arena, consts, source);
    match arena.make_list(len) {
        Ok(l) => {
            let count = len.min(arena.used().cells as u64) as u32;
            fill_list(arena, consts, l, count, source);
            Ok(Value::List(l))
        }
        Err(room) => Err(Stop::Full(room)),
    }
}
