//! Calls on tuples that were made: length and items by place. A tuple's items are set while it is made, and stay.

ghost use Rattle.std.specs.Prelude.{◌≡◌, ◌<◌, length, IfSome, slice_get, slice_set};
ghost use Rattle.qstr_pool.specs.mpy_base.World.{ATuple, IsA, Later, items_at, with_tuple};
ghost use Rattle.arena_heap.specs.Values.{Leads};

use crate::arena::Arena;
use crate::cells::Cell;
use crate::heads::tuple_count;
use crate::value::{TupleNo, Value};

/// How many items a tuple has.
pub fn tuple_len(arena: &Arena, t: TupleNo) -> u32
    requires { IsA arena.now.objects ATuple t.cell }
    ensures { result ≡ length (items_at arena.now t.cell) }
{
    tuple_count(&arena.cells, t.cell)
}

/// The item at a place.
pub fn tuple_at(arena: &Arena, t: TupleNo, at: u32) -> Option<Value>
    requires { IsA arena.now.objects ATuple t.cell }
    ensures item { result ≡ slice_get (items_at arena.now t.cell) at }
    ensures leads { IfSome result (Leads arena.now.objects) }
{
    let count = tuple_count(&arena.cells, t.cell);
    if at < count {
        let v = arena.cells[(t.cell + 1 + at) as usize].value();
        Some(v)
    } else {
        None
    }
}

/// Sets a place of a tuple that is being made.
pub fn tuple_fill(arena: &mut Arena, t: TupleNo, at: u32, v: Value)
    requires tuple { IsA arena.old.objects ATuple t.cell }
    requires leads { Leads arena.old.objects v }
    requires within { at < length (items_at arena.old t.cell) }
    ensures filled { arena.new ≡ with_tuple arena.old t.cell (slice_set (items_at arena.old t.cell) at v) }
    ensures later { Later arena.old.objects arena.new.objects }
{
    arena.cells[(t.cell + 1 + at) as usize] = Cell::of(v);
}
