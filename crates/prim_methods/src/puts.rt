//! Values that are put into lists.

ghost use Rattle.std.specs.Prelude.{◌≤◌, insert, length, map};
ghost use Rattle.mpy_base.specs.World.{AList, IsA, items_at};
ghost use Rattle.prim_assignments.specs.arena_heap.Values.{Leads};
ghost use Rattle.prim_builtins.specs.py_primitives.Methods.{put_items};
ghost use Rattle.prim_assignments.specs.prim_faults.Sights.{Tells, TellsAll, Does};

use arena_heap::{Arena, Constants, ListNo, Value, list_insert};
use prim_builtins::Stop;

/// Puts a value in front of a place of a list, or behind all items.
pub(crate) fn put_item<C: Constants>(
    arena: &mut Arena,
    _consts: &C,
    l: ListNo,
    at: u32,
    v: Value,
) -> Result<Value, Stop>
    requires list { IsA arena.old.objects AList l.cell }
    requires leads { Leads arena.old.objects v }
    requires told { Tells C.Constants _consts.now v }
    requires all_told { TellsAll C.Constants _consts.now arena.old }
    requires within { at ≤ length (items_at arena.old l.cell) }
    ensures { Does C.Constants _consts.now arena.old arena.new result
        (λ heap see. put_items heap l.cell (insert (map see.value (items_at arena.old l.cell)) at (see.value v))) }
{
    match list_insert(arena, l, at, v) {
        Ok(()) => Ok(Value::None),
        Err(room) => Err(Stop::Full(room)),
    }
}
