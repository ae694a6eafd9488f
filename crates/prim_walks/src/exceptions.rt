//! The parts of exceptions that their texts show.

ghost use Rattle.std.specs.Prelude.{◌≡◌, map};
ghost use Rattle.py_primitives.specs.mpy_base.World.{AnException, IsA, object};
ghost use Rattle.arena_objects.specs.arena_heap.Values.{Leads};
ghost use Rattle.arena_objects.specs.arena_heap.Constants.{IsTold};
ghost use Rattle.arena_objects.specs.Keys.{AllTold};
ghost use Rattle.arena_objects.specs.Iterables.{items_in};
ghost use Rattle.py_primitives.specs.Texts.{items_of_tuple};
ghost use Rattle.py_primitives.specs.py_values.Shown.{shown};
ghost use Rattle.prim_walks.specs.Plain.{plain, plain_heap};
ghost use Rattle.prim_walks.specs.Leaves.{IsRaised};

use crate::look::look_at;
use arena_objects::{Arena, Constants, ExcNo, Value, exc_parts};
use py_primitives::Kind;

/// The kind of an exception and its arguments.
pub(crate) fn exception_parts<C: Constants>(arena: &Arena, consts: &C, e: ExcNo) -> (Kind, Value)
    requires exception { IsA arena.now.objects AnException e.cell }
    requires all_told { AllTold (C.text_of consts.now) (C.items_of consts.now) arena.now.objects }
    ensures parts { IsRaised (object arena.now.objects e.cell) result.0 result.1 }
    ensures leads { Leads arena.now.objects result.1 }
    ensures told { IsTold (C.text_of consts.now) (C.items_of consts.now) result.1 }
    ensures items { items_of_tuple
        (shown (plain_heap (C.text_of consts.now) (C.items_of consts.now) arena.now)
        (plain (C.text_of consts.now) (C.items_of consts.now) result.1))
        ≡ map (plain (C.text_of consts.now) (C.items_of consts.now)) (items_in (C.items_of consts.now) arena.now result.1) }
{
    let (kind, args, _, _, _) = exc_parts(arena, e);
    let _ = look_at(arena, consts, args);
    (kind, args)
}
