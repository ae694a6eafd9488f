//! The pairs of dicts.

ghost use Rattle.std.specs.Prelude.{◌≡◌, ◌<◌, length, Some, slice_get};
ghost use Rattle.py_primitives.specs.mpy_base.World.{ADict, IsA, pairs_at};
ghost use Rattle.arena_objects.specs.arena_heap.Values.{Leads, IsKey};
ghost use Rattle.arena_objects.specs.arena_heap.Constants.{IsTold};
ghost use Rattle.arena_objects.specs.Keys.{AllTold};

use arena_objects::{Arena, Constants, DictNo, Value, dict_at};

/// The pair of a dict at a place.
pub(crate) fn pair_at<C: Constants>(arena: &Arena, consts: &C, d: DictNo, at: u32) -> (Value, Value)
    requires dict { IsA arena.now.objects ADict d.cell }
    requires all_told { AllTold (C.text_of consts.now) (C.items_of consts.now) arena.now.objects }
    requires within { at < length (pairs_at arena.now d.cell) }
    ensures pair { slice_get (pairs_at arena.now d.cell) at ≡ Some result }
    ensures key { IsKey result.0 }
    ensures key_leads { Leads arena.now.objects result.0 }
    ensures leads { Leads arena.now.objects result.1 }
    ensures key_told { IsTold (C.text_of consts.now) (C.items_of consts.now) result.0 }
    ensures told { IsTold (C.text_of consts.now) (C.items_of consts.now) result.1 }
{
    dict_at(arena, d, at).unwrap()
}
