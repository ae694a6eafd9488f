//! Values of dicts by their keys.

ghost use Rattle.std.specs.Prelude.{map};
ghost use Rattle.prim_faults.specs.mpy_base.World.{ADict, IsA, pairs_at};
ghost use Rattle.prim_faults.specs.arena_heap.Values.{Leads};
ghost use Rattle.prim_faults.specs.py_primitives.Outcome.{gives};
ghost use Rattle.prim_faults.specs.py_primitives.Uses.{of_key};
ghost use Rattle.prim_faults.specs.Sights.{Tells, TellsAll, Does};

use prim_faults::{
    Arena, Constants, DictNo, Fault, SpecialMethod, Stop, Value, dict_get, is_key, type_of,
};

/// The value of a key.
pub(crate) fn get_key<C: Constants>(
    arena: &Arena,
    consts: &C,
    d: DictNo,
    key: Value,
) -> Result<Value, Stop>
    requires dict { IsA arena.now.objects ADict d.cell }
    requires leads { Leads arena.now.objects key }
    requires told { Tells C.Constants consts.now key }
    requires all_told { TellsAll C.Constants consts.now arena.now }
    ensures { Does C.Constants consts.now arena.now arena.now result
        (λ heap see. of_key heap (map see.pair (pairs_at arena.now d.cell)) (see.value key) (λ found. gives found heap)) }
{
    if !is_key(arena, key) {
        return Err(Stop::Raises(Fault::UnsupportedOne {
            method: SpecialMethod::Hash,
            operand: type_of(arena, key),
        }));
    }
    arena.sound_law();
    match dict_get(arena, consts, d, key) {
        Some(v) => Ok(v),
        None => Err(Stop::Raises(Fault::NoKey(key))),
    }
}
