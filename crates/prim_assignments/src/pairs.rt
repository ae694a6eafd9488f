//! Pairs of dicts that are set.

ghost use Rattle.prim_operators.specs.mpy_base.World.{ADict, IsA};
ghost use Rattle.prim_operators.specs.arena_heap.Values.{Leads, IsKey};
ghost use Rattle.prim_operators.specs.py_primitives.Uses.{put_pair as put_pair_of};
ghost use Rattle.prim_operators.specs.prim_faults.Sights.{Tells, TellsAll, Does};

use prim_operators::{Arena, Constants, DictNo, Stop, Value, dict_set};

/// Sets the value of a key. A new key may ask for the next room.
pub(crate) fn put_pair<C: Constants>(
    arena: &mut Arena,
    consts: &C,
    d: DictNo,
    key: Value,
    v: Value,
) -> Result<Value, Stop>
    requires dict { IsA arena.old.objects ADict d.cell }
    requires key { IsKey key }
    requires key_leads { Leads arena.old.objects key }
    requires key_told { Tells C.Constants consts.now key }
    requires leads { Leads arena.old.objects v }
    requires told { Tells C.Constants consts.now v }
    requires all_told { TellsAll C.Constants consts.now arena.old }
    ensures { Does C.Constants consts.now arena.old arena.new result (λ heap see. put_pair_of heap d.cell (see.value key) (see.value v)) }
{
    arena.sound_law();
    arena.room_law();
    match dict_set(arena, consts, d, key, v) {
        Ok(()) => Ok(Value::None),
        Err(room) => Err(Stop::Full(room)),
    }
}
