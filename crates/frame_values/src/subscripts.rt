//! Items of values, by index or key.

ghost use Rattle.frame_moves.specs.bc_ops.declared.instr.Op.TheVariants as ops;
ghost use Rattle.frame_moves.specs.bc_ops.declared.instr.Instr.TheVariants as instrs;
ghost use Rattle.frame_moves.specs.bc_machine.Library.{Plain};
ghost use Rattle.prim_names.specs.prim_faults.Sights.{under, TellsAll};
ghost use Rattle.frame_values.specs.Effects.{Steps, Leaves};
ghost use Rattle.frame_values.specs.Slots.{HasKnown, HasNull, Puts, Changes, with_value, without};

use crate::slots::{put, take, value_at};
use arena_heap::{Arena, Constants};
use frame_moves::Frames;
use prim_names::{set_item, store_pair};
use prim_operators::{Stop, delete_item, get_item};

/// LOAD_SUBSCR.
pub fn load_subscr<C: Constants>(
    frames: &mut Frames,
    arena: &mut Arena,
    consts: &C,
    end: u32,
) -> Result<(), Stop>
    requires index { under C.Constants consts.now HasKnown arena.old.objects 0 frames.old.calls }
    requires object { under C.Constants consts.now HasKnown arena.old.objects 1 frames.old.calls }
    requires all_told { TellsAll C.Constants consts.now arena.old }
    ensures steps { under C.Constants consts.now Steps
        (Plain (instrs.Plain ops.LoadSubscr)) 0 end arena.old arena.new frames.old.calls frames.new.calls result }
    ensures moved { under C.Constants consts.now Puts arena.new.objects (with_value end 2) frames.old frames.new result }
    ensures leaves { under C.Constants consts.now Leaves arena.old arena.new result }
{
    let index = value_at(frames, arena, consts, 0);
    let object = value_at(frames, arena, consts, 1);
    let given = get_item(arena, consts, object, index);
    put(frames, 2, given, end)
}

/// STORE_SUBSCR, where an item is set.
pub fn store_subscr<C: Constants>(
    frames: &mut Frames,
    arena: &mut Arena,
    consts: &C,
    end: u32,
) -> Result<(), Stop>
    requires index { under C.Constants consts.now HasKnown arena.old.objects 0 frames.old.calls }
    requires object { under C.Constants consts.now HasKnown arena.old.objects 1 frames.old.calls }
    requires value { under C.Constants consts.now HasKnown arena.old.objects 2 frames.old.calls }
    requires all_told { TellsAll C.Constants consts.now arena.old }
    ensures steps { under C.Constants consts.now Steps
        (Plain (instrs.Plain ops.StoreSubscr)) 0 end arena.old arena.new frames.old.calls frames.new.calls result }
    ensures moved { Changes (without end 3) frames.old frames.new result }
    ensures leaves { under C.Constants consts.now Leaves arena.old arena.new result }
{
    let index = value_at(frames, arena, consts, 0);
    let object = value_at(frames, arena, consts, 1);
    let v = value_at(frames, arena, consts, 2);
    let given = set_item(arena, consts, object, index, v);
    take(frames, 3, given, end)
}

/// STORE_SUBSCR, where an item is deleted: no value lies below the object.
pub fn delete_subscr<C: Constants>(
    frames: &mut Frames,
    arena: &mut Arena,
    consts: &C,
    end: u32,
) -> Result<(), Stop>
    requires index { under C.Constants consts.now HasKnown arena.old.objects 0 frames.old.calls }
    requires object { under C.Constants consts.now HasKnown arena.old.objects 1 frames.old.calls }
    requires no_value { HasNull 2 frames.old.calls }
    requires all_told { TellsAll C.Constants consts.now arena.old }
    ensures steps { under C.Constants consts.now Steps
        (Plain (instrs.Plain ops.StoreSubscr)) 0 end arena.old arena.new frames.old.calls frames.new.calls result }
    ensures moved { Changes (without end 3) frames.old frames.new result }
    ensures leaves { under C.Constants consts.now Leaves arena.old arena.new result }
{
    let index = value_at(frames, arena, consts, 0);
    let object = value_at(frames, arena, consts, 1);
    let given = delete_item(arena, consts, object, index);
    take(frames, 3, given, end)
}

/// STORE_MAP. The dict that is made stays.
pub fn store_map<C: Constants>(
    frames: &mut Frames,
    arena: &mut Arena,
    consts: &C,
    end: u32,
) -> Result<(), Stop>
    requires key { under C.Constants consts.now HasKnown arena.old.objects 0 frames.old.calls }
    requires value { under C.Constants consts.now HasKnown arena.old.objects 1 frames.old.calls }
    requires dict { under C.Constants consts.now HasKnown arena.old.objects 2 frames.old.calls }
    requires all_told { TellsAll C.Constants consts.now arena.old }
    ensures steps { under C.Constants consts.now Steps (Plain (instrs.Plain ops.StoreMap)) 0 end arena.old arena.new frames.old.calls frames.new.calls result }
    ensures moved { Changes (without end 2) frames.old frames.new result }
    ensures leaves { under C.Constants consts.now Leaves arena.old arena.new result }
{
    let key = value_at(frames, arena, consts, 0);
    let v = value_at(frames, arena, consts, 1);
    let dict = value_at(frames, arena, consts, 2);
    let given = store_pair(arena, consts, dict, key, v);
    take(frames, 2, given, end)
}
