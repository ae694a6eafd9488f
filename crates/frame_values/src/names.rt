//! Instructions on the names of the running call's module.

ghost use Rattle.std.specs.Prelude.{◌<◌, length, IsSome};
ghost use Rattle.frame_moves.specs.mpy_base.World.{ADict, IsA};
ghost use Rattle.frame_moves.specs.bc_ops.declared.instr.Op.TheVariants as ops;
ghost use Rattle.prim_names.specs.arena_objects.Iterables.{or_nothing};
ghost use Rattle.frame_moves.specs.vm_frames.Calls.{OfRunning};
ghost use Rattle.frame_moves.specs.bc_machine.Library.{Names};
ghost use Rattle.prim_names.specs.prim_faults.Sights.{under, TellsAll};
ghost use Rattle.frame_values.specs.Effects.{Steps, Leaves};
ghost use Rattle.frame_values.specs.Slots.{HasKnown, Puts, Changes, with_value, without};

use crate::slots::{put, take, value_at};
use arena_heap::{Arena, Constants, StrNo};
use frame_moves::Frames;
use prim_names::{delete_global, load_global, store_global};
use prim_operators::Stop;

/// LOAD_NAME and LOAD_GLOBAL.
#[inline(always)]
pub fn load_name<C: Constants>(
    frames: &mut Frames,
    arena: &Arena,
    consts: &C,
    name: StrNo,
    end: u32,
) -> Result<(), Stop>
    requires room { OfRunning (λ c. length c.slots < frames.old.slot_room) frames.old.calls }
    requires names { OfRunning (λ c. IsA arena.now.objects ADict c.names.cell) frames.old.calls }
    requires name { IsSome (C.text_of consts.now name) }
    requires all_told { TellsAll C.Constants consts.now arena.now }
    ensures name { under C.Constants consts.now Steps
        (Names ops.LoadName (or_nothing (C.text_of consts.now name))) 0 end arena.now arena.now frames.old.calls frames.new.calls result }
    ensures global { under C.Constants consts.now Steps
        (Names ops.LoadGlobal (or_nothing (C.text_of consts.now name))) 0 end arena.now arena.now frames.old.calls frames.new.calls result }
    ensures moved { under C.Constants consts.now Puts arena.now.objects (with_value end 0) frames.old frames.new result }
    ensures leaves { under C.Constants consts.now Leaves arena.now arena.now result }
{
    let (_, _, names) = frames.running();
    let given = load_global(arena, consts, names, name);
    put(frames, 0, given, end)
}

/// STORE_NAME and STORE_GLOBAL.
pub fn store_name<C: Constants>(
    frames: &mut Frames,
    arena: &mut Arena,
    consts: &C,
    name: StrNo,
    end: u32,
) -> Result<(), Stop>
    requires names { OfRunning (λ c. IsA arena.old.objects ADict c.names.cell) frames.old.calls }
    requires name { IsSome (C.text_of consts.now name) }
    requires value { under C.Constants consts.now HasKnown arena.old.objects 0 frames.old.calls }
    requires all_told { TellsAll C.Constants consts.now arena.old }
    ensures name { under C.Constants consts.now Steps
        (Names ops.StoreName (or_nothing (C.text_of consts.now name))) 0 end arena.old arena.new frames.old.calls frames.new.calls result }
    ensures global { under C.Constants consts.now Steps
        (Names ops.StoreGlobal (or_nothing (C.text_of consts.now name))) 0 end arena.old arena.new frames.old.calls frames.new.calls result }
    ensures moved { Changes (without end 1) frames.old frames.new result }
    ensures leaves { under C.Constants consts.now Leaves arena.old arena.new result }
{
    let (_, _, names) = frames.running();
    let v = value_at(frames, arena, consts, 0);
    let given = store_global(arena, consts, names, name, v);
    take(frames, 1, given, end)
}

/// DELETE_NAME and DELETE_GLOBAL.
pub fn delete_name<C: Constants>(
    frames: &mut Frames,
    arena: &mut Arena,
    consts: &C,
    name: StrNo,
    end: u32,
) -> Result<(), Stop>
    requires names { OfRunning (λ c. IsA arena.old.objects ADict c.names.cell) frames.old.calls }
    requires name { IsSome (C.text_of consts.now name) }
    requires all_told { TellsAll C.Constants consts.now arena.old }
    ensures name { under C.Constants consts.now Steps
        (Names ops.DeleteName (or_nothing (C.text_of consts.now name))) 0 end arena.old arena.new frames.old.calls frames.new.calls result }
    ensures global { under C.Constants consts.now Steps
        (Names ops.DeleteGlobal (or_nothing (C.text_of consts.now name))) 0 end arena.old arena.new frames.old.calls frames.new.calls
        result }
    ensures moved { Changes (without end 0) frames.old frames.new result }
    ensures leaves { under C.Constants consts.now Leaves arena.old arena.new result }
{
    let (_, _, names) = frames.running();
    let given = delete_global(arena, consts, names, name);
    take(frames, 0, given, end)
}
