//! Instructions on attributes of objects and of modules.

ghost use Rattle.std.specs.Prelude.{◌<◌, length, IsSome};
ghost use Rattle.frame_moves.specs.bc_ops.declared.instr.Op.TheVariants as ops;
ghost use Rattle.prim_names.specs.arena_objects.Iterables.{or_nothing};
ghost use Rattle.frame_moves.specs.vm_frames.Calls.{OfRunning};
ghost use Rattle.frame_moves.specs.bc_machine.Library.{Names};
ghost use Rattle.prim_names.specs.prim_faults.Sights.{under, TellsAll};
ghost use Rattle.frame_values.specs.Effects.{Steps, Leaves};
ghost use Rattle.frame_values.specs.Slots.{HasKnown, Puts, PutsLooked, Changes, with_value, without};

use crate::slots::{put, put_looked, take, value_at};
use arena_heap::{Arena, Constants, StrNo};
use frame_moves::Frames;
use prim_names::{import_from as imported_from, load_method as method_of, set_attr};
use prim_operators::{Stop, get_attr};

/// LOAD_ATTR.
pub fn load_attr<C: Constants>(
    frames: &mut Frames,
    arena: &mut Arena,
    consts: &C,
    name: StrNo,
    end: u32,
) -> Result<(), Stop>
    requires name { IsSome (C.text_of consts.now name) }
    requires object { under C.Constants consts.now HasKnown arena.old.objects 0 frames.old.calls }
    requires all_told { TellsAll C.Constants consts.now arena.old }
    ensures steps { under C.Constants consts.now Steps
        (Names ops.LoadAttr (or_nothing (C.text_of consts.now name))) 0 end arena.old arena.new frames.old.calls frames.new.calls result }
    ensures moved { under C.Constants consts.now Puts arena.new.objects (with_value end 1) frames.old frames.new result }
    ensures leaves { under C.Constants consts.now Leaves arena.old arena.new result }
{
    let object = value_at(frames, arena, consts, 0);
    let given = get_attr(arena, consts, object, name);
    put(frames, 1, given, end)
}

/// STORE_ATTR.
pub fn store_attr<C: Constants>(
    frames: &mut Frames,
    arena: &mut Arena,
    consts: &C,
    name: StrNo,
    end: u32,
) -> Result<(), Stop>
    requires name { IsSome (C.text_of consts.now name) }
    requires object { under C.Constants consts.now HasKnown arena.old.objects 0 frames.old.calls }
    requires value { under C.Constants consts.now HasKnown arena.old.objects 1 frames.old.calls }
    requires all_told { TellsAll C.Constants consts.now arena.old }
    ensures steps { under C.Constants consts.now Steps
        (Names ops.StoreAttr (or_nothing (C.text_of consts.now name))) 0 end arena.old arena.new frames.old.calls frames.new.calls result }
    ensures moved { Changes (without end 2) frames.old frames.new result }
    ensures leaves { under C.Constants consts.now Leaves arena.old arena.new result }
{
    let object = value_at(frames, arena, consts, 0);
    let v = value_at(frames, arena, consts, 1);
    let given = set_attr(arena, consts, object, name, v);
    take(frames, 2, given, end)
}

/// IMPORT_FROM.
pub fn import_from<C: Constants>(
    frames: &mut Frames,
    arena: &mut Arena,
    consts: &C,
    name: StrNo,
    end: u32,
) -> Result<(), Stop>
    requires room { OfRunning (λ c. length c.slots < frames.old.slot_room) frames.old.calls }
    requires name { IsSome (C.text_of consts.now name) }
    requires object { under C.Constants consts.now HasKnown arena.old.objects 0 frames.old.calls }
    requires all_told { TellsAll C.Constants consts.now arena.old }
    ensures steps { under C.Constants consts.now Steps
        (Names ops.ImportFrom (or_nothing (C.text_of consts.now name))) 0 end arena.old arena.new frames.old.calls frames.new.calls result }
    ensures moved { under C.Constants consts.now Puts arena.new.objects (with_value end 0) frames.old frames.new result }
    ensures leaves { under C.Constants consts.now Leaves arena.old arena.new result }
{
    let object = value_at(frames, arena, consts, 0);
    let given = imported_from(arena, consts, object, name);
    put(frames, 0, given, end)
}

/// LOAD_METHOD.
pub fn load_method<C: Constants>(
    frames: &mut Frames,
    arena: &Arena,
    consts: &C,
    name: StrNo,
    end: u32,
) -> Result<(), Stop>
    requires room { OfRunning (λ c. length c.slots < frames.old.slot_room) frames.old.calls }
    requires name { IsSome (C.text_of consts.now name) }
    requires object { under C.Constants consts.now HasKnown arena.now.objects 0 frames.old.calls }
    requires all_told { TellsAll C.Constants consts.now arena.now }
    ensures steps { under C.Constants consts.now Steps
        (Names ops.LoadMethod (or_nothing (C.text_of consts.now name))) 0 end arena.now arena.now frames.old.calls frames.new.calls result }
    ensures moved { under C.Constants consts.now PutsLooked arena.now.objects end frames.old frames.new result }
    ensures leaves { under C.Constants consts.now Leaves arena.now arena.now result }
{
    let object = value_at(frames, arena, consts, 0);
    let given = method_of(arena, consts, object, name);
    put_looked(frames, given, end)
}
