//! Displays, and sequences that are unpacked. Values are on their way in memory that the caller lends.

ghost use Rattle.std.specs.Prelude.{◌≡◌, ℕ, ◌+◌, ◌^◌, ◌<◌, ◌≤◌, length, suc};
ghost use Rattle.frame_moves.specs.bc_ops.declared.instr.Op.TheVariants as ops;
ghost use Rattle.frame_moves.specs.bc_ops.declared.instr.Instr.TheVariants as instrs;
ghost use Rattle.frame_moves.specs.vm_frames.Calls.{OfRunning};
ghost use Rattle.frame_moves.specs.bc_machine.Library.{Plain};
ghost use Rattle.prim_names.specs.prim_faults.Sights.{under, TellsAll};
ghost use Rattle.frame_values.specs.Effects.{Steps, Leaves};
ghost use Rattle.frame_values.specs.Slots.{HasKnown, Puts, PutsValues, with_value, with_values};
ghost use Rattle.frame_values.specs.Settled.{Settles};

use crate::slots::{put, value_at};
use crate::values::{gather, put_values};
use arena_heap::{Arena, Constants, Value};
use frame_moves::Frames;
use prim_names::{make_dict, make_list, make_tuple, unpack};
use prim_operators::Stop;

/// BUILD_TUPLE, of as many items as the caller lends values for.
pub fn build_tuple<C: Constants>(
    frames: &mut Frames,
    arena: &mut Arena,
    consts: &C,
    items: &mut [Value],
    end: u32,
) -> Result<(), Stop>
    requires few { length items.old < 2 ^ 32 }
    requires known { (slot : ℕ) → slot < length items.old → under C.Constants consts.now HasKnown arena.old.objects slot frames.old.calls }
    requires room { length items.old ≡ 0 → OfRunning (λ c. length c.slots < frames.old.slot_room) frames.old.calls }
    requires all_told { TellsAll C.Constants consts.now arena.old }
    ensures steps { under C.Constants consts.now Steps
        (Plain (instrs.Num ops.BuildTuple (length items.old))) 0 end arena.old arena.new frames.old.calls frames.new.calls result }
    ensures moved { under C.Constants consts.now Puts arena.new.objects (with_value end (length items.old)) frames.old frames.new result }
    ensures leaves { under C.Constants consts.now Leaves arena.old arena.new result }
{
    gather(frames, arena, consts, items);
    let given = make_tuple(arena, consts, items);
    put(frames, items.len() as u32, given, end)
}

/// BUILD_LIST, of as many items as the caller lends values for.
pub fn build_list<C: Constants>(
    frames: &mut Frames,
    arena: &mut Arena,
    consts: &C,
    items: &mut [Value],
    end: u32,
) -> Result<(), Stop>
    requires few { length items.old < 2 ^ 32 }
    requires known { (slot : ℕ) → slot < length items.old → under C.Constants consts.now HasKnown arena.old.objects slot frames.old.calls }
    requires room { length items.old ≡ 0 → OfRunning (λ c. length c.slots < frames.old.slot_room) frames.old.calls }
    requires all_told { TellsAll C.Constants consts.now arena.old }
    ensures steps { under C.Constants consts.now Steps
        (Plain (instrs.Num ops.BuildList (length items.old))) 0 end arena.old arena.new frames.old.calls frames.new.calls result }
    ensures moved { under C.Constants consts.now Puts arena.new.objects (with_value end (length items.old)) frames.old frames.new result }
    ensures leaves { under C.Constants consts.now Leaves arena.old arena.new result }
{
    gather(frames, arena, consts, items);
    let given = make_list(arena, consts, items);
    put(frames, items.len() as u32, given, end)
}

/// BUILD_MAP, with room for a number of pairs.
pub fn build_map<C: Constants>(
    frames: &mut Frames,
    arena: &mut Arena,
    consts: &C,
    pairs: u32,
    end: u32,
) -> Result<(), Stop>
    requires room { OfRunning (λ c. length c.slots < frames.old.slot_room) frames.old.calls }
    requires all_told { TellsAll C.Constants consts.now arena.old }
    ensures steps { under C.Constants consts.now Steps
        (Plain (instrs.Num ops.BuildMap pairs)) 0 end arena.old arena.new frames.old.calls frames.new.calls result }
    ensures moved { under C.Constants consts.now Puts arena.new.objects (with_value end 0) frames.old frames.new result }
    ensures leaves { under C.Constants consts.now Leaves arena.old arena.new result }
{
    let given = make_dict(arena, consts, pairs);
    put(frames, 0, given, end)
}

/// The running call goes on at the end with the values in the place of the top slot. Where a stop is given, the calls stay.
fn put_unpacked(
    frames: &mut Frames,
    values: &[Value],
    given: Result<(), Stop>,
    end: u32,
) -> Result<(), Stop>
    requires there { OfRunning (λ c. 0 < length c.slots) frames.old.calls }
    requires room { OfRunning (λ c. length c.slots + length values.now ≤ suc frames.old.slot_room) frames.old.calls }
    ensures { Settles (λ done. with_values end values.now) given frames.old frames.new result }
{
    match given {
        Ok(()) => {
            put_values(frames, values, end);
            Ok(())
        }
        Err(stop) => Err(stop),
    }
}

/// UNPACK_SEQUENCE, into as many values as the caller lends room for.
pub fn unpack_sequence<C: Constants>(
    frames: &mut Frames,
    arena: &mut Arena,
    consts: &C,
    items: &mut [Value],
    end: u32,
) -> Result<(), Stop>
    requires sequence { under C.Constants consts.now HasKnown arena.old.objects 0 frames.old.calls }
    requires room { OfRunning (λ c. length c.slots + length items.old ≤ suc frames.old.slot_room) frames.old.calls }
    requires all_told { TellsAll C.Constants consts.now arena.old }
    ensures steps { under C.Constants consts.now Steps
        (Plain (instrs.Num ops.UnpackSequence (length items.old))) 0 end arena.old arena.new frames.old.calls frames.new.calls result }
    ensures moved { under C.Constants consts.now PutsValues arena.new.objects end (length items.old) frames.old frames.new result }
    ensures leaves { under C.Constants consts.now Leaves arena.old arena.new result }
{
    let v = value_at(frames, arena, consts, 0);
    let given = unpack(arena, consts, v, items);
    put_unpacked(frames, items, given, end)
}
