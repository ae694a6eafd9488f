//! Raises at the running call's instruction.

ghost use Rattle.std.specs.Prelude.{◌≡◌, ◌<◌, length, All, Err};
ghost use Rattle.mpy_base.specs.Val.{PlainWorld};
ghost use Rattle.frame_moves.specs.bc_ops.declared.instr.Op.TheVariants as ops;
ghost use Rattle.frame_moves.specs.bc_ops.declared.instr.Instr.TheVariants as instrs;
ghost use Rattle.frame_moves.specs.arena_heap.declared.value.Value.{Value as Item};
ghost use Rattle.frame_moves.specs.bc_machine.Library.{Plain};
ghost use Rattle.frame_moves.specs.prim_faults.Sights.{under, TellsAll, Knows, KnowsAnswer};
ghost use Rattle.frame_moves.specs.vm_frames.declared.slot.Slot.TheVariants as slots;
ghost use Rattle.frame_moves.specs.vm_frames.Calls.{OfRunning};
ghost use Rattle.frame_moves.specs.vm_frames.Views.{View};
ghost use Rattle.frame_moves.specs.vm_frames.Placed.{IsPlaced};
ghost use Rattle.frame_moves.specs.Shown.{Tables, view_of, IsTop};
ghost use Rattle.frame_moves.specs.Outcomes.{world_of, stopping_of};
ghost use Rattle.frame_exits.specs.Names.{AreTablesOf, Forgets};
ghost use Rattle.frame_exits.specs.Ends.{place_of, with_modules, state_of, StepsTo};
ghost use Rattle.frame_exits.specs.Known.{KeepsException, Keeps};
ghost use Rattle.frame_exits.specs.Thrown.{HasThrown};

use crate::ends::End;
use crate::names::ModuleName;
use crate::throwing::fail;
use arena_heap::{Arena, Constants};
use frame_moves::{Frames, Place, Slot, moves_law, raise_value, stop_at};
use prim_modules::{Fault, Modules, Stop};

/// A stop at the running call's instruction: the exception of a fault, which gets the place, is thrown through the calls, or
/// want of room ends the run. It answers how the run ends, if it does; else the calls run. It goes through each call once,
/// and through the registered modules for each import that is left.
pub fn raise<C: Constants>(
    frames: &mut Frames,
    arena: &mut Arena,
    consts: &C,
    modules: &mut Modules,
    names: &[ModuleName],
    place: Place,
    stop: Stop,
) -> Option<End>
    requires running { 0 < length frames.old.calls }
    requires named { All (λ c. c.module_number < length names.now) frames.old.calls }
    requires stop { KnowsAnswer C.Constants consts.now arena.old (Err stop) }
    requires all_told { TellsAll C.Constants consts.now arena.old }
    ensures state { (tables : Tables) (w : PlainWorld) → under C.Constants consts.now AreTablesOf names.now tables
        → All (IsPlaced (view_of tables)) frames.old.calls
        → stopping_of tables (place_of tables place) (with_modules tables w modules.old) arena.old frames.old.calls stop
        ≡ state_of tables result frames.new.calls (world_of tables (with_modules tables w modules.new) arena.new) }
    ensures thrown { HasThrown arena.new.objects frames.old frames.new result }
    ensures placed { (view : View) → All (IsPlaced view) frames.old.calls → All (IsPlaced view) frames.new.calls }
    ensures keeps { under C.Constants consts.now Keeps (length names.now) arena.old.objects arena.new.objects frames.old.calls frames.new.calls }
    ensures forgets { Forgets modules.old modules.new }
{
    let failure = stop_at(arena, consts, place, stop);
    fail(frames, consts, modules, names, failure)
}

/// RAISE_OBJ at the place: a kind is raised as a new exception, and an exception gets the place. Any other value is a fault.
/// It answers as `raise` does.
pub fn raise_obj<C: Constants>(
    frames: &mut Frames,
    arena: &mut Arena,
    consts: &C,
    modules: &mut Modules,
    names: &[ModuleName],
    place: Place,
) -> Option<End>
    requires value { (v : Item) × IsTop (slots.Value v) frames.old.calls × Knows C.Constants consts.now arena.old v }
    requires named { All (λ c. c.module_number < length names.now) frames.old.calls }
    requires all_told { TellsAll C.Constants consts.now arena.old }
    ensures steps { (tables : Tables) (w : PlainWorld) → under C.Constants consts.now AreTablesOf names.now tables
        → All (IsPlaced (view_of tables)) frames.old.calls
        → StepsTo tables (place_of tables place) (world_of tables (with_modules tables w modules.old) arena.old)
        (Plain (instrs.Plain ops.RaiseObj)) frames.old.calls
        (state_of tables result frames.new.calls (world_of tables (with_modules tables w modules.new) arena.new)) }
    ensures thrown { HasThrown arena.new.objects frames.old frames.new result }
    ensures placed { (view : View) → All (IsPlaced view) frames.old.calls → All (IsPlaced view) frames.new.calls }
    ensures keeps { under C.Constants consts.now Keeps (length names.now) arena.old.objects arena.new.objects frames.old.calls frames.new.calls }
    ensures forgets { Forgets modules.old modules.new }
{
    let Slot::Value(v) = frames.slot(0) else {
        unreachable!();
    };
    let failure = raise_value(arena, consts, place, v);
    fail(frames, consts, modules, names, failure)
}

/// RAISE_LAST at the place: the exception that is handled innermost is thrown again, with the place that it has. Where none
/// is handled, that is a fault. It answers as `raise` does.
pub fn raise_last<C: Constants>(
    frames: &mut Frames,
    arena: &mut Arena,
    consts: &C,
    modules: &mut Modules,
    names: &[ModuleName],
    place: Place,
) -> Option<End>
    requires entries { OfRunning (λ c. All (KeepsException arena.old.objects) c.entries) frames.old.calls }
    requires named { All (λ c. c.module_number < length names.now) frames.old.calls }
    requires all_told { TellsAll C.Constants consts.now arena.old }
    ensures steps { (tables : Tables) (w : PlainWorld) → under C.Constants consts.now AreTablesOf names.now tables
        → All (IsPlaced (view_of tables)) frames.old.calls
        → StepsTo tables (place_of tables place) (world_of tables (with_modules tables w modules.old) arena.old)
        (Plain (instrs.Plain ops.RaiseLast)) frames.old.calls
        (state_of tables result frames.new.calls (world_of tables (with_modules tables w modules.new) arena.new)) }
    ensures thrown { HasThrown arena.new.objects frames.old frames.new result }
    ensures placed { (view : View) → All (IsPlaced view) frames.old.calls → All (IsPlaced view) frames.new.calls }
    ensures keeps { under C.Constants consts.now Keeps (length names.now) arena.old.objects arena.new.objects frames.old.calls frames.new.calls }
    ensures forgets { Forgets modules.old modules.new }
{
    moves_law();
    match frames.last_raised() {
        Some(x) => fail(frames, consts, modules, names, Ok(x)),
        None => {
            let stop = Stop::Raises(Fault::NothingToRaise);
            raise(frames, arena, consts, modules, names, place, stop)
        }
    }
}
