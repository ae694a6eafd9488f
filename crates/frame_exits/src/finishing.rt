//! The ends of finallys.

ghost use Rattle.std.specs.Prelude.{◌≡◌, ℕ, ◌<◌, length, All};
ghost use Rattle.mpy_base.specs.World.{Objects, AnException, IsA, Later};
ghost use Rattle.mpy_base.specs.Val.{PlainWorld};
ghost use Rattle.frame_moves.specs.bc_ops.declared.instr.Op.TheVariants as ops;
ghost use Rattle.frame_moves.specs.bc_ops.declared.instr.Instr.TheVariants as instrs;
ghost use Rattle.frame_moves.specs.arena_heap.declared.value.Value.{Value as Item};
ghost use Rattle.frame_moves.specs.py_effects.Effect.{Place};
ghost use Rattle.frame_moves.specs.py_effects.Heaps.{Registered};
ghost use Rattle.frame_moves.specs.bc_machine.Library.{Plain};
ghost use Rattle.frame_moves.specs.prim_walks.Plain.{plain_heap};
ghost use Rattle.frame_moves.specs.prim_faults.Sights.{under, TellsAll};
ghost use Rattle.prim_modules.specs.Registry.{plain_modules};
ghost use Rattle.frame_moves.specs.vm_frames.Calls.{OfRunning, change_first};
ghost use Rattle.frame_moves.specs.vm_frames.Views.{View};
ghost use Rattle.frame_moves.specs.vm_frames.Placed.{IsPlaced};
ghost use Rattle.frame_moves.specs.Shown.{Tables, view_of, IsNext, IsTop};
ghost use Rattle.frame_moves.specs.Outcomes.{world_of};
ghost use Rattle.frame_exits.specs.declared.causes.Cause.{Cause as Kept};
ghost use Rattle.frame_exits.specs.Names.{AreTablesOf, Forgets};
ghost use Rattle.frame_exits.specs.Ends.{with_modules, StepsTo};
ghost use Rattle.frame_exits.specs.Known.{HasModule, IsKnownSlot, IsKnownCall, IsKnownAfter, Keeps};
ghost use Rattle.frame_exits.specs.Left.{HasLast, after_of};
ghost use Rattle.frame_exits.specs.Thrown.{throwing_of, thrown};
ghost use Rattle.frame_exits.specs.Causes.{cause_slot, FitsEntries, GoesOn, unkept, resumed, resuming_of};

use crate::causes::{Cause, cause_of};
use crate::ends::After;
use crate::names::ModuleName;
use crate::returning::leave;
use crate::throwing::fail;
use arena_heap::{Arena, Constants, ExcNo};
use frame_moves::{Frames, Slot, moves_law, placed_law};
use prim_modules::Modules;

/// Throws the exception on at the end of a finally.
fn throw_on<C: Constants>(
    frames: &mut Frames,
    consts: &C,
    modules: &mut Modules,
    names: &[ModuleName],
    x: ExcNo,
) -> After
    requires running { 0 < length frames.old.calls }
    requires named { All (λ c. c.module_number < length names.now) frames.old.calls }
    ensures state { (tables : Tables) (w : PlainWorld) → under C.Constants consts.now AreTablesOf names.now tables
        → All (IsPlaced (view_of tables)) frames.old.calls
        → throwing_of tables x frames.old.calls (with_modules tables w modules.old)
        ≡ after_of tables result frames.new.calls (with_modules tables w modules.new) }
    ensures calls { frames.new ≡ record frames.old { calls = thrown x frames.old.calls } }
    ensures placed { (view : View) → All (IsPlaced view) frames.old.calls → All (IsPlaced view) frames.new.calls }
    ensures after { (objects : Objects Item ℕ) → IsA objects AnException x.cell → under C.Constants consts.now IsKnownAfter objects result }
    ensures forgets { Forgets modules.old modules.new }
{
    match fail(frames, consts, modules, names, Ok(x)) {
        Some(end) => After::Ends(end),
        None => After::Runs,
    }
}

/// Goes on with a cause in the running call, at `end` if there is none.
fn resume<C: Constants>(
    frames: &mut Frames,
    arena: &mut Arena,
    consts: &C,
    modules: &mut Modules,
    names: &[ModuleName],
    cause: Cause,
    end: u32,
) -> After
    requires fits { OfRunning (FitsEntries cause) frames.old.calls }
    requires named { All (λ c. c.module_number < length names.now) frames.old.calls }
    requires role { OfRunning (λ c. HasModule arena.old.objects c.role) frames.old.calls }
    requires last { All (under C.Constants consts.now HasLast) names.now }
    requires registered { Registered (under C.Constants consts.now plain_modules modules.old) (under C.Constants consts.now plain_heap arena.old) }
    requires all_told { TellsAll C.Constants consts.now arena.old }
    ensures state { (tables : Tables) (w : PlainWorld) → under C.Constants consts.now AreTablesOf names.now tables
        → IsNext tables end frames.old.calls → All (IsPlaced (view_of tables)) frames.old.calls
        → resuming_of tables cause frames.old.calls (world_of tables (with_modules tables w modules.old) arena.old)
        ≡ after_of tables result frames.new.calls (world_of tables (with_modules tables w modules.new) arena.new) }
    ensures calls { frames.new ≡ record frames.old { calls = resumed cause end frames.old.calls } }
    ensures placed { (view : View) → OfRunning (GoesOn view end cause) frames.old.calls → All (IsPlaced view) frames.old.calls
        → All (IsPlaced view) frames.new.calls }
    ensures after { (objects : Objects Item ℕ) → under C.Constants consts.now IsKnownSlot objects (cause_slot cause)
        → under C.Constants consts.now IsKnownAfter objects result }
    ensures later { Later arena.old.objects arena.new.objects }
    ensures all_told { TellsAll C.Constants consts.now arena.new }
    ensures forgets { Forgets modules.old modules.new }
{
    moves_law();
    placed_law();
    match cause {
        Cause::Nothing => {
            frames.set_offset(end);
            After::Runs
        }
        Cause::Exception(x) => throw_on(frames, consts, modules, names, x),
        Cause::Return(v) => leave(frames, arena, consts, modules, names, v),
        Cause::Jump {
            target,
            entries,
            iterator,
        } => {
            let _ = frames.unwind(Slot::Jump {
                target,
                entries,
                iterator,
            });
            After::Runs
        }
    }
}

/// END_FINALLY: the finally's entry and what it kept are dropped, and the run goes on with that: at `end`, behind the
/// instruction, with an exception, with a return, or with a jump. It answers as `return_value` does.
pub fn end_finally<C: Constants>(
    frames: &mut Frames,
    arena: &mut Arena,
    consts: &C,
    modules: &mut Modules,
    names: &[ModuleName],
    end: u32,
) -> After
    requires cause { (cause : Kept) × IsTop (cause_slot cause) frames.old.calls × OfRunning (λ c. FitsEntries cause (unkept c)) frames.old.calls }
    requires entry { OfRunning (λ c. 0 < length c.entries) frames.old.calls }
    requires named { All (λ c. c.module_number < length names.now) frames.old.calls }
    requires role { OfRunning (λ c. HasModule arena.old.objects c.role) frames.old.calls }
    requires last { All (under C.Constants consts.now HasLast) names.now }
    requires registered { Registered (under C.Constants consts.now plain_modules modules.old) (under C.Constants consts.now plain_heap arena.old) }
    requires all_told { TellsAll C.Constants consts.now arena.old }
    ensures steps { (tables : Tables) (place : Place) (w : PlainWorld) → under C.Constants consts.now AreTablesOf names.now tables
        → IsNext tables end frames.old.calls → All (IsPlaced (view_of tables)) frames.old.calls
        → StepsTo tables place (world_of tables (with_modules tables w modules.old) arena.old)
        (Plain (instrs.Plain ops.EndFinally)) frames.old.calls
        (after_of tables result frames.new.calls (world_of tables (with_modules tables w modules.new) arena.new)) }
    ensures calls { (cause : Kept) → IsTop (cause_slot cause) frames.old.calls
        → frames.new ≡ record frames.old { calls = resumed cause end (change_first unkept frames.old.calls) } }
    ensures placed { (view : View) (cause : Kept) → IsTop (cause_slot cause) frames.old.calls
        → OfRunning (GoesOn view end cause) frames.old.calls → All (IsPlaced view) frames.old.calls → All (IsPlaced view) frames.new.calls }
    ensures after { All (under C.Constants consts.now IsKnownCall (length names.now) arena.old.objects) frames.old.calls
        → under C.Constants consts.now IsKnownAfter arena.new.objects result }
    ensures keeps { under C.Constants consts.now Keeps (length names.now) arena.old.objects arena.new.objects frames.old.calls frames.new.calls }
    ensures forgets { Forgets modules.old modules.new }
{
    placed_law();
    let cause = cause_of(frames.pop());
    frames.drop_entry();
    resume(frames, arena, consts, modules, names, cause, end)
}
