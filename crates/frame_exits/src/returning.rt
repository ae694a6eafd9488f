//! Returns from calls, through the finallys that they run.

ghost use Rattle.std.specs.Prelude.{◌≡◌, ℕ, Option, ◌<◌, ◌∷◌, List, length, drop, map, All};
ghost use Rattle.mpy_base.specs.World.{Objects, AModule, IsA, Later};
ghost use Rattle.mpy_base.specs.Val.{PlainWorld};
ghost use Rattle.frame_moves.specs.bc_ops.declared.instr.Op.TheVariants as ops;
ghost use Rattle.frame_moves.specs.bc_ops.declared.instr.Instr.TheVariants as instrs;
ghost use Rattle.frame_moves.specs.arena_heap.declared.value.Value.{Value as Item};
ghost use Rattle.frame_moves.specs.arena_heap.declared.value.StrNo.{StrNo as TextName};
ghost use Rattle.frame_moves.specs.arena_heap.declared.value.ConstNo.{ConstNo as TupleName};
ghost use Rattle.frame_moves.specs.bc_labels.Positions.{Starts};
ghost use Rattle.frame_moves.specs.py_effects.Effect.{Place, given};
ghost use Rattle.frame_moves.specs.py_effects.Heaps.{Registered};
ghost use Rattle.frame_moves.specs.py_effects.Modules.{store_module as stored_module};
ghost use Rattle.frame_moves.specs.bc_machine.Library.{Plain};
ghost use Rattle.frame_moves.specs.bc_machine.State as states;
ghost use Rattle.frame_moves.specs.bc_machine.State.{Running, on_given, give as given_to};
ghost use Rattle.frame_moves.specs.prim_walks.Plain.{plain_heap};
ghost use Rattle.frame_moves.specs.prim_faults.Faults.{IsKnown};
ghost use Rattle.frame_moves.specs.prim_faults.declared.fault.Fault.{Fault};
ghost use Rattle.frame_moves.specs.prim_faults.declared.stop.Stop.TheVariants as stops;
ghost use Rattle.frame_moves.specs.prim_faults.Sights.{under, sight, TellsAll};
ghost use Rattle.prim_modules.specs.Registry.{plain_modules};
ghost use Rattle.prim_modules.specs.Effects.{world_with};
ghost use Rattle.frame_moves.specs.vm_frames.declared.slot.Slot.TheVariants as slots;
ghost use Rattle.frame_moves.specs.vm_frames.Calls.{OfRunning, change_first, on_running};
ghost use Rattle.frame_moves.specs.vm_frames.Views.{View, starts_of, role_of, frame_of};
ghost use Rattle.frame_moves.specs.vm_frames.Placed.{IsPlaced};
ghost use Rattle.frame_moves.specs.Shown.{Tables, value_of, view_of, running_of, IsNext, IsTop};
ghost use Rattle.frame_moves.specs.Outcomes.{world_of};
ghost use Rattle.frame_moves.specs.Stacks.{gone};
ghost use Rattle.frame_exits.specs.Names.{AreTablesOf};
ghost use Rattle.frame_exits.specs.Ends.{with_modules, StepsTo};
ghost use Rattle.frame_exits.specs.Known.{HasModule, IsKnownCall, IsKnownAfter, Keeps};
ghost use Rattle.frame_exits.specs.Left.{HasLast, left, leaving_of, receiving_of, after_of, stored_state};

use crate::ends::{After, End};
use crate::names::{ModuleName, name_of};
use arena_heap::{Arena, Constants, ModuleNo, StrNo, Value};
use frame_moves::{Frames, Role, Slot, moves_law, placed_law};
use mpy_base::NoRoom;
use prim_modules::{Modules, Stop, store_module};

/// The want of room that a stop is where nothing is raised.
fn want_of(stop: Stop) -> NoRoom
    requires { (fault : Fault) → stop ≡ stops.Raises fault → ⊥ }
    ensures { stop ≡ stops.Full result }
{
    match stop {
        Stop::Full(room) => room,
        Stop::Raises(_) => unreachable!(),
    }
}

/// Stores a module that ended in the namespace of the registered module before its name, if there is one.
fn store<C: Constants>(
    arena: &mut Arena,
    consts: &C,
    modules: &Modules,
    name: ModuleName,
    m: ModuleNo,
) -> Result<(), NoRoom>
    requires last { under C.Constants consts.now HasLast name }
    requires is_module { IsA arena.old.objects AModule m.cell }
    requires registered { Registered (under C.Constants consts.now plain_modules modules.now) (under C.Constants consts.now plain_heap arena.old) }
    requires all_told { TellsAll C.Constants consts.now arena.old }
    ensures state { let see = sight C.Constants consts.now
        in (place : Place) (w : PlainWorld) (frame : states.Frame) (frames : List states.Frame)
        → on_given (given place (stored_module (world_with see.texts see.tuples w arena.old modules.now) (see.name name.name) m.cell))
        frame frames (λ done. Running 0 frame frames)
        ≡ stored_state result frame frames (world_with see.texts see.tuples w arena.new modules.now) }
    ensures later { Later arena.old.objects arena.new.objects }
    ensures all_told { TellsAll C.Constants consts.now arena.new }
{
    match store_module(arena, consts, modules, name.name, StrNo::Pool(name.last), m) {
        Ok(_) => Ok(()),
        Err(stop) => Err(want_of(stop)),
    }
}

/// Gives the value of a call that was left, by its role, to the calls that wait.
#[inline(always)]
fn give<C: Constants>(
    frames: &Frames,
    arena: &mut Arena,
    consts: &C,
    modules: &Modules,
    name: ModuleName,
    role: Role,
    v: Value,
) -> After
    requires last { under C.Constants consts.now HasLast name }
    requires role { HasModule arena.old.objects role }
    requires registered { Registered (under C.Constants consts.now plain_modules modules.now) (under C.Constants consts.now plain_heap arena.old) }
    requires all_told { TellsAll C.Constants consts.now arena.old }
    ensures state { let see = sight C.Constants consts.now in (tables : Tables) (w : PlainWorld) → tables.texts ≡ see.texts
        → tables.tuples ≡ see.tuples
        → given_to (value_of tables v) (role_of (view_of tables) (see.name name.name) role)
        (map (frame_of (view_of tables)) frames.now.calls) (world_of tables (with_modules tables w modules.now) arena.old)
        ≡ after_of tables result frames.now.calls (world_of tables (with_modules tables w modules.now) arena.new) }
    ensures after { (objects : Objects Item ℕ) → under C.Constants consts.now IsKnown objects v → under C.Constants consts.now IsKnownAfter objects result }
    ensures later { Later arena.old.objects arena.new.objects }
    ensures all_told { TellsAll C.Constants consts.now arena.new }
{
    let waiting = frames.depth();
    if waiting == 0 {
        return After::Ends(End::Ended);
    }
    match role {
        Role::Main => After::Ends(End::Ended),
        Role::Call => After::Gives(v),
        Role::Import(m) => match store(arena, consts, modules, name, m) {
            Ok(()) => After::Runs,
            Err(room) => After::Ends(End::Memory(room)),
        },
    }
}

/// Returns a value from the running call: the innermost finally that is to run is entered, or else the call is left.
#[inline(always)]
pub(crate) fn leave<C: Constants>(
    frames: &mut Frames,
    arena: &mut Arena,
    consts: &C,
    modules: &Modules,
    names: &[ModuleName],
    v: Value,
) -> After
    requires named { OfRunning (λ c. c.module_number < length names.now) frames.old.calls }
    requires role { OfRunning (λ c. HasModule arena.old.objects c.role) frames.old.calls }
    requires last { All (under C.Constants consts.now HasLast) names.now }
    requires registered { Registered (under C.Constants consts.now plain_modules modules.now) (under C.Constants consts.now plain_heap arena.old) }
    requires all_told { TellsAll C.Constants consts.now arena.old }
    ensures state { (tables : Tables) (w : PlainWorld) → under C.Constants consts.now AreTablesOf names.now tables
        → OfRunning (IsPlaced (view_of tables)) frames.old.calls
        → leaving_of tables v frames.old.calls (world_of tables (with_modules tables w modules.now) arena.old)
        ≡ after_of tables result frames.new.calls (world_of tables (with_modules tables w modules.now) arena.new) }
    ensures calls { frames.new ≡ record frames.old { calls = left v frames.old.calls } }
    ensures placed { (view : View) → All (IsPlaced view) frames.old.calls → All (IsPlaced view) frames.new.calls }
    ensures after { (objects : Objects Item ℕ) → under C.Constants consts.now IsKnown objects v → under C.Constants consts.now IsKnownAfter objects result }
    ensures later { Later arena.old.objects arena.new.objects }
    ensures all_told { TellsAll C.Constants consts.now arena.new }
{
    moves_law();
    placed_law();
    let (module_number, _, _) = frames.running();
    let role = frames.role();
    match frames.unwind(Slot::Return(v)) {
        Some(_) => After::Runs,
        None => {
            let _ = frames.pop_call();
            let name = name_of(names, module_number);
            give(frames, arena, consts, modules, name, role, v)
        }
    }
}

/// RETURN_VALUE: the innermost finally that is to run is entered and keeps the value, or else the call is left. It answers
/// where the run is: the calls run, the call that waited takes a value by `receive`, or the run has ended. An import's module
/// is stored under the last part of its name, and the importing call goes on at its instruction.
pub fn return_value<C: Constants>(
    frames: &mut Frames,
    arena: &mut Arena,
    consts: &C,
    modules: &Modules,
    names: &[ModuleName],
) -> After
    requires value { (v : Item) × IsTop (slots.Value v) frames.old.calls }
    requires named { OfRunning (λ c. c.module_number < length names.now) frames.old.calls }
    requires role { OfRunning (λ c. HasModule arena.old.objects c.role) frames.old.calls }
    requires last { All (under C.Constants consts.now HasLast) names.now }
    requires registered { Registered (under C.Constants consts.now plain_modules modules.now) (under C.Constants consts.now plain_heap arena.old) }
    requires all_told { TellsAll C.Constants consts.now arena.old }
    ensures steps { (tables : Tables) (place : Place) (w : PlainWorld) → under C.Constants consts.now AreTablesOf names.now tables
        → OfRunning (IsPlaced (view_of tables)) frames.old.calls
        → StepsTo tables place (world_of tables (with_modules tables w modules.now) arena.old)
        (Plain (instrs.Plain ops.ReturnValue)) frames.old.calls
        (after_of tables result frames.new.calls (world_of tables (with_modules tables w modules.now) arena.new)) }
    ensures calls { (v : Item) → IsTop (slots.Value v) frames.old.calls
        → frames.new ≡ record frames.old { calls = left v (change_first (λ c. record c { slots = drop 1 c.slots }) frames.old.calls) } }
    ensures placed { (view : View) → All (IsPlaced view) frames.old.calls → All (IsPlaced view) frames.new.calls }
    ensures after { All (under C.Constants consts.now IsKnownCall (length names.now) arena.old.objects) frames.old.calls
        → under C.Constants consts.now IsKnownAfter arena.new.objects result }
    ensures keeps { under C.Constants consts.now Keeps (length names.now) arena.old.objects arena.new.objects frames.old.calls frames.new.calls }
{
    let Slot::Value(v) = frames.pop() else {
        unreachable!();
    };
    leave(frames, arena, consts, modules, names, v)
}

/// The call that waited takes the value of the one that it made, and goes on at `end`, behind its instruction.
pub fn receive(frames: &mut Frames, v: Value, end: u32)
    requires { OfRunning (λ c. length c.slots < frames.old.slot_room) frames.old.calls }
    ensures state { (tables : Tables) (w : PlainWorld) → IsNext tables end frames.old.calls
        → receiving_of tables v frames.old.calls w ≡ running_of tables 0 frames.new.calls w }
    ensures moved { frames.new ≡ on_running (λ c. gone end (slots.Value v ∷ c.slots) c) frames.old }
    ensures placed { (view : View) → OfRunning (λ c. Starts (starts_of view c) end) frames.old.calls → All (IsPlaced view) frames.old.calls
        → All (IsPlaced view) frames.new.calls }
    ensures known { (texts : TextName → Option (List ℕ)) (tuples : TupleName → Option (List Item)) (modules : ℕ) (objects : Objects Item ℕ)
        → IsKnown texts tuples objects v
        → All (IsKnownCall texts tuples modules objects) frames.old.calls → All (IsKnownCall texts tuples modules objects) frames.new.calls }
{
    placed_law();
    frames.push(Slot::Value(v));
    frames.set_offset(end);
}
