//! Exceptions that are thrown through calls.

ghost use Rattle.std.specs.Prelude.{◌≡◌, ◌<◌, true, None, length, All, drop, if◌then◌else◌};
ghost use Rattle.mpy_base.specs.Val.{PlainWorld};
ghost use Rattle.frame_moves.specs.bc_machine.State.{abandoned};
ghost use Rattle.frame_moves.specs.prim_faults.Sights.{under};
ghost use Rattle.frame_moves.specs.prim_raising.Worlds.{failure as failing};
ghost use Rattle.frame_moves.specs.vm_frames.Calls.{OfRunning};
ghost use Rattle.frame_moves.specs.vm_frames.Views.{View, role_of};
ghost use Rattle.frame_moves.specs.vm_frames.Placed.{IsPlaced};
ghost use Rattle.frame_moves.specs.Shown.{Tables, view_of, running_of};
ghost use Rattle.frame_moves.specs.Outcomes.{failing_of};
ghost use Rattle.frame_exits.specs.Names.{AreTablesOf, Forgets};
ghost use Rattle.frame_exits.specs.Ends.{with_modules, state_of};
ghost use Rattle.frame_exits.specs.Thrown.{throwing_of, thrown, thrown_out, failed_calls, failed_end};

use crate::ends::End;
use crate::names::{ModuleName, name_of};
use arena_heap::{Constants, ExcNo, StrNo};
use frame_moves::{Frames, Role, moves_law, placed_law};
use mpy_base::NoRoom;
use prim_modules::{Modules, name_bytes};

/// A call of the module that ends with this role is left by a raise: a module that it imports is forgotten.
fn abandon<C: Constants>(
    consts: &C,
    modules: &mut Modules,
    names: &[ModuleName],
    module_number: u32,
    role: Role,
)
    requires { module_number < length names.now }
    ensures abandoned { (tables : Tables) (w : PlainWorld) → under C.Constants consts.now AreTablesOf names.now tables
        → with_modules tables w modules.new
        ≡ abandoned (role_of (view_of tables) (tables.module_name module_number) role) (with_modules tables w modules.old) }
    ensures forgets { Forgets modules.old modules.new }
{
    match role {
        Role::Import(_) => {
            let name = name_of(names, module_number);
            modules.forget_module(consts, name_bytes(consts, StrNo::Pool(name.name)));
        }
        Role::Main | Role::Call => {}
    }
}

/// Throws an exception into the running call. It answers whether a handler is entered there; else the call is left.
fn catch<C: Constants>(
    frames: &mut Frames,
    consts: &C,
    modules: &mut Modules,
    names: &[ModuleName],
    x: ExcNo,
) -> bool
    requires { OfRunning (λ c. c.module_number < length names.now) frames.old.calls }
    ensures state { (tables : Tables) (w : PlainWorld) → under C.Constants consts.now AreTablesOf names.now tables
        → OfRunning (IsPlaced (view_of tables)) frames.old.calls
        → throwing_of tables x frames.old.calls (with_modules tables w modules.old) ≡ (if result
        then running_of tables 0 frames.new.calls (with_modules tables w modules.new)
        else throwing_of tables x frames.new.calls (with_modules tables w modules.new)) }
    ensures calls { frames.new ≡ record frames.old { calls = if result then thrown x frames.old.calls else drop 1 frames.old.calls } }
    ensures thrown { thrown x frames.old.calls ≡ (if result then frames.new.calls else thrown x frames.new.calls) }
    ensures caught { result ≡ true → thrown_out x frames.new.calls ≡ None }
    ensures forgets { Forgets modules.old modules.new }
{
    moves_law();
    let (module_number, _, _) = frames.running();
    let role = frames.role();
    match frames.raise(x) {
        Some(_) => true,
        None => {
            let _ = frames.pop_call();
            abandon(consts, modules, names, module_number, role);
            false
        }
    }
}

/// Throws an exception through the calls. It answers how the run ends, if no call handles it.
fn throw<C: Constants>(
    frames: &mut Frames,
    consts: &C,
    modules: &mut Modules,
    names: &[ModuleName],
    x: ExcNo,
) -> Option<End>
    requires { All (λ c. c.module_number < length names.now) frames.old.calls }
    ensures state { (tables : Tables) (w : PlainWorld) → under C.Constants consts.now AreTablesOf names.now tables
        → All (IsPlaced (view_of tables)) frames.old.calls
        → throwing_of tables x frames.old.calls (with_modules tables w modules.old)
        ≡ state_of tables result frames.new.calls (with_modules tables w modules.new) }
    ensures calls { frames.new ≡ record frames.old { calls = thrown x frames.old.calls } }
    ensures end { result ≡ thrown_out x frames.new.calls }
    ensures forgets { Forgets modules.old modules.new }
{
    'calls: while frames.depth() > 0 {
        if catch(frames, consts, modules, names, x) {
            return None;
        }
    }
    Some(End::Raised(x))
}

/// A failure at the running call: its exception is thrown through the calls, or want of room ends the run. It answers how
/// the run ends, if it does.
pub(crate) fn fail<C: Constants>(
    frames: &mut Frames,
    consts: &C,
    modules: &mut Modules,
    names: &[ModuleName],
    failure: Result<ExcNo, NoRoom>,
) -> Option<End>
    requires running { 0 < length frames.old.calls }
    requires named { All (λ c. c.module_number < length names.now) frames.old.calls }
    ensures state { (tables : Tables) (w : PlainWorld) → under C.Constants consts.now AreTablesOf names.now tables
        → All (IsPlaced (view_of tables)) frames.old.calls
        → failing_of tables frames.old.calls (failing (with_modules tables w modules.old) failure)
        ≡ state_of tables result frames.new.calls (with_modules tables w modules.new) }
    ensures calls { frames.new ≡ record frames.old { calls = failed_calls failure frames.old.calls } }
    ensures end { result ≡ failed_end failure frames.old.calls }
    ensures placed { (view : View) → All (IsPlaced view) frames.old.calls → All (IsPlaced view) frames.new.calls }
    ensures forgets { Forgets modules.old modules.new }
{
    placed_law();
    match failure {
        Ok(x) => throw(frames, consts, modules, names, x),
        Err(room) => Some(End::Memory(room)),
    }
}
