//! Stops, and raises, at the running call's instruction.

ghost use Rattle.std.specs.Prelude.{◌≡◌, ◌<◌, ℕ, length, Err};
ghost use Rattle.vm_states.specs.bc_library.Shelf.{Shelf};
ghost use Rattle.prim_faults.specs.Sights.{under, KnowsAnswer};
ghost use Rattle.vm_states.specs.vm_frames.Calls.{OfRunning};
ghost use Rattle.vm_states.specs.vm_fetching.declared.instruction.Fetched.{Fetched as FetchedHere};
ghost use Rattle.vm_states.specs.vm_fetching.declared.operations.LeaveOp.TheVariants as leave_ops;
ghost use Rattle.vm_states.specs.vm_fetching.Fetches.{IsVerifiedRow};
ghost use Rattle.vm_states.specs.Means.{Program, Means};
ghost use Rattle.vm_states.specs.Ready.{IsReady};
ghost use Rattle.vm_states.specs.State.{IsState};
ghost use Rattle.vm_states.specs.Acting.{Tells};
ghost use Rattle.state_exits.specs.Modules.{AreNames};
ghost use Rattle.state_exits.specs.Running.{fetched_leave, place_at, RunsAt, RunsOnBehind, StopsOn};

use arena_heap::{Arena, Constants};
use bc_machine::sound_law;
use prim_faults::Stop;
use vm_frames::Frames;
use vm_states::{
    End, ModuleName, Modules, Place, Row, keeps_law, line_of, raise, raise_last, raise_obj,
    tops_law,
};

/// The place of the running call's instruction, in the row of its code. It walks through the row's line table.
fn place_in(frames: &Frames, row: &Row<'_>) -> Place
    requires running { 0 < length frames.now.calls }
    requires row { (shelf : Shelf) × (i : ℕ) × IsVerifiedRow shelf i row.now }
    ensures { OfRunning (λ c. result ≡ place_at row.now c.at) frames.now.calls }
{
    let line = line_of(row, frames.offset());
    Place {
        file: row.source,
        line,
        name: row.name,
    }
}

/// A stop at the instruction that was fetched for the running call, of this row: the exception of a fault is thrown through the
/// calls, or want of room ends the run. It answers how the run ends, if it does; else it goes on. It goes through each call
/// once, and through the row's line table.
pub fn stop_on<C: Constants>(
    frames: &mut Frames,
    arena: &mut Arena,
    consts: &C,
    modules: &mut Modules,
    names: &[ModuleName],
    row: &Row<'_>,
    stop: Stop,
) -> Option<End>
    requires runs { (fetched : FetchedHere) × under C.Constants consts.now RunsAt names.now arena.old.objects frames.old row.now fetched }
    requires stop { KnowsAnswer C.Constants consts.now arena.old (Err stop) }
    ensures comes { (p : Program) (fetched : FetchedHere) → Means p → under C.Constants consts.now Tells p → AreNames p names.now
        → IsState p arena.old.objects frames.old → (ready : IsReady p frames.old row.now fetched)
        → StopsOn p ready.place arena.old arena.new modules.old modules.new frames.old frames.new stop result }
    ensures rooms { frames.new ≡ record frames.old { calls = frames.new.calls } }
    ensures registry { modules.new.room ≡ modules.old.room }
{
    keeps_law();
    sound_law();
    let place = place_in(frames, row);
    raise(frames, arena, consts, modules, names, place, stop)
}

/// RAISE_OBJ, where it was fetched for the running call, of this row. It answers how the run ends, if it does.
pub fn raise_on<C: Constants>(
    frames: &mut Frames,
    arena: &mut Arena,
    consts: &C,
    modules: &mut Modules,
    names: &[ModuleName],
    row: &Row<'_>,
) -> Option<End>
    requires runs { (end : ℕ) × under C.Constants consts.now RunsAt names.now arena.old.objects frames.old row.now (fetched_leave leave_ops.RaiseObj end) }
    ensures comes { (p : Program) (end : ℕ)
        → under C.Constants consts.now (RunsOnBehind p) names.now row.now
        (fetched_leave leave_ops.RaiseObj end) arena.old arena.new modules.old modules.new frames.old frames.new result }
    ensures rooms { frames.new ≡ record frames.old { calls = frames.new.calls } }
    ensures registry { modules.new.room ≡ modules.old.room }
{
    keeps_law();
    sound_law();
    tops_law();
    let place = place_in(frames, row);
    raise_obj(frames, arena, consts, modules, names, place)
}

/// RAISE_LAST, where it was fetched for the running call, of this row. It answers how the run ends, if it does.
pub fn raise_again_on<C: Constants>(
    frames: &mut Frames,
    arena: &mut Arena,
    consts: &C,
    modules: &mut Modules,
    names: &[ModuleName],
    row: &Row<'_>,
) -> Option<End>
    requires runs { (end : ℕ) × under C.Constants consts.now RunsAt names.now arena.old.objects frames.old row.now (fetched_leave leave_ops.RaiseLast end) }
    ensures comes { (p : Program) (end : ℕ)
        → under C.Constants consts.now (RunsOnBehind p) names.now row.now
        (fetched_leave leave_ops.RaiseLast end) arena.old arena.new modules.old modules.new frames.old frames.new result }
    ensures rooms { frames.new ≡ record frames.old { calls = frames.new.calls } }
    ensures registry { modules.new.room ≡ modules.old.room }
{
    keeps_law();
    sound_law();
    let place = place_in(frames, row);
    raise_last(frames, arena, consts, modules, names, place)
}
