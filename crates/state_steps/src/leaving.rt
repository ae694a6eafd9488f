//! Returns and raises that were fetched, through all calls up to the handler that takes them.

ghost use Rattle.std.specs.Prelude.{◌≡◌, ℕ};
ghost use Rattle.state_calls.specs.prim_faults.Sights.{under};
ghost use Rattle.state_values.specs.vm_states.Means.{Program};
ghost use Rattle.state_exits.specs.Running.{fetched_leave, RunsWith, RunsOnBehind};

use arena_heap::{Arena, Constants};
use bc_library::Library;
use prim_modules::Modules;
use state_exits::{End, LeaveOp, ModuleName, Row, Rows, raise_again_on, raise_on, return_on};
use vm_frames::Frames;

/// A return or a raise that was fetched for the running call, of this row. It answers how the run ends, if it does. It makes no
/// visits.
pub fn leave<C: Constants>(
    frames: &mut Frames,
    arena: &mut Arena,
    consts: &C,
    library: &Library,
    rows: &Rows<'_>,
    modules: &mut Modules,
    names: &[ModuleName],
    row: &Row<'_>,
    op: LeaveOp,
) -> Option<End>
    requires runs { (end : ℕ) × under C.Constants consts.now RunsWith names.now library.now arena.old modules.old frames.old row.now (fetched_leave op end) }
    requires rows { rows.now ≡ library.now }
    ensures comes { (p : Program) (end : ℕ) → p.shelf ≡ library.now
        → under C.Constants consts.now (RunsOnBehind p) names.now row.now
        (fetched_leave op end) arena.old arena.new modules.old modules.new frames.old frames.new result }
    ensures rooms { frames.new ≡ record frames.old { calls = frames.new.calls } }
    ensures registry { modules.new.room ≡ modules.old.room }
{
    match op {
        LeaveOp::ReturnValue => return_on(frames, arena, consts, library, rows, modules, names),
        LeaveOp::RaiseLast => raise_again_on(frames, arena, consts, modules, names, row),
        LeaveOp::RaiseObj => raise_on(frames, arena, consts, modules, names, row),
    }
}
