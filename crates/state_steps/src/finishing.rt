//! The ends of finallys.

ghost use Rattle.std.specs.Prelude.{◌≡◌};
ghost use Rattle.state_calls.specs.bc_rows.declared.row.Row.{Row as CodeRow};
ghost use Rattle.state_calls.specs.prim_faults.Sights.{under};
ghost use Rattle.state_values.specs.vm_states.Means.{Program};
ghost use Rattle.state_exits.specs.Keeping.{KeepsCause};
ghost use Rattle.state_exits.specs.Running.{fetched_finish, RunsWith};
ghost use Rattle.state_steps.specs.Comes.{ComesOnBehind};

use arena_heap::{Arena, Constants};
use bc_library::Library;
use prim_modules::Modules;
use state_exits::{End, ModuleName, Rows, end_finally_on};
use vm_frames::Frames;

/// END_FINALLY, that was fetched for the running call: it goes on with what the finally kept. It answers how the run ends, if it
/// does. It makes no visits.
#[tactic(none)]
pub fn finish<C: Constants>(
    frames: &mut Frames,
    arena: &mut Arena,
    consts: &C,
    library: &Library,
    rows: &Rows<'_>,
    modules: &mut Modules,
    names: &[ModuleName],
    end: u32,
) -> Option<End>
    requires runs { (row : CodeRow)
        × (h : under C.Constants consts.now RunsWith names.now library.now arena.old modules.old frames.old row
        (fetched_finish end)) × KeepsCause h.runs.program frames.old }
    requires rows { rows.now ≡ library.now }
    ensures comes { (p : Program) (row : CodeRow) → p.shelf ≡ library.now → KeepsCause p frames.old
        → under C.Constants consts.now (ComesOnBehind p) names.now row
        (fetched_finish end) 0 arena.old arena.new modules.old modules.new frames.old frames.new result }
    ensures rooms { frames.new ≡ record frames.old { calls = frames.new.calls } }
    ensures registry { modules.new.room ≡ modules.old.room }
{
    end_finally_on(frames, arena, consts, library, rows, modules, names, end)
}
