//! The ends of finallys.

ghost use Rattle.std.specs.Prelude.{◌≡◌};
ghost use Rattle.vm_states.specs.bc_rows.declared.row.Row.{Row as CodeRow};
ghost use Rattle.prim_faults.specs.Sights.{under};
ghost use Rattle.vm_states.specs.Means.{Program};
ghost use Rattle.state_exits.specs.Keeping.{KeepsCause};
ghost use Rattle.state_exits.specs.Running.{fetched_finish, RunsWith, RunsOnBehind};

use crate::returning::settle;
use arena_heap::{Arena, Constants};
use bc_machine::sound_law;
use bc_progress::progress_law;
use vm_frames::Frames;
use vm_states::{End, Library, ModuleName, Modules, Rows, end_finally, keeps_law, tops_law};

/// END_FINALLY, where it was fetched for the running call, which goes on with what the finally kept: at `end`, behind the
/// instruction, with an exception, with a return, or with a jump. It answers how the run ends, if it does.
pub fn end_finally_on<C: Constants>(
    frames: &mut Frames,
    arena: &mut Arena,
    consts: &C,
    library: &Library,
    rows: &Rows<'_>,
    modules: &mut Modules,
    names: &[ModuleName],
    end: u32,
) -> Option<End>
    requires runs { (row : CodeRow)
        × (h : under C.Constants consts.now RunsWith names.now library.now arena.old modules.old frames.old row
        (fetched_finish end)) × KeepsCause h.runs.program frames.old }
    requires rows { rows.now ≡ library.now }
    ensures comes { (p : Program) (row : CodeRow) → p.shelf ≡ library.now → KeepsCause p frames.old
        → under C.Constants consts.now (RunsOnBehind p) names.now row
        (fetched_finish end) arena.old arena.new modules.old modules.new frames.old frames.new result }
    ensures rooms { frames.new ≡ record frames.old { calls = frames.new.calls } }
    ensures registry { modules.new.room ≡ modules.old.room }
{
    keeps_law();
    sound_law();
    progress_law();
    tops_law();
    let after = end_finally(frames, arena, consts, modules, names, end);
    settle(frames, library, rows, after)
}
