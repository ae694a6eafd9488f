//! Returns, and the ends of finallys.

ghost use Rattle.std.specs.Prelude.{◌≡◌, ℕ, List, Option, None, IfSome, All};
ghost use Rattle.vm_states.specs.mpy_base.World.{Objects};
ghost use Rattle.prim_faults.specs.arena_heap.declared.value.Value.{Value as Item};
ghost use Rattle.prim_faults.specs.arena_heap.declared.value.StrNo.{StrNo as TextName};
ghost use Rattle.prim_faults.specs.arena_heap.declared.value.ConstNo.{ConstNo as TupleName};
ghost use Rattle.vm_states.specs.bc_rows.declared.row.Row.{Row as CodeRow};
ghost use Rattle.prim_faults.specs.Faults.{IsKnown};
ghost use Rattle.prim_faults.specs.Sights.{under};
ghost use Rattle.vm_states.specs.vm_fetching.declared.operations.LeaveOp.TheVariants as leave_ops;
ghost use Rattle.vm_states.specs.frame_exits.Known.{IsKnownCall, IsKnownAfter};
ghost use Rattle.vm_states.specs.frame_exits.declared.ends.After.TheVariants as afters;
ghost use Rattle.vm_states.specs.Means.{Program, Means};
ghost use Rattle.state_exits.specs.Running.{fetched_leave, RunsWith, RunsOnBehind};
ghost use Rattle.state_exits.specs.Waiting.{IsWaiting, IsSettling, Settles};

use arena_heap::{Arena, Constants, Value};
use bc_machine::sound_law;
use bc_progress::{progress_law, room_law};
use vm_frames::{Frames, placed_law};
use vm_states::{
    After, End, Library, ModuleName, Modules, Rows, fetch, keeps_law, receive, return_value,
    rows_law, standing_law, step_law, tops_law,
};

/// The call that waits takes the value of the one that it made, and goes on behind its instruction, which is fetched again.
#[inline(always)]
fn take(frames: &mut Frames, library: &Library, rows: &Rows<'_>, v: Value)
    requires rows { rows.now ≡ library.now }
    requires waits { (p : Program) × Means p × (p.shelf ≡ library.now) × IsWaiting p v frames.old }
    ensures settles { (p : Program) → Means p → p.shelf ≡ library.now → IsWaiting p v frames.old → Settles p (afters.Gives v) frames.old frames.new None }
    ensures same { frames.new ≡ record frames.old { calls = frames.new.calls } }
    ensures known { (texts : TextName → Option (List ℕ)) (tuples : TupleName → Option (List Item)) (modules : ℕ) (objects : Objects Item ℕ)
        → IsKnown texts tuples objects v
        → All (IsKnownCall texts tuples modules objects) frames.old.calls → All (IsKnownCall texts tuples modules objects) frames.new.calls }
{
    rows_law();
    room_law();
    standing_law();
    step_law();
    tops_law();
    let (module_number, code, _) = frames.running();
    let Some(row) = rows.row(module_number, code) else {
        unreachable!();
    };
    let fetched = fetch(library, module_number, row, frames.offset());
    receive(frames, v, fetched.end);
}

/// The run goes on from where an instruction came to that may have left calls. It answers how the run ends, if it does.
#[inline(always)]
pub(crate) fn settle(
    frames: &mut Frames,
    library: &Library,
    rows: &Rows<'_>,
    after: After,
) -> Option<End>
    requires rows { rows.now ≡ library.now }
    requires waits { (p : Program) × Means p × (p.shelf ≡ library.now) × IsSettling p after frames.old }
    ensures settles { (p : Program) → Means p → p.shelf ≡ library.now → IsSettling p after frames.old → Settles p after frames.old frames.new result }
    ensures same { frames.new ≡ record frames.old { calls = frames.new.calls } }
    ensures known { (texts : TextName → Option (List ℕ)) (tuples : TupleName → Option (List Item)) (modules : ℕ) (objects : Objects Item ℕ)
        → IsKnownAfter texts tuples objects after
        → All (IsKnownCall texts tuples modules objects) frames.old.calls → All (IsKnownCall texts tuples modules objects) frames.new.calls }
    ensures ended { IfSome result (λ end. after ≡ afters.Ends end) }
{
    match after {
        After::Runs => None,
        After::Gives(v) => {
            take(frames, library, rows, v);
            None
        }
        After::Ends(end) => Some(end),
    }
}

/// RETURN_VALUE, where it was fetched for the running call: the innermost finally that is to run is entered, or the call is
/// left, and the one that waited goes on. It answers how the run ends, if it does.
pub fn return_on<C: Constants>(
    frames: &mut Frames,
    arena: &mut Arena,
    consts: &C,
    library: &Library,
    rows: &Rows<'_>,
    modules: &Modules,
    names: &[ModuleName],
) -> Option<End>
    requires runs { (end : ℕ) × (row : CodeRow)
        × under C.Constants consts.now RunsWith names.now library.now arena.old modules.now frames.old row
        (fetched_leave leave_ops.ReturnValue end) }
    requires rows { rows.now ≡ library.now }
    ensures comes { (p : Program) (end : ℕ) (row : CodeRow) → p.shelf ≡ library.now
        → under C.Constants consts.now (RunsOnBehind p) names.now row
        (fetched_leave leave_ops.ReturnValue end) arena.old arena.new modules.now modules.now frames.old frames.new result }
    ensures rooms { frames.new ≡ record frames.old { calls = frames.new.calls } }
{
    keeps_law();
    sound_law();
    progress_law();
    tops_law();
    let after = return_value(frames, arena, consts, modules, names);
    settle(frames, library, rows, after)
}
