//! What a fetched instruction finds on the running call, and calls behind it.

ghost use Rattle.std.specs.Prelude.{◌≡◌, ℕ, List, ◌∷◌, Option, Some, IsSome, All};
ghost use Rattle.frame_exits.specs.mpy_base.Val.{PlainWorld};
ghost use Rattle.frame_exits.specs.arena_heap.declared.value.Value.{Value};
ghost use Rattle.frame_exits.specs.bc_labels.Positions.{CodeList, Listed, Starts};
ghost use Rattle.bc_progress.specs.bc_machine.Step.{step};
ghost use Rattle.vm_fetching.specs.bc_rows.declared.row.Row.{Row};
ghost use Rattle.vm_fetching.specs.bc_rows.Codes.{code_numbered};
ghost use Rattle.vm_fetching.specs.bc_rows.Rows.{IsRow};
ghost use Rattle.frame_exits.specs.vm_frames.declared.slot.Slot.{Slot};
ghost use Rattle.frame_exits.specs.vm_frames.Calls.{Call, Calls, on_running};
ghost use Rattle.frame_exits.specs.vm_frames.Placed.{IsPlaced};
ghost use Rattle.frame_exits.specs.vm_frames.Views.{starts_of};
ghost use Rattle.vm_fetching.specs.frame_moves.Shown.{view_of, running_of, step_of};
ghost use Rattle.vm_fetching.specs.declared.instruction.Fetched.{Fetched};
ghost use Rattle.vm_fetching.specs.Fetches.{IsVerifiedRow};
ghost use Rattle.vm_states.specs.Means.{Program, Means};
ghost use Rattle.vm_states.specs.Ready.{IsFetched, IsReady, item_at};
ghost use Rattle.vm_states.specs.Running.{IsOfModule, IsRunning};

use crate::call_tops::tops_law;
use crate::standing::standing_law;
use bc_progress::{progress_law, room_law};
use frame_values::placed_law;
use vm_fetching::{rows_law, step_law};

/// Of calls that run a program: the first one's code has a row, which is verified; an instruction starts at the call's offset;
/// and what is fetched there is ready.
pub fn ready_law()
    ensures row { (p : Program) (s : Calls) (c : Call) (cs : List Call) → Means p → IsRunning p s → s.calls ≡ c ∷ cs
        → IsSome (code_numbered p.shelf c.module_number c.code) }
    ensures verified { (p : Program) (s : Calls) (c : Call) (cs : List Call) (row : Row) → Means p → IsRunning p s → s.calls ≡ c ∷ cs
        → IsRow p.shelf c.module_number c.code row → IsVerifiedRow p.shelf c.module_number row }
    ensures starts { (p : Program) (s : Calls) (c : Call) (cs : List Call) (row : Row) → Means p → IsRunning p s → s.calls ≡ c ∷ cs
        → IsRow p.shelf c.module_number c.code row → (l : CodeList) × Listed row.instructions.now l × Starts l.offsets c.at }
    ensures ready { (p : Program) (s : Calls) (c : Call) (cs : List Call) (row : Row) (fetched : Fetched) → Means p → IsRunning p s → s.calls ≡ c ∷ cs
        → IsRow p.shelf c.module_number c.code row → IsFetched p.shelf c.module_number row c.at fetched → IsReady p s row fetched }
{
    rows_law();
    standing_law();
    room_law();
    step_law();
    tops_law();
}

/// Calls run the program again behind a step that leaves them running: where they are placed and of the library's modules; and
/// so where the step is that of what was fetched, and the first one alone goes on, at the start of an instruction.
pub fn keeps_law()
    ensures went { (p : Program) (s new : Calls) (paid again : ℕ) (before behind : PlainWorld) → Means p → IsRunning p s
        → step p.library (running_of p.tables paid s.calls before) ≡ running_of p.tables again new.calls behind
        → All (IsPlaced (view_of p.tables)) new.calls → All (IsOfModule p) new.calls → new ≡ record s { calls = new.calls } → IsRunning p new }
    ensures goes_on { (p : Program) (s new : Calls) (row : Row) (fetched : Fetched) (r : IsReady p s row fetched) (at : ℕ) (st : Call
        → List Slot) (locals : Call → List (Option Value)) (paid : ℕ) (before behind : PlainWorld)
        → Means p → IsRunning p s → Starts (starts_of (view_of p.tables) r.first) at
        → new ≡ on_running (λ c. record c { at = at; slots = st c; locals = locals c }) s
        → step_of p.tables p.library r.place paid s.calls before (item_at p r.first fetched) ≡ running_of p.tables 0 new.calls behind → IsRunning p new }
{
    progress_law();
    placed_law();
}
