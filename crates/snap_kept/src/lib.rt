//! What the values of every state of a run keep, and a reader of saved states asks.
#![tactic(auto)]

ghost use Rattle.std.specs.Prelude.{◌≡◌, ℕ, List, Some};
ghost use Rattle.std.specs.List.{AllByRecursion as Each};
ghost use Rattle.bc_progress.specs.mpy_base.World.{PortState};
ghost use Rattle.bc_progress.specs.mpy_base.Val.{PlainWorld};
ghost use Rattle.bc_progress.specs.py_values.Shown.{PlainHeap};
ghost use Rattle.bc_progress.specs.py_effects.Ends.{new_world};
ghost use Rattle.bc_progress.specs.bc_machine.Library.{Name, Module, Holds, entry_in, Library};
ghost use Rattle.bc_progress.specs.bc_machine.State.{Frame, State};
ghost use Rattle.bc_progress.specs.bc_machine.Step.{step};
ghost use Rattle.bc_progress.specs.bc_machine.Machine.{start, steps};
ghost use Rattle.bc_progress.specs.Plans.{Plans, Follows};
ghost use Rattle.bc_progress.specs.Known.{FitsKnown};
ghost use Rattle.snap_kept.specs.Texts.{HasConstants};
ghost use Rattle.snap_kept.specs.Files.{OfFiles};
ghost use Rattle.snap_kept.specs.Effects.{IsSound};
ghost use Rattle.snap_kept.specs.Frames.{IsFrame, IsKept, KeepsNone};

/// What the objects of the world and the frames of a state hold is kept: it is so in the first state of a run, behind a
/// step of a verified library's state where it is so, and in each state of a run.
pub fn values_law()
    ensures start { (library : Library) (name : Name) (w : PlainWorld) → IsSound library w
        → IsKept library (start library name w) }
    ensures step { (library : Library) (plans : Plans) (s : State) → HasConstants library → Follows plans library
        → FitsKnown plans library s → IsKept library s → IsKept library (step library s) }
    ensures run { (library : Library) (plans : Plans) (name : Name) (m : Module) (cells bytes : ℕ)
        (ports : List PortState) (n : ℕ) → HasConstants library → Follows plans library → entry_in library name ≡ Some (Holds m)
        → IsKept library (steps library n (start library name (new_world cells bytes ports))) }
{}

/// What the instructions of files load are constants: no object and no method is in them.
pub fn constants_law()
    ensures { (library : Library) → OfFiles library → HasConstants library }
{}

/// In a frame of such a state no handler entry keeps an exception that isn't active.
pub fn entries_law()
    ensures { (library : Library) (heap : PlainHeap) (frame : Frame) → IsFrame library heap frame
        → Each KeepsNone frame.entries }
{}
