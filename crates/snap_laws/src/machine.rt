//! Steps of the machine over states whose objects have other numbers.

ghost use Rattle.std.specs.Prelude.{◌≡◌, ℕ};
ghost use Rattle.bc_machine.specs.py_effects.Ends.{report};
ghost use Rattle.bc_machine.specs.Library.{Library};
ghost use Rattle.bc_machine.specs.State.{State};
ghost use Rattle.bc_machine.specs.Step.{step};
ghost use Rattle.bc_machine.specs.Machine.{steps, run_of};
ghost use Rattle.snap_laws.specs.Renamed.{Renaming};
ghost use Rattle.snap_laws.specs.Worlds.{IsWorld, end_as};
ghost use Rattle.snap_laws.specs.States.{OfFiles, IsState, KeepsConstants};

/// No constant of a file is an object, so a library of files keeps its constants.
pub fn constants_law()
    ensures { (r : Renaming) (library : Library) → OfFiles library → KeepsConstants r library }
{}

/// Behind a step, and behind any number of steps, the states still differ by the same renaming.
pub fn step_law()
    ensures step { (r : Renaming) (library : Library) (s t : State) → KeepsConstants r library → IsState r s t → IsState r (step library s) (step library t) }
    ensures steps { (r : Renaming) (library : Library) (n : ℕ) (s t : State) → KeepsConstants r library → IsState r s t
        → IsState r (steps library n s) (steps library n t) }
{}

/// Such states have the same output and ports, end alike, and the report of their ends is the same.
pub fn states_law()
    ensures world { (r : Renaming) (s t : State) → IsState r s t → IsWorld r (run_of s).world (run_of t).world }
    ensures end { (r : Renaming) (s t : State) → IsState r s t → (run_of t).end ≡ end_as r (run_of s).end }
    ensures report { (r : Renaming) (s t : State) → IsState r s t → report (run_of t) ≡ report (run_of s) }
{}
