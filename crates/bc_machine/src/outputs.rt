//! The machine doesn't read what was printed.

ghost use Rattle.std.specs.Prelude.{◌≡◌, ◌<◌, ◌++◌, ℕ, List};
ghost use Rattle.mpy_tree.specs.mpy_base.Val.{PlainWorld};
ghost use Rattle.mpy_tree.specs.mpy_base.World.{PortState};
ghost use Rattle.py_effects.specs.Ends.{new_world};
ghost use Rattle.py_effects.specs.Growth.{Starts};
ghost use Rattle.bc_machine.specs.Library.{Name, Library};
ghost use Rattle.bc_machine.specs.State.{State};
ghost use Rattle.bc_machine.specs.Step.{step};
ghost use Rattle.bc_machine.specs.Machine.{start, steps, run, run_of};
ghost use Rattle.bc_machine.specs.Behind.{behind, state_behind, run_behind};

use crate::running::{prefix_law, runs_law};

/// In a world in which something was printed before, a run begins, goes on and ends as it does otherwise, and its output stands
/// behind that.
pub fn output_law()
    ensures starts { (library : Library) (name : Name) (w : PlainWorld) (front : List ℕ)
        → start library name (behind front w) ≡ state_behind front (start library name w) }
    ensures steps { (library : Library) (n : ℕ) (s : State) (front : List ℕ) → steps library n (state_behind front s) ≡ state_behind front (steps library n s) }
    ensures runs { (library : Library) (name : Name) (cells bytes : ℕ) (ports : List PortState) (n : ℕ) (front : List ℕ)
        → run_of (steps library n (start library name (behind front (new_world cells bytes ports)))) ≡ run_behind front (run library name cells bytes ports n) }
{}

/// Where a step of such a run puts a text, the output of every longer run begins with what the run had printed before that step,
/// and the text.
pub fn put_law()
    ensures { (library : Library) (name : Name) (cells bytes : ℕ) (ports : List PortState) (n most : ℕ) (front text : List ℕ) → n < most
        → (run_of (step library (steps library n (start library name (behind front (new_world cells bytes ports)))))).world.output
        ≡ (run_of (steps library n (start library name (behind front (new_world cells bytes ports))))).world.output ++ text
        → Starts ((run library name cells bytes ports n).world.output ++ text) (run library name cells bytes ports most).world.output }
{
    runs_law();
    prefix_law();
}
