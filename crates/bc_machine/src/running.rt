//! The machine that runs modules: states, and one case for each instruction.

ghost use Rattle.std.specs.Prelude.{◌≡◌, ◌≤◌, ℕ, ◌+◌, List, true};
ghost use Rattle.mpy_tree.specs.mpy_base.World.{PortState};
ghost use Rattle.mpy_tree.specs.mpy_base.Val.{PlainWorld};
ghost use Rattle.py_effects.specs.Ends.{End, is_over, new_world};
ghost use Rattle.py_effects.specs.Growth.{Prints};
ghost use Rattle.py_effects.specs.Heaps.{Sound, WorldFollows, NamesStand};
ghost use Rattle.bc_machine.specs.Library.{Name, Library};
ghost use Rattle.bc_machine.specs.State.{State, Halted};
ghost use Rattle.bc_machine.specs.Step.{step};
ghost use Rattle.bc_machine.specs.Machine.{steps, start, run};
ghost use Rattle.bc_machine.specs.Growth.{world_of, StateFits};

/// From any state, `m` steps and then `n` steps are `m + n` steps.
pub fn runs_law()
    ensures { (library : Library) (m n : ℕ) (s : State) → steps library n (steps library m s) ≡ steps library (m + n) s }
{}

/// An ended state stays, and a run that has ended is the same at every greater count of steps.
pub fn ended_law()
    ensures states { (library : Library) (n : ℕ) (end : End) (w : PlainWorld) → steps library n (Halted end w) ≡ Halted end w }
    ensures runs { (library : Library) (name : Name) (cells bytes : ℕ) (ports : List PortState) (n m : ℕ) → n ≤ m
        → is_over (run library name cells bytes ports n).end ≡ true
        → run library name cells bytes ports m ≡ run library name cells bytes ports n }
{}

/// A step takes back nothing that was printed.
pub fn prefix_law()
    ensures steps { (library : Library) (s : State) → Prints (world_of s) (world_of (step library s)) }
    ensures runs { (library : Library) (name : Name) (cells bytes : ℕ) (ports : List PortState) (n m : ℕ) → n ≤ m
        → Prints (run library name cells bytes ports n).world (run library name cells bytes ports m).world }
{}

/// Along a run the world stays sound: what is used stays used, objects stay of their kind, functions and modules keep the
/// dicts of their names, what is registered is a module with its names, and the names of each frame stand in a dict.
pub fn sound_law()
    ensures steps { (library : Library) (s : State) → Sound (world_of s) → StateFits NamesStand s
        → WorldFollows (world_of s) (world_of (step library s)) }
    ensures frames { (library : Library) (s : State) → StateFits NamesStand s → StateFits NamesStand (step library s) }
    ensures runs { (library : Library) (name : Name) (cells bytes : ℕ) (ports : List PortState) (n m : ℕ) → n ≤ m
        → WorldFollows (run library name cells bytes ports n).world (run library name cells bytes ports m).world }
    ensures run_frames { (library : Library) (name : Name) (cells bytes : ℕ) (ports : List PortState) (n : ℕ)
        → StateFits NamesStand (steps library n (start library name (new_world cells bytes ports))) }
{}
