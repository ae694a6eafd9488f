//! What each state of a run keeps, and a reader of saved states asks.

ghost use Rattle.std.specs.Prelude.{ℕ, List};
ghost use Rattle.bc_machine.specs.mpy_base.World.{PortState};
ghost use Rattle.bc_machine.specs.mpy_base.Val.{PlainWorld};
ghost use Rattle.bc_machine.specs.py_effects.Ends.{new_world};
ghost use Rattle.bc_machine.specs.Library.{Name, Library};
ghost use Rattle.bc_machine.specs.State.{State};
ghost use Rattle.bc_machine.specs.Step.{step};
ghost use Rattle.bc_machine.specs.Machine.{start, steps};
ghost use Rattle.bc_machine.specs.Growth.{world_of};
ghost use Rattle.snap_laws.specs.Filled.{AreFilled, HoldsBytes};
ghost use Rattle.snap_laws.specs.Kept.{WaitsWell, IsPaid};

/// Each frame that waits for a call stands at CALL_FUNCTION or CALL_METHOD, and each that waits for a module at IMPORT_NAME: so it is in
/// the first state of a run, behind a step of a state where it is so, and in each state of a run. The library needn't be verified.
pub fn waits_law()
    ensures start { (library : Library) (name : Name) (w : PlainWorld) → WaitsWell library (start library name w) }
    ensures step { (library : Library) (s : State) → WaitsWell library s → WaitsWell library (step library s) }
    ensures run { (library : Library) (name : Name) (w : PlainWorld) (n : ℕ) → WaitsWell library (steps library n (start library name w)) }
{}

/// The steps that are paid on the running instruction are among those that it takes before it acts, by the same three ways.
pub fn paid_law()
    ensures start { (library : Library) (name : Name) (w : PlainWorld) → IsPaid library (start library name w) }
    ensures step { (library : Library) (s : State) → IsPaid library s → IsPaid library (step library s) }
    ensures run { (library : Library) (name : Name) (w : PlainWorld) (n : ℕ) → IsPaid library (steps library n (start library name w)) }
{}

/// No tuple and no text of the heap is empty: so it is behind the start of a run and behind each step where it was so before, and in each
/// state of a run in a new world.
pub fn filled_law()
    ensures start { (library : Library) (name : Name) (w : PlainWorld) → AreFilled w.heap → AreFilled (world_of (start library name w)).heap }
    ensures step { (library : Library) (s : State) → AreFilled (world_of s).heap → AreFilled (world_of (step library s)).heap }
    ensures run { (library : Library) (name : Name) (cells bytes : ℕ) (ports : List PortState) (n : ℕ)
        → AreFilled (world_of (steps library n (start library name (new_world cells bytes ports)))).heap }
{}

/// The texts of the heap have together no more bytes than are used, by the same three ways.
pub fn bytes_law()
    ensures start { (library : Library) (name : Name) (w : PlainWorld) → HoldsBytes w.heap → HoldsBytes (world_of (start library name w)).heap }
    ensures step { (library : Library) (s : State) → HoldsBytes (world_of s).heap → HoldsBytes (world_of (step library s)).heap }
    ensures run { (library : Library) (name : Name) (cells bytes : ℕ) (ports : List PortState) (n : ℕ)
        → HoldsBytes (world_of (steps library n (start library name (new_world cells bytes ports)))).heap }
{}
