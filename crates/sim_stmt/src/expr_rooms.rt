//! The machine follows expressions, to a depth of nested evaluations.

ghost use Rattle.std.specs.Prelude.{ℕ};
ghost use Rattle.bc_scheme.specs.mpy_base.Val.{PlainWorld};
ghost use Rattle.bc_scheme.specs.bc_machine.Library.{Name, Library};
ghost use Rattle.bc_scheme.specs.bc_machine.State.{State};
ghost use Rattle.bc_scheme.specs.bc_machine.Step.{step};
ghost use Rattle.bc_scheme.specs.bc_machine.Machine.{start, steps};
ghost use Rattle.sim_stmt.specs.Rooms.{StateRoom};

/// Each frame of a run has a slot for each local of its code.
pub fn rooms_law()
    ensures steps { (library : Library) (s : State) → StateRoom library s → StateRoom library (step library s) }
    ensures runs { (library : Library) (name : Name) (w : PlainWorld) (n : ℕ) → StateRoom library (steps library n (start library name w)) }
{}
