//! Calls of built-ins over heaps whose objects have other numbers.

ghost use Rattle.std.specs.Prelude.{List, map};
ghost use Rattle.bc_machine.specs.mpy_base.declared.builtin.Builtin.{Builtin};
ghost use Rattle.bc_machine.specs.mpy_base.Val.{Val};
ghost use Rattle.bc_machine.specs.py_values.Shown.{PlainHeap};
ghost use Rattle.bc_machine.specs.py_primitives.Faults.{Fault};
ghost use Rattle.bc_machine.specs.py_primitives.Outcome.{making_fault};
ghost use Rattle.bc_machine.specs.py_primitives.Calls.{call};
ghost use Rattle.snap_laws.specs.Renamed.{Renaming, IsRenamed, value, pair};
ghost use Rattle.snap_laws.specs.Outcomes.{IsOutcome, fault_as};

/// A call of a built-in does the same.
pub fn calls_law()
    ensures { (r : Renaming) (h k : PlainHeap) (b : Builtin) (args : List Val) (keys : List (Val × Val)) → IsRenamed r h k
        → IsOutcome r (value r) (call h b args keys) (call k b (map (value r) args) (map (pair r) keys)) }
{}

/// The exception of a fault is made alike.
pub fn faults_law()
    ensures { (r : Renaming) (h k : PlainHeap) (fault : Fault) → IsRenamed r h k
        → IsOutcome r (value r) (making_fault h fault) (making_fault k (fault_as r fault)) }
{}
