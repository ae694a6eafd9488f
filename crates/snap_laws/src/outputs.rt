//! What is printed over heaps whose objects have other numbers, and what ports are told.

ghost use Rattle.std.specs.Prelude.{List, map};
ghost use Rattle.bc_machine.specs.mpy_base.declared.builtin.Builtin.{Builtin};
ghost use Rattle.bc_machine.specs.mpy_base.World.{PortState};
ghost use Rattle.bc_machine.specs.mpy_base.Val.{Val};
ghost use Rattle.bc_machine.specs.py_values.Shown.{PlainHeap};
ghost use Rattle.bc_machine.specs.py_primitives.Output.{printed, call_port};
ghost use Rattle.snap_laws.specs.Renamed.{Renaming, IsRenamed, value, pair};
ghost use Rattle.snap_laws.specs.Outcomes.{IsOutcome, IsPortOutcome};

/// The same bytes are printed, and the ports are told the same.
pub fn output_law()
    ensures printed { (r : Renaming) (h k : PlainHeap) (args : List Val) (keys : List (Val × Val)) → IsRenamed r h k
        → IsOutcome r (λ bytes. bytes) (printed h args keys) (printed k (map (value r) args) (map (pair r) keys)) }
    ensures ports { (r : Renaming) (h k : PlainHeap) (ports : List PortState) (b : Builtin) (args : List Val) (keys : List (Val × Val))
        → IsRenamed r h k → IsPortOutcome r (call_port h ports b args keys) (call_port k ports b (map (value r) args) (map (pair r) keys)) }
{}
