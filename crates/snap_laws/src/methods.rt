//! Calls of methods over heaps whose objects have other numbers.

ghost use Rattle.std.specs.Prelude.{List, map};
ghost use Rattle.bc_machine.specs.mpy_base.declared.builtin.Builtin.{Builtin};
ghost use Rattle.bc_machine.specs.mpy_base.Val.{Val};
ghost use Rattle.bc_machine.specs.py_values.Shown.{PlainHeap};
ghost use Rattle.bc_machine.specs.py_primitives.Methods.{call_method};
ghost use Rattle.snap_laws.specs.Renamed.{Renaming, IsRenamed, value, pair};
ghost use Rattle.snap_laws.specs.Outcomes.{IsOutcome};

/// A call of a method does the same.
pub fn methods_law()
    ensures { (r : Renaming) (h k : PlainHeap) (method : Builtin) (object : Val) (args : List Val) (keys : List (Val × Val))
        → IsRenamed r h k → IsOutcome r (value r) (call_method h method object args keys)
        (call_method k method (value r object) (map (value r) args) (map (pair r) keys)) }
{}
