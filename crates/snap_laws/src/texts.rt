//! Texts of values over heaps whose objects have other numbers.

ghost use Rattle.std.specs.Prelude.{◌≡◌};
ghost use Rattle.bc_machine.specs.mpy_base.Val.{Val};
ghost use Rattle.bc_machine.specs.py_values.Shown.{PlainHeap};
ghost use Rattle.bc_machine.specs.py_primitives.Texts.{str_of, repr_of};
ghost use Rattle.snap_laws.specs.Renamed.{Renaming, IsRenamed, value};

/// No text tells the number of an object.
pub fn texts_law()
    ensures str { (r : Renaming) (h k : PlainHeap) (v : Val) → IsRenamed r h k → str_of k (value r v) ≡ str_of h v }
    ensures repr { (r : Renaming) (h k : PlainHeap) (v : Val) → IsRenamed r h k → repr_of k (value r v) ≡ repr_of h v }
{}
