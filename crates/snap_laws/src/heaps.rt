//! What a program sees of values whose objects have other numbers.

ghost use Rattle.std.specs.Prelude.{◌≡◌, ℕ, List};
ghost use Rattle.bc_machine.specs.mpy_base.Val.{Val, At};
ghost use Rattle.bc_machine.specs.mpy_base.Weights.{used, with_made, with_used};
ghost use Rattle.bc_machine.specs.mpy_base.World.{Object, with_object};
ghost use Rattle.bc_machine.specs.py_values.Shown.{PlainHeap, shown, truth};
ghost use Rattle.bc_machine.specs.py_values.Equality.{equal};
ghost use Rattle.snap_laws.specs.Renamed.{Renaming, IsRenamed, value, object_as, shown_as};

/// What a program sees of a value is what it sees of the renamed one, and truth and equality are the same.
pub fn sight_law()
    ensures seen { (r : Renaming) (h k : PlainHeap) (v : Val) → IsRenamed r h k → shown k (value r v) ≡ shown_as r (shown h v) }
    ensures truth { (r : Renaming) (h k : PlainHeap) (v : Val) → IsRenamed r h k → truth k (value r v) ≡ truth h v }
    ensures equal { (r : Renaming) (h k : PlainHeap) (a b : Val) → IsRenamed r h k → equal k (value r a) (value r b) ≡ equal h a b }
{}

/// Heaps stay so where an object is put into the place of one, where cells are used, and where one is made, which has the same number in
/// both.
pub fn heap_law()
    ensures set { (r : Renaming) (h k : PlainHeap) (n : ℕ) (o : Object Val (List ℕ)) → IsRenamed r h k
        → IsRenamed r (with_object h n o) (with_object k (r.to n) (object_as r o)) }
    ensures used { (r : Renaming) (h k : PlainHeap) (cells : ℕ) → IsRenamed r h k → IsRenamed r (with_used h cells) (with_used k cells) }
    ensures made { (r : Renaming) (h k : PlainHeap) (o : Object Val (List ℕ)) → IsRenamed r h k → IsRenamed r (with_made h o) (with_made k (object_as r o)) }
    ensures number { (r : Renaming) (h k : PlainHeap) → IsRenamed r h k → value r (At (used h)) ≡ At (used k) }
{}
