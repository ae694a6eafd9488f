//! Indexes and attributes over heaps whose objects have other numbers.

ghost use Rattle.std.specs.Prelude.{◌≡◌, ℕ, List};
ghost use Rattle.bc_machine.specs.mpy_base.Val.{Val};
ghost use Rattle.bc_machine.specs.py_values.Shown.{PlainHeap};
ghost use Rattle.bc_machine.specs.py_primitives.Uses.{get_item, set_item, delete_item, attribute, get_attr, set_attr};
ghost use Rattle.snap_laws.specs.Renamed.{Renaming, IsRenamed, value};
ghost use Rattle.snap_laws.specs.Outcomes.{IsOutcome, attribute_as};

/// An item is got, set and deleted alike.
pub fn items_law()
    ensures got { (r : Renaming) (h k : PlainHeap) (v index : Val) → IsRenamed r h k
        → IsOutcome r (value r) (get_item h v index) (get_item k (value r v) (value r index)) }
    ensures put { (r : Renaming) (h k : PlainHeap) (o index v : Val) → IsRenamed r h k
        → IsOutcome r (value r) (set_item h o index v) (set_item k (value r o) (value r index) (value r v)) }
    ensures deleted { (r : Renaming) (h k : PlainHeap) (o index : Val) → IsRenamed r h k
        → IsOutcome r (value r) (delete_item h o index) (delete_item k (value r o) (value r index)) }
{}

/// An attribute is found, got and set alike.
pub fn attributes_law()
    ensures found { (r : Renaming) (h k : PlainHeap) (v : Val) (name : List ℕ) → IsRenamed r h k
        → attribute k (value r v) name ≡ attribute_as r (attribute h v name) }
    ensures got { (r : Renaming) (h k : PlainHeap) (v : Val) (name : List ℕ) → IsRenamed r h k
        → IsOutcome r (value r) (get_attr h v name) (get_attr k (value r v) name) }
    ensures put { (r : Renaming) (h k : PlainHeap) (o : Val) (name : List ℕ) (v : Val) → IsRenamed r h k
        → IsOutcome r (value r) (set_attr h o name v) (set_attr k (value r o) name (value r v)) }
{}
