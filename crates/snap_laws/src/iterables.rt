//! Iterables over heaps whose objects have other numbers.

ghost use Rattle.std.specs.Prelude.{◌≡◌, ℕ, map};
ghost use Rattle.std.specs.Option.{option_map};
ghost use Rattle.bc_machine.specs.mpy_base.Val.{Val};
ghost use Rattle.bc_machine.specs.py_values.Shown.{PlainHeap};
ghost use Rattle.bc_machine.specs.py_primitives.Iterables.{items_in, length_of, item_of, use_iter};
ghost use Rattle.bc_machine.specs.py_primitives.Uses.{unpack};
ghost use Rattle.snap_laws.specs.Renamed.{Renaming, IsRenamed, value};
ghost use Rattle.snap_laws.specs.Outcomes.{IsOutcome};

/// The items of a value and their count are the same, with other numbers; so is each item, and what an unpacking gives.
pub fn iterables_law()
    ensures items { (r : Renaming) (h k : PlainHeap) (v : Val) → IsRenamed r h k → items_in k (value r v) ≡ option_map (map (value r)) (items_in h v) }
    ensures length { (r : Renaming) (h k : PlainHeap) (v : Val) → IsRenamed r h k → length_of k (value r v) ≡ length_of h v }
    ensures item { (r : Renaming) (h k : PlainHeap) (v : Val) (at : ℕ) → IsRenamed r h k → IsOutcome r (value r) (item_of h v at) (item_of k (value r v) at) }
    ensures iterable { (r : Renaming) (h k : PlainHeap) (v : Val) → IsRenamed r h k → IsOutcome r (value r) (use_iter h v) (use_iter k (value r v)) }
    ensures unpacked { (r : Renaming) (h k : PlainHeap) (want : ℕ) (v : Val) → IsRenamed r h k
        → IsOutcome r (map (value r)) (unpack h want v) (unpack k want (value r v)) }
{}
