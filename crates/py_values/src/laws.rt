//! Laws of values in a heap.

ghost use Rattle.std.specs.Prelude.{◌≡◌, ℤ, List, Some, IsSome, false};
ghost use Rattle.std.specs.Ordering.{int_eq};
ghost use Rattle.mpy_base.specs.Val.{Val};
ghost use Rattle.py_values.specs.Shown.{PlainHeap, Number, shown};
ghost use Rattle.py_values.specs.Keys.{key_of, is_same_key, value_of_key, with_key, without_key};
ghost use Rattle.py_values.specs.Equality.{equal};

/// The law of dict keys: what is set under a key is found under it, and every other key keeps its value, also where one is
/// deleted.
pub fn keys_law()
    ensures set { (heap : PlainHeap) (pairs : List (Val × Val)) (key v : Val) → IsSome (key_of heap key)
        → value_of_key heap (with_key heap pairs key v) key ≡ Some v }
    ensures others { (heap : PlainHeap) (pairs : List (Val × Val)) (key other v : Val)
        → is_same_key (key_of heap key) (key_of heap other) ≡ false
        → value_of_key heap (with_key heap pairs key v) other ≡ value_of_key heap pairs other }
    ensures deleted { (heap : PlainHeap) (pairs : List (Val × Val)) (key other : Val)
        → is_same_key (key_of heap key) (key_of heap other) ≡ false
        → value_of_key heap (without_key heap pairs key) other ≡ value_of_key heap pairs other }
{}

/// Numbers, of which bools are two, are equal by their value, and their comparison is one visit.
pub fn equality_law()
    ensures { (heap : PlainHeap) (a b : Val) (x y : ℤ) → shown heap a ≡ Number x → shown heap b ≡ Number y
        → equal heap a b ≡ record { answer = Some (int_eq x y); visits = 1 } }
{}
