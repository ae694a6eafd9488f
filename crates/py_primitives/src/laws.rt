//! Laws of primitives.

ghost use Rattle.std.specs.Prelude.{◌≡◌, ℕ, ℤ, List, Some, Ok, Err, map};
ghost use Rattle.std.specs.Ordering.{int_cmp};
ghost use Rattle.py_values.specs.mpy_base.declared.room.NoRoom.{NoRoom as Want};
ghost use Rattle.py_values.specs.mpy_base.World.{Object};
ghost use Rattle.py_values.specs.mpy_base.Weights.{Made, Refused, cells_of, bytes_of};
ghost use Rattle.py_values.specs.mpy_base.Val.{Val, At};
ghost use Rattle.py_values.specs.Shown.{PlainHeap, Number, shown};
ghost use Rattle.py_values.specs.Names.{builtin_name};
ghost use Rattle.py_primitives.specs.Builtins.{globals, global_named};
ghost use Rattle.py_primitives.specs.Order.{order};
ghost use Rattle.py_primitives.specs.Outcome.{Full, making};

/// Numbers, of which bools are two, are ordered by their value, by one visit.
pub fn order_law()
    ensures { (heap : PlainHeap) (a b : Val) (x y : ℤ) → shown heap a ≡ Number x → shown heap b ≡ Number y
        → order heap a b ≡ record { answer = Some (Ok (int_cmp x y)); visits = 1 } }
{}

/// A making gives an object that fitted, or leaves the heap as it was and tells what didn't fit.
pub fn making_law()
    ensures made { (heap : PlainHeap) (o : Object Val (List ℕ)) (v : Val) → (making heap o).answer ≡ Ok v
        → (n : ℕ) × (v ≡ At n) × Made heap (making heap o).heap n o }
    ensures refused { (heap : PlainHeap) (o : Object Val (List ℕ)) (e : Want) → (making heap o).answer ≡ Err (Full e)
        → Refused heap (making heap o).heap e (cells_of o) (bytes_of o) }
{}

/// No two built-ins that a program finds have one name.
pub fn names_law()
    ensures { map (λ b. global_named (builtin_name b)) globals ≡ map Some globals }
{}
