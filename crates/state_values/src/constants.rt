//! Constants that are known.

ghost use Rattle.std.specs.Prelude.{◌≡◌, ℕ, ℤ, List, Option, Some};
ghost use Rattle.vm_states.specs.mpy_base.World.{Objects};
ghost use Rattle.vm_states.specs.prim_names.arena_heap.declared.value.Value.{Value};
ghost use Rattle.vm_states.specs.prim_names.arena_heap.declared.value.Value.TheVariants as values;
ghost use Rattle.vm_states.specs.prim_names.arena_heap.declared.value.StrNo.{StrNo};
ghost use Rattle.vm_states.specs.prim_names.arena_heap.declared.value.ConstNo.{ConstNo};
ghost use Rattle.vm_states.specs.bc_ops.Signed.{IsSmall};
ghost use Rattle.vm_states.specs.bc_library.Constants.{object_value};
ghost use Rattle.vm_states.specs.prim_names.prim_faults.Faults.{IsKnown};
ghost use Rattle.vm_states.specs.Means.{Program, Means};

/// An object of one of a program's modules is known over each arena, and so is a small integer.
pub fn constants_law()
    ensures object { (p : Program) (objects : Objects Value ℕ) (i n : ℕ) (v : Value) → Means p → object_value p.shelf i n ≡ Some v
        → IsKnown p.tables.texts p.tables.tuples objects v }
    ensures int { (texts : StrNo → Option (List ℕ)) (tuples : ConstNo → Option (List Value)) (objects : Objects Value ℕ) (z : ℤ)
        → IsSmall z → IsKnown texts tuples objects (values.Int z) }
{}
