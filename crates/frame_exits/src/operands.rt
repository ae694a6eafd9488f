//! The operands of an import.

ghost use Rattle.std.specs.Prelude.{◌≡◌, ℕ, List, Option, Some, slice_get};
ghost use Rattle.frame_moves.specs.arena_heap.declared.value.StrNo.{StrNo as TextName};
ghost use Rattle.frame_moves.specs.arena_heap.declared.value.ConstNo.{ConstNo as TupleName};
ghost use Rattle.frame_moves.specs.arena_heap.declared.value.Value.{Value as Item};
ghost use Rattle.frame_moves.specs.vm_frames.declared.slot.Slot.TheVariants as slots;
ghost use Rattle.frame_moves.specs.vm_frames.Calls.{OfRunning};
ghost use Rattle.frame_moves.specs.py_values.Shown.{PlainHeap, shown};
ghost use Rattle.frame_moves.specs.bc_machine.Parts.{is_zero as is_zero_in};
ghost use Rattle.frame_moves.specs.prim_walks.Plain.{plain};

use arena_heap::Value;
use frame_moves::{Frames, Slot};

/// The value in a slot that holds one, counted from the top.
pub(crate) fn value_at(frames: &Frames, i: u32) -> Value
    requires { (v : Item) × OfRunning (λ c. slice_get c.slots i ≡ Some (slots.Value v)) frames.now.calls }
    ensures { OfRunning (λ c. slice_get c.slots i ≡ Some (slots.Value result)) frames.now.calls }
{
    let Slot::Value(v) = frames.slot(i) else {
        unreachable!();
    };
    v
}

/// Whether a value is the number 0, as which False counts.
pub(crate) fn is_zero(v: Value) -> bool
    ensures { (texts : TextName → Option (List ℕ)) (tuples : TupleName → Option (List Item)) (heap : PlainHeap)
        → result ≡ is_zero_in (shown heap (plain texts tuples v)) }
{
    match v {
        Value::Bool(b) => !b,
        Value::Int(z) => z == 0,
        _ => false,
    }
}
