//! Instructions that put one slot more on top.

ghost use Rattle.std.specs.Prelude.{◌≡◌, ◌<◌, ◌∷◌, true, false, length};
ghost use Rattle.prim_raising.specs.mpy_base.Val.{PlainWorld};
ghost use Rattle.vm_frames.specs.bc_ops.declared.instr.Op.TheVariants as ops;
ghost use Rattle.vm_frames.specs.bc_ops.declared.instr.Instr.TheVariants as instrs;
ghost use Rattle.prim_raising.specs.prim_faults.arena_heap.declared.value.Value.TheVariants as values;
ghost use Rattle.vm_frames.specs.declared.slot.Slot.TheVariants as slots;
ghost use Rattle.vm_frames.specs.Calls.{OfRunning, on_running};
ghost use Rattle.vm_frames.specs.bc_machine.Library.{Plain, Names, Loads};
ghost use Rattle.frame_moves.specs.Shown.{Tables, Steps, IsNext, value_of, text_of};
ghost use Rattle.frame_moves.specs.Stacks.{gone};

use crate::going::go_with;
use vm_frames::{Frames, Slot, StrNo, Value};

/// LOAD_CONST_NONE.
pub fn load_none(frames: &mut Frames, end: u32)
    requires { OfRunning (λ c. length c.slots < frames.old.slot_room) frames.old.calls }
    ensures steps { (tables : Tables) (w : PlainWorld) → IsNext tables end frames.old.calls
        → Steps tables w (Plain (instrs.Plain ops.LoadConstNone)) frames.old.calls frames.new.calls }
    ensures moved { frames.new ≡ on_running (λ c. gone end (slots.Value values.None ∷ c.slots) c) frames.old }
{
    go_with(frames, Slot::Value(Value::None), end);
}

/// LOAD_CONST_FALSE.
pub fn load_false(frames: &mut Frames, end: u32)
    requires { OfRunning (λ c. length c.slots < frames.old.slot_room) frames.old.calls }
    ensures steps { (tables : Tables) (w : PlainWorld) → IsNext tables end frames.old.calls
        → Steps tables w (Plain (instrs.Plain ops.LoadConstFalse)) frames.old.calls frames.new.calls }
    ensures moved { frames.new ≡ on_running (λ c. gone end (slots.Value (values.Bool false) ∷ c.slots) c) frames.old }
{
    go_with(frames, Slot::Value(Value::Bool(false)), end);
}

/// LOAD_CONST_TRUE.
pub fn load_true(frames: &mut Frames, end: u32)
    requires { OfRunning (λ c. length c.slots < frames.old.slot_room) frames.old.calls }
    ensures steps { (tables : Tables) (w : PlainWorld) → IsNext tables end frames.old.calls
        → Steps tables w (Plain (instrs.Plain ops.LoadConstTrue)) frames.old.calls frames.new.calls }
    ensures moved { frames.new ≡ on_running (λ c. gone end (slots.Value (values.Bool true) ∷ c.slots) c) frames.old }
{
    go_with(frames, Slot::Value(Value::Bool(true)), end);
}

/// LOAD_NULL.
pub fn load_null(frames: &mut Frames, end: u32)
    requires { OfRunning (λ c. length c.slots < frames.old.slot_room) frames.old.calls }
    ensures steps { (tables : Tables) (w : PlainWorld) → IsNext tables end frames.old.calls
        → Steps tables w (Plain (instrs.Plain ops.LoadNull)) frames.old.calls frames.new.calls }
    ensures moved { frames.new ≡ on_running (λ c. gone end (slots.Null ∷ c.slots) c) frames.old }
{
    go_with(frames, Slot::Null, end);
}

/// LOAD_CONST_SMALL_INT, in one byte or in more.
pub fn load_int(frames: &mut Frames, n: i32, end: u32)
    requires { OfRunning (λ c. length c.slots < frames.old.slot_room) frames.old.calls }
    ensures steps { (tables : Tables) (w : PlainWorld) → IsNext tables end frames.old.calls
        → Steps tables w (Plain (instrs.Int n)) frames.old.calls frames.new.calls }
    ensures moved { frames.new ≡ on_running (λ c. gone end (slots.Value (values.Int n) ∷ c.slots) c) frames.old }
{
    go_with(frames, Slot::Value(Value::Int(n)), end);
}

/// LOAD_CONST_STRING: the text with this number.
pub fn load_text(frames: &mut Frames, text: StrNo, end: u32)
    requires { OfRunning (λ c. length c.slots < frames.old.slot_room) frames.old.calls }
    ensures steps { (tables : Tables) (w : PlainWorld) → IsNext tables end frames.old.calls
        → Steps tables w (Names ops.LoadConstString (text_of tables text)) frames.old.calls frames.new.calls }
    ensures moved { frames.new ≡ on_running (λ c. gone end (slots.Value (values.Str text) ∷ c.slots) c) frames.old }
{
    go_with(frames, Slot::Value(Value::Str(text)), end);
}

/// LOAD_CONST_OBJ: a constant of the module.
pub fn load_object(frames: &mut Frames, v: Value, end: u32)
    requires { OfRunning (λ c. length c.slots < frames.old.slot_room) frames.old.calls }
    ensures steps { (tables : Tables) (w : PlainWorld) → IsNext tables end frames.old.calls
        → Steps tables w (Loads (value_of tables v)) frames.old.calls frames.new.calls }
    ensures moved { frames.new ≡ on_running (λ c. gone end (slots.Value v ∷ c.slots) c) frames.old }
{
    go_with(frames, Slot::Value(v), end);
}
