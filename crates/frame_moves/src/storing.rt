//! A local gets a value.

ghost use Rattle.std.specs.Prelude.{◌≡◌, ◌<◌, Some, length, drop, slice_set};
ghost use Rattle.prim_raising.specs.mpy_base.Val.{PlainWorld};
ghost use Rattle.vm_frames.specs.bc_ops.declared.instr.Op.TheVariants as ops;
ghost use Rattle.vm_frames.specs.bc_ops.declared.instr.Instr.TheVariants as instrs;
ghost use Rattle.prim_raising.specs.prim_faults.arena_heap.declared.value.Value.{Value as Item};
ghost use Rattle.vm_frames.specs.declared.slot.Slot.TheVariants as slots;
ghost use Rattle.vm_frames.specs.Calls.{OfRunning, on_running};
ghost use Rattle.vm_frames.specs.bc_machine.Library.{Plain};
ghost use Rattle.frame_moves.specs.Shown.{Tables, Steps, IsNext, IsTop};

use vm_frames::{Frames, Slot};

/// STORE_FAST, in one byte or in more.
pub fn store_fast(frames: &mut Frames, n: u32, end: u32)
    requires value { (v : Item) × IsTop (slots.Value v) frames.old.calls }
    requires local { OfRunning (λ c. n < length c.locals) frames.old.calls }
    ensures short { (tables : Tables) (w : PlainWorld) → IsNext tables end frames.old.calls
        → Steps tables w (Plain (instrs.Num ops.StoreFast n)) frames.old.calls frames.new.calls }
    ensures long { (tables : Tables) (w : PlainWorld) → IsNext tables end frames.old.calls
        → Steps tables w (Plain (instrs.Num ops.StoreFastN n)) frames.old.calls frames.new.calls }
    ensures moved { (v : Item) → IsTop (slots.Value v) frames.old.calls → frames.new ≡ on_running (λ c. record c {
      at = end;
      slots = drop 1 c.slots;
      locals = slice_set c.locals n (Some v);
    }) frames.old }
{
    let Slot::Value(v) = frames.pop() else {
        unreachable!();
    };
    frames.set_local(n, Some(v));
    frames.set_offset(end);
}
