//! Modules that an import gives.

ghost use Rattle.std.specs.Prelude.{◌≤◌, ◌≡◌, Bool, ◌∷◌, length, drop};
ghost use Rattle.mpy_base.specs.Val.{PlainWorld};
ghost use Rattle.frame_moves.specs.bc_ops.declared.instr.Op.TheVariants as ops;
ghost use Rattle.frame_moves.specs.arena_heap.declared.value.Value.{Value as Item};
ghost use Rattle.bc_library.specs.Shelf.{Shelf};
ghost use Rattle.frame_moves.specs.bc_machine.Library.{Name, Names};
ghost use Rattle.frame_moves.specs.vm_frames.declared.slot.Slot.TheVariants as slots;
ghost use Rattle.frame_moves.specs.vm_frames.Calls.{OfRunning, on_running};
ghost use Rattle.frame_moves.specs.Shown.{Tables, IsNext, Steps};
ghost use Rattle.frame_moves.specs.Stacks.{gone};
ghost use Rattle.frame_exits.specs.declared.importing.Import.TheVariants as imports;
ghost use Rattle.frame_exits.specs.Importing.{AreOperands, IsImport};

use arena_heap::Value;
use frame_moves::{Frames, Slot};

/// The import gives a module, which goes in the place of its operands. The call goes on at `end`, behind its instruction.
pub fn put_import(frames: &mut Frames, v: Value, end: u32)
    requires { OfRunning (λ c. 2 ≤ length c.slots) frames.old.calls }
    ensures steps { (tables : Tables) (shelf : Shelf) (w : PlainWorld) (deep : Bool) (name : Name) (from level : Item) → AreOperands from level frames.old.calls
        → IsImport tables.texts tables.tuples shelf w deep name from level (imports.Put v) → IsNext tables end frames.old.calls
        → Steps tables w (Names ops.ImportName name) frames.old.calls frames.new.calls }
    ensures moved { frames.new ≡ on_running (λ c. gone end (slots.Value v ∷ drop 2 c.slots) c) frames.old }
{
    let _ = frames.pop();
    frames.set_slot(0, Slot::Value(v));
    frames.set_offset(end);
}
