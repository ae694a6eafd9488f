//! Instructions that move slots alone.

ghost use Rattle.std.specs.Prelude.{◌≡◌, ◌<◌, suc, length, drop};
ghost use Rattle.prim_raising.specs.mpy_base.Val.{PlainWorld};
ghost use Rattle.vm_frames.specs.bc_ops.declared.instr.Op.TheVariants as ops;
ghost use Rattle.vm_frames.specs.bc_ops.declared.instr.Instr.TheVariants as instrs;
ghost use Rattle.vm_frames.specs.Calls.{OfRunning, on_running};
ghost use Rattle.vm_frames.specs.bc_machine.Library.{Plain};
ghost use Rattle.frame_moves.specs.Shown.{Tables, Steps, IsNext};
ghost use Rattle.frame_moves.specs.Stacks.{gone, doubled, doubled_two, turned_two, turned_three};

use crate::going::{go_with, go_without};
use vm_frames::Frames;

/// DUP_TOP.
pub fn dup_top(frames: &mut Frames, end: u32)
    requires there { OfRunning (λ c. 0 < length c.slots) frames.old.calls }
    requires room { OfRunning (λ c. length c.slots < frames.old.slot_room) frames.old.calls }
    ensures steps { (tables : Tables) (w : PlainWorld) → IsNext tables end frames.old.calls
        → Steps tables w (Plain (instrs.Plain ops.DupTop)) frames.old.calls frames.new.calls }
    ensures moved { frames.new ≡ on_running (λ c. gone end (doubled c.slots) c) frames.old }
{
    let top = frames.slot(0);
    go_with(frames, top, end);
}

/// DUP_TOP_TWO.
pub fn dup_top_two(frames: &mut Frames, end: u32)
    requires there { OfRunning (λ c. 1 < length c.slots) frames.old.calls }
    requires room { OfRunning (λ c. suc (length c.slots) < frames.old.slot_room) frames.old.calls }
    ensures steps { (tables : Tables) (w : PlainWorld) → IsNext tables end frames.old.calls
        → Steps tables w (Plain (instrs.Plain ops.DupTopTwo)) frames.old.calls frames.new.calls }
    ensures moved { frames.new ≡ on_running (λ c. gone end (doubled_two c.slots) c) frames.old }
{
    let top = frames.slot(0);
    let second = frames.slot(1);
    frames.push(second);
    go_with(frames, top, end);
}

/// POP_TOP.
pub fn pop_top(frames: &mut Frames, end: u32)
    requires { OfRunning (λ c. 0 < length c.slots) frames.old.calls }
    ensures steps { (tables : Tables) (w : PlainWorld) → IsNext tables end frames.old.calls
        → Steps tables w (Plain (instrs.Plain ops.PopTop)) frames.old.calls frames.new.calls }
    ensures moved { frames.new ≡ on_running (λ c. gone end (drop 1 c.slots) c) frames.old }
{
    let _ = go_without(frames, end);
}

/// ROT_TWO.
pub fn rot_two(frames: &mut Frames, end: u32)
    requires { OfRunning (λ c. 1 < length c.slots) frames.old.calls }
    ensures steps { (tables : Tables) (w : PlainWorld) → IsNext tables end frames.old.calls
        → Steps tables w (Plain (instrs.Plain ops.RotTwo)) frames.old.calls frames.new.calls }
    ensures moved { frames.new ≡ on_running (λ c. gone end (turned_two c.slots) c) frames.old }
{
    let top = frames.slot(0);
    let second = frames.slot(1);
    frames.set_slot(0, second);
    frames.set_slot(1, top);
    frames.set_offset(end);
}

/// ROT_THREE.
pub fn rot_three(frames: &mut Frames, end: u32)
    requires { OfRunning (λ c. 2 < length c.slots) frames.old.calls }
    ensures steps { (tables : Tables) (w : PlainWorld) → IsNext tables end frames.old.calls
        → Steps tables w (Plain (instrs.Plain ops.RotThree)) frames.old.calls frames.new.calls }
    ensures moved { frames.new ≡ on_running (λ c. gone end (turned_three c.slots) c) frames.old }
{
    let top = frames.slot(0);
    let second = frames.slot(1);
    let third = frames.slot(2);
    frames.set_slot(0, second);
    frames.set_slot(1, third);
    frames.set_slot(2, top);
    frames.set_offset(end);
}
