//! Calls that instructions make.

ghost use Rattle.std.specs.Prelude.{◌≡◌, ◌⊎◌, ◌<◌, ◌≤◌, ℕ, List, ◌∷◌, suc, length, Some, All, slice_get};
ghost use Rattle.mpy_base.specs.Val.{PlainWorld};
ghost use Rattle.frame_moves.specs.bc_ops.declared.instr.Op.TheVariants as ops;
ghost use Rattle.frame_moves.specs.bc_ops.declared.instr.Instr.TheVariants as instrs;
ghost use Rattle.frame_moves.specs.arena_heap.declared.value.Value.{Value as Item};
ghost use Rattle.frame_moves.specs.py_effects.Effect.{Place};
ghost use Rattle.frame_moves.specs.bc_machine.Library.{Library, Plain};
ghost use Rattle.frame_moves.specs.bc_machine.Operations.{Operands as MachineOperands};
ghost use Rattle.frame_moves.specs.bc_machine.State as states;
ghost use Rattle.frame_moves.specs.bc_machine.Step.{call_looked, run_callee};
ghost use Rattle.frame_moves.specs.prim_faults.Sights.{under, TellsAll, world_over};
ghost use Rattle.prim_calls.specs.Callees.{plain_callee, IsKnownCallee};
ghost use Rattle.frame_moves.specs.vm_frames.declared.slot.Slot.TheVariants as slots;
ghost use Rattle.frame_moves.specs.vm_frames.Views.{slot_of};
ghost use Rattle.frame_moves.specs.Shown.{view_of};
ghost use Rattle.frame_calls.specs.Invoking.{IsBound, IsFree, HasLooked, Invokes};
ghost use Rattle.frame_calls.specs.Known.{IsKnownSlot};
ghost use Rattle.frame_calls.specs.Layouts.{Layout, tables_of};
ghost use Rattle.frame_calls.specs.Operands.{running_slots, args_in, keys_in, operands_count as operands_of};

use crate::operands::{slot_at, value_at, value_of};
use arena_heap::{Arena, Constants, Value};
use frame_moves::{Frames, Slot};
use prim_calls::{Callee, callee_of};

/// A call that an instruction makes: what is called, and how many slots it takes with its operands.
#[derive(Clone, Copy, Debug, PartialEq, Eq)]
pub struct Invocation {
    pub callee: Callee,
    pub size: u32,
}

/// How many slots the operands of an instruction with this number take.
fn operands_count(number: u32) -> u32
    ensures count { result ≡ operands_of number }
    ensures few { suc (suc result) < 4294967296 }
{
    2 * (number / 256) + number % 256
}

/// CALL_FUNCTION: a value is called that lies below its operands.
#[inline(always)]
pub fn call_function<C: Constants>(
    frames: &Frames,
    arena: &Arena,
    consts: &C,
    number: u32,
) -> Invocation
    requires callee { (v : Item) × (slice_get (running_slots frames.now.calls) (operands_of number) ≡ Some (slots.Value v)) }
    requires known { All (under C.Constants consts.now IsKnownSlot arena.now.objects) (running_slots frames.now.calls) }
    requires all_told { TellsAll C.Constants consts.now arena.now }
    ensures invokes { (layout : Layout)
        → Invokes (under C.Constants consts.now tables_of layout)
        (Plain (instrs.Num ops.CallFunction number)) result.size arena.now frames.now.calls
        (args_in number (running_slots frames.now.calls)) (keys_in number (running_slots frames.now.calls)) result.callee }
    ensures known { under C.Constants consts.now IsKnownCallee arena.now.objects result.callee }
    ensures size { result.size ≡ suc (operands_of number) }
    ensures there { result.size ≤ length (running_slots frames.now.calls) }
{
    let above = operands_count(number);
    let callee = callee_of(arena, consts, value_at(frames, above));
    Invocation {
        callee,
        size: above + 1,
    }
}

/// What is called where a look-up left these slots: a method of its object, or a value without one.
#[inline(always)]
fn looked_callee<C: Constants>(arena: &Arena, consts: &C, upper: Slot, lower: Slot) -> Callee
    requires looked { IsBound upper lower ⊎ IsFree upper lower }
    requires known_upper { under C.Constants consts.now IsKnownSlot arena.now.objects upper }
    requires known_lower { under C.Constants consts.now IsKnownSlot arena.now.objects lower }
    requires all_told { TellsAll C.Constants consts.now arena.now }
    ensures called { (layout : Layout) (library : Library) (place : Place) (paid : ℕ) (frame : states.Frame) (frames : List states.Frame)
        (w : PlainWorld) (starts : List ℕ) (o : MachineOperands) (below : List states.Slot)
        → call_looked library place paid frame frames (under C.Constants consts.now world_over w arena.now) o
        (slot_of (view_of (under C.Constants consts.now tables_of layout)) starts upper
        ∷ slot_of (view_of (under C.Constants consts.now tables_of layout)) starts lower ∷ below)
        ≡ run_callee library place paid frame frames (under C.Constants consts.now world_over w arena.now) below
        (under C.Constants consts.now plain_callee (under C.Constants consts.now world_over w arena.now) result) o.args o.keys }
    ensures known { under C.Constants consts.now IsKnownCallee arena.now.objects result }
{
    let callee = value_of(lower);
    match upper {
        Slot::Object(Some(object)) => {
            let Value::Built(method) = callee else {
                unreachable!();
            };
            Callee::Method { object, method }
        }
        Slot::Object(None) => callee_of(arena, consts, callee),
        Slot::Value(_) | Slot::Null | Slot::Iter { .. } | Slot::Return(_) | Slot::Jump { .. } => {
            unreachable!()
        }
    }
}

/// CALL_METHOD: what a look-up left below the operands is called.
pub fn call_method<C: Constants>(
    frames: &Frames,
    arena: &Arena,
    consts: &C,
    number: u32,
) -> Invocation
    requires looked { HasLooked (operands_of number) (running_slots frames.now.calls) }
    requires known { All (under C.Constants consts.now IsKnownSlot arena.now.objects) (running_slots frames.now.calls) }
    requires all_told { TellsAll C.Constants consts.now arena.now }
    ensures invokes { (layout : Layout)
        → Invokes (under C.Constants consts.now tables_of layout)
        (Plain (instrs.Num ops.CallMethod number)) result.size arena.now frames.now.calls (args_in number (running_slots frames.now.calls))
        (keys_in number (running_slots frames.now.calls)) result.callee }
    ensures known { under C.Constants consts.now IsKnownCallee arena.now.objects result.callee }
    ensures size { result.size ≡ suc (suc (operands_of number)) }
    ensures there { result.size ≤ length (running_slots frames.now.calls) }
{
    let above = operands_count(number);
    let upper = slot_at(frames, above);
    let lower = slot_at(frames, above + 1);
    let callee = looked_callee(arena, consts, upper, lower);
    Invocation {
        callee,
        size: above + 2,
    }
}
