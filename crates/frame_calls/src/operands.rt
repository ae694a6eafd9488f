//! The operands of a call.

ghost use Rattle.std.specs.Prelude.{◌≡◌, ◌+◌, ◌*◌, ◌^◌, ◌<◌, ◌≤◌, ℕ, List, [], ◌∷◌, ◌++◌, length, map, drop, Option, Some, IfOk, All, slice_get};
ghost use Rattle.std.specs.Vec.{vec_capacity};
ghost use Rattle.mpy_base.specs.World.{Objects};
ghost use Rattle.frame_moves.specs.arena_heap.declared.value.Value.{Value as Item};
ghost use Rattle.frame_moves.specs.arena_heap.declared.value.StrNo.{StrNo as TextName};
ghost use Rattle.frame_moves.specs.arena_heap.declared.value.ConstNo.{ConstNo as TupleName};
ghost use Rattle.frame_calls.specs.Known.{IsKnownSlot, AreKnown};
ghost use Rattle.frame_calls.specs.Operands.{running_slots, value_in, values_in, paired, args_in, keys_in, operands_count};

use arena_heap::Value;
use frame_moves::{Frames, Slot};
use mpy_base::NoMemory;
use std::alloc::Global;
use std::marker::Model;

/// The operands of a call: its positional arguments, and its keyword arguments with their names. Their memory is taken once.
#[derive(Drop)]
pub struct Operands {
    args: Vec<Value>,
    keys: Vec<(Value, Value)>,
    room: u32,
}

impl Model for Operands {
    ghost use Rattle.mpy_base.specs.World.{Objects};
    ghost use Rattle.frame_moves.specs.arena_heap.declared.value.Value.{Value as Item};
    ghost use Rattle.frame_moves.specs.arena_heap.declared.value.StrNo.{StrNo as TextName};
    ghost use Rattle.frame_moves.specs.arena_heap.declared.value.ConstNo.{ConstNo as TupleName};
    ghost use Rattle.frame_calls.specs.Known.{IsKnownSlot, AreKnown};
    ghost use Rattle.frame_calls.specs.Operands.{Given};

    ghost Value = { Given };

    ghost use Rattle.frame_calls.specs.Held.{given_of, HasRoom};

    ghost view = { given_of };

    ghost invariant = { HasRoom };
}

/// The value that a slot holds as a value, or None.
#[inline(always)]
pub(crate) fn value_of(slot: Slot) -> Value
    ensures { result ≡ value_in slot }
{
    match slot {
        Slot::Value(v) => v,
        Slot::Null | Slot::Object(_) | Slot::Iter { .. } | Slot::Return(_) | Slot::Jump { .. } =>
            Value::None,
    }
}

/// A slot of the running call, counted from the top.
pub(crate) fn slot_at(frames: &Frames, i: u32) -> Slot
    requires { i < length (running_slots frames.now.calls) }
    ensures { slice_get (running_slots frames.now.calls) i ≡ Some result }
{
    frames.slot(i)
}

/// The value of a slot of the running call, counted from the top.
#[inline(always)]
pub(crate) fn value_at(frames: &Frames, i: u32) -> Value
    requires { i < length (running_slots frames.now.calls) }
    ensures { slice_get (map value_in (running_slots frames.now.calls)) i ≡ Some result }
{
    value_of(frames.slot(i))
}

/// An item more, where there is room.
pub(crate) fn add<T: Drop>(items: &mut Vec<T>, item: T)
    requires { length items.old.items < vec_capacity items.old }
    ensures items { items.new.items ≡ items.old.items ++ item ∷ [] }
    ensures room { vec_capacity items.old ≤ vec_capacity items.new }
{
    let _ = items.push(item);
}

/// The values of `count` slots below the topmost `above`, the lowest first.
#[inline(always)]
fn fill_args(frames: &Frames, above: u32, count: u32, args: &mut Vec<Value>)
    requires there { above + count ≤ length (running_slots frames.now.calls) }
    requires few { above + count < 2 ^ 32 }
    requires room { count ≤ vec_capacity args.old }
    ensures args { args.new.items ≡ values_in count (drop above (running_slots frames.now.calls)) }
    ensures room { vec_capacity args.old ≤ vec_capacity args.new }
{
    args.clear();
    let mut left = count;
    while left > 0 {
        left -= 1;
        add(args, value_at(frames, above + left));
    }
}

/// Names and values of the topmost slots, of which there are two for each pair.
fn fill_keys(frames: &Frames, pairs: u32, keys: &mut Vec<(Value, Value)>)
    requires there { 2 * pairs ≤ length (running_slots frames.now.calls) }
    requires few { 2 * pairs < 2 ^ 32 }
    requires room { pairs ≤ vec_capacity keys.old }
    ensures keys { keys.new.items ≡ paired (values_in (2 * pairs) (running_slots frames.now.calls)) }
    ensures room { vec_capacity keys.old ≤ vec_capacity keys.new }
{
    keys.clear();
    let mut left = pairs;
    while left > 0 {
        left -= 1;
        let name = value_at(frames, 2 * left + 1);
        let v = value_at(frames, 2 * left);
        add(keys, (name, v));
    }
}

impl Operands {
    /// No operands, with room for those that lie in `slots` slots. It takes all its memory here.
    pub fn new(alloc: Global, slots: u32) -> Result<Operands, NoMemory>
        ensures { IfOk result (λ o. o ≡ record { args = []; keys = []; room = slots }) }
    {
        let args = Vec::with_capacity(alloc, slots as usize)?;
        let keys = Vec::with_capacity(alloc, slots as usize)?;
        Ok(Operands {
            args,
            keys,
            room: slots,
        })
    }

    /// The positional arguments.
    pub fn positional(&self) -> &[Value]
        ensures { result.now ≡ self.now.args }
    {
        self.args.as_slice()
    }

    /// The keyword arguments: names and values.
    pub fn keywords(&self) -> &[(Value, Value)]
        ensures { result.now ≡ self.now.keys }
    {
        self.keys.as_slice()
    }

    /// Copies the operands that an instruction with this number has on top of the running call's slots. What was held is lost.
    #[inline(always)]
    pub fn take(&mut self, frames: &Frames, number: u32)
        requires there { operands_count number ≤ length (running_slots frames.now.calls) }
        requires room { operands_count number ≤ self.old.room }
        ensures taken { self.new ≡ record self.old {
          args = args_in number (running_slots frames.now.calls);
          keys = keys_in number (running_slots frames.now.calls);
        } }
        ensures few { length self.new.args < 256 }
        ensures known { (texts : TextName → Option (List ℕ)) (tuples : TupleName → Option (List Item)) (objects : Objects Item ℕ)
            → All (IsKnownSlot texts tuples objects) (running_slots frames.now.calls) → AreKnown texts tuples objects self.new }
    {
        let pairs = number / 256;
        fill_args(frames, 2 * pairs, number % 256, &mut self.args);
        fill_keys(frames, pairs, &mut self.keys);
    }
}
