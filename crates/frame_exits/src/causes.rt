//! What a finally goes on with at its end.

ghost use Rattle.std.specs.Prelude.{◌≡◌};
ghost use Rattle.frame_moves.specs.vm_frames.declared.slot.Slot.TheVariants as slots;
ghost use Rattle.frame_exits.specs.Causes.{KeepsCause, IsCause, cause_slot};

use arena_heap::{ExcNo, Value};
use frame_moves::Slot;

/// What a finally goes on with at its end.
#[derive(Clone, Copy, Debug, PartialEq, Eq)]
pub enum Cause {
    /// The next instruction.
    Nothing,
    Exception(ExcNo),
    Return(Value),
    /// A jump to an offset, which leaves a count of entries, and takes an iterator or not.
    Jump {
        target: u32,
        entries: u8,
        iterator: bool,
    },
}

/// The cause that a value keeps.
fn cause_in(v: Value) -> Cause
    requires { IsCause v }
    ensures { slots.Value v ≡ cause_slot result }
{
    match v {
        Value::None => Cause::Nothing,
        Value::Exc(x) => Cause::Exception(x),
        Value::Bool(_)
        | Value::Int(_)
        | Value::Str(_)
        | Value::Fixed(_)
        | Value::Empty
        | Value::List(_)
        | Value::Dict(_)
        | Value::Tuple(_)
        | Value::Text(_)
        | Value::Fun(_)
        | Value::Method(_)
        | Value::Range(_)
        | Value::Module(_)
        | Value::Built(_) => unreachable!(),
    }
}

/// The cause that a slot keeps.
pub(crate) fn cause_of(slot: Slot) -> Cause
    requires { KeepsCause slot }
    ensures { slot ≡ cause_slot result }
{
    match slot {
        Slot::Value(v) => cause_in(v),
        Slot::Return(v) => Cause::Return(v),
        Slot::Jump {
            target,
            entries,
            iterator,
        } => Cause::Jump {
            target,
            entries,
            iterator,
        },
        Slot::Null | Slot::Object(_) | Slot::Iter { .. } => unreachable!(),
    }
}
