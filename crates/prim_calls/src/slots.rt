//! The slots of a call's locals.

ghost use Rattle.std.specs.Prelude.{◌≡◌, ◌<◌, ◌≤◌, length, Some, slice_get};
ghost use Rattle.prim_calls.specs.Slots.{first_values, count_empty};

use arena_heap::Value;

/// The argument at a place, if there is one.
fn argument_at(args: &[Value], at: usize) -> Option<Value>
    ensures { result ≡ slice_get args.now at }
{
    args.get(at).copied()
}

/// The value of a slot.
pub(crate) fn slot_at(slots: &[Option<Value>], at: usize) -> Option<Value>
    requires { at < length slots.now }
    ensures { slice_get slots.now at ≡ Some result }
{
    slots[at]
}

/// The arguments go into the first slots, and the others are empty.
pub(crate) fn put_arguments(args: &[Value], slots: &mut [Option<Value>])
    requires { length args.now ≤ length slots.old }
    ensures { slots.new ≡ first_values (length slots.old) args.now }
{
    for at in 0..slots.len() {
        slots[at] = argument_at(args, at);
    }
}

/// How many slots are empty.
pub(crate) fn empty_slots(slots: &[Option<Value>]) -> usize
    ensures count { result ≡ count_empty slots.now }
    ensures few { result ≤ length slots.now }
{
    let mut count = 0;
    for slot in slots {
        if slot.is_none() {
            count += 1;
        }
    }
    count
}
