//! The defaults of parameters.

ghost use Rattle.std.specs.Prelude.{◌≡◌, ◌<◌, ◌≤◌, ◌^◌, length, IfSome, slice_get};
ghost use Rattle.std.specs.Option.{option_or};
ghost use Rattle.prim_types.specs.py_values.Shown.{shown};
ghost use Rattle.prim_outputs.specs.py_effects.Calling.{default_items, last_slots};
ghost use Rattle.prim_methods.specs.prim_faults.Sights.{under, sight, TellsAll, Knows};
ghost use Rattle.prim_calls.specs.Binding.{plain_slot, plain_slots, AreKnown};

use crate::slots::slot_at;
use arena_heap::{Arena, Constants, Value};
use arena_objects::item_at;
use prim_walks::{Look, look_at};

/// The default at a place. What is no tuple has none.
fn default_at<C: Constants>(arena: &Arena, consts: &C, defaults: Value, at: u32) -> Option<Value>
    requires defaults { Knows C.Constants consts.now arena.now defaults }
    requires all_told { TellsAll C.Constants consts.now arena.now }
    ensures default { let see = sight C.Constants consts.now in plain_slot see.texts see.tuples result
        ≡ slice_get (default_items (shown (see.heap arena.now) (see.value defaults))) at }
    ensures known { IfSome result (Knows C.Constants consts.now arena.now) }
{
    match look_at(arena, consts, defaults) {
        Look::Tuple(count) => {
            if at < count {
                Some(item_at(arena, consts, defaults, at))
            } else {
                None
            }
        }
        _ => None,
    }
}

/// The value of a slot, and else the default at a place.
fn or_default<C: Constants>(
    arena: &Arena,
    consts: &C,
    slot: Option<Value>,
    defaults: Value,
    at: u32,
) -> Option<Value>
    requires slot { IfSome slot (Knows C.Constants consts.now arena.now) }
    requires defaults { Knows C.Constants consts.now arena.now defaults }
    requires all_told { TellsAll C.Constants consts.now arena.now }
    ensures value { let see = sight C.Constants consts.now in plain_slot see.texts see.tuples result
        ≡ option_or (plain_slot see.texts see.tuples slot)
        (slice_get (default_items (shown (see.heap arena.now) (see.value defaults))) at) }
    ensures known { IfSome result (Knows C.Constants consts.now arena.now) }
{
    match slot {
        Some(v) => Some(v),
        None => default_at(arena, consts, defaults, at),
    }
}

/// The empty ones of the last slots get their defaults; the first `before` slots stay as they are.
pub(crate) fn put_defaults<C: Constants>(
    arena: &Arena,
    consts: &C,
    defaults: Value,
    before: usize,
    slots: &mut [Option<Value>],
)
    requires before { before ≤ length slots.old }
    requires few { length slots.old < 2 ^ 32 }
    requires known_slots { under C.Constants consts.now AreKnown arena.now.objects slots.old }
    requires defaults { Knows C.Constants consts.now arena.now defaults }
    requires all_told { TellsAll C.Constants consts.now arena.now }
    ensures put { let see = sight C.Constants consts.now in plain_slots see.texts see.tuples slots.new
        ≡ last_slots before (plain_slots see.texts see.tuples slots.old) (default_items (shown (see.heap arena.now) (see.value defaults))) }
    ensures known { under C.Constants consts.now AreKnown arena.now.objects slots.new }
{
    for at in before..slots.len() {
        let place = (at - before) as u32;
        slots[at] = or_default(arena, consts, slot_at(slots, at), defaults, place);
    }
}
