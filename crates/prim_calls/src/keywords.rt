//! Keyword arguments put into the slots of parameters by name.

ghost use Rattle.std.specs.Prelude.{◌≡◌, ◌<◌, length, map, Ok, IfSome, option_copied, bytes_eq, position, slice_get, option_and_then};
ghost use Rattle.prim_methods.specs.arena_heap.Values.{IsStr};
ghost use Rattle.prim_methods.specs.arena_objects.Iterables.{spelled};
ghost use Rattle.prim_types.specs.py_values.Shown.{shown};
ghost use Rattle.prim_types.specs.py_primitives.Methods.{str_in};
ghost use Rattle.prim_outputs.specs.py_effects.Calling.{filled, one_key, with_keys};
ghost use Rattle.prim_methods.specs.prim_faults.Sights.{under, sight, Knows, KnowsPairs, KnowsStr};
ghost use Rattle.prim_calls.specs.Binding.{name_text, plain_slots, AreKnown, plain_bound, IsKnownBound};

use crate::slots::slot_at;
use arena_heap::{Arena, Constants, StrNo, Value};
use arena_objects::text_bytes;
use prim_builtins::{Fault, name_bytes};

/// Whether a parameter has this name.
fn is_named<C: Constants>(consts: &C, param: StrNo, name: &[u8]) -> bool
    ensures { result ≡ bytes_eq name.now (name_text (C.text_of consts.now) param) }
{
    name == name_bytes(consts, param)
}

/// The place of the parameter that has this name.
fn place_of<C: Constants>(consts: &C, params: &[StrNo], name: &[u8]) -> Option<usize>
    ensures place { result ≡ position (bytes_eq name.now) (map (name_text (C.text_of consts.now)) params.now) }
    ensures within { IfSome result (λ at. at < length params.now) }
{
    for at in 0..params.len() {
        if is_named(consts, params[at], name) {
            return Some(at);
        }
    }
    None
}

/// The bytes of a str. Other values have none.
fn str_of<'a, C: Constants>(arena: &'a Arena, consts: &'a C, v: Value) -> Option<&'a [u8]>
    requires { Knows C.Constants consts.now arena.now v }
    ensures shown { let see = sight C.Constants consts.now in option_copied result ≡ str_in (shown (see.heap arena.now) (see.value v)) }
    ensures str { IfSome result (λ _. IsStr v) }
    ensures spelled { IfSome result (λ bytes. bytes.now ≡ spelled (C.text_of consts.now) arena.now v) }
{
    match v {
        Value::Str(_) | Value::Text(_) => Some(text_bytes(arena, consts, v)),
        Value::Fixed(_) => None,
        _ => None,
    }
}

/// A value goes into a slot, unless it has one already.
fn fill_slot<C: Constants>(
    arena: &Arena,
    _consts: &C,
    slots: &mut [Option<Value>],
    at: usize,
    name: Value,
    v: Value,
) -> Result<(), Fault>
    requires within { at < length slots.old }
    requires known_slots { under C.Constants _consts.now AreKnown arena.now.objects slots.old }
    requires name { KnowsStr C.Constants _consts.now arena.now name }
    requires value { Knows C.Constants _consts.now arena.now v }
    ensures filled { let see = sight C.Constants _consts.now in plain_bound see.texts see.tuples arena.now slots.new result
        ≡ filled (plain_slots see.texts see.tuples slots.old) at (see.bytes arena.now name) (see.value v)
        (option_and_then (λ old. old) (slice_get (plain_slots see.texts see.tuples slots.old) at)) }
    ensures known { under C.Constants _consts.now IsKnownBound arena.now.objects slots.new result }
{
    match slot_at(slots, at) {
        Some(_) => Err(Fault::RepeatedKeyword(name)),
        None => {
            slots[at] = Some(v);
            Ok(())
        }
    }
}

/// A keyword argument goes into the slot of its parameter.
fn put_keyword<C: Constants>(
    arena: &Arena,
    consts: &C,
    params: &[StrNo],
    slots: &mut [Option<Value>],
    name: Value,
    v: Value,
) -> Result<(), Fault>
    requires slots { length slots.old ≡ length params.now }
    requires known_slots { under C.Constants consts.now AreKnown arena.now.objects slots.old }
    requires name { Knows C.Constants consts.now arena.now name }
    requires value { Knows C.Constants consts.now arena.now v }
    ensures put { let see = sight C.Constants consts.now in plain_bound see.texts see.tuples arena.now slots.new result
        ≡ one_key (map (name_text see.texts) params.now) (plain_slots see.texts see.tuples slots.old) (see.value v)
        (shown (see.heap arena.now) (see.value name)) }
    ensures known { under C.Constants consts.now IsKnownBound arena.now.objects slots.new result }
{
    let Some(text) = str_of(arena, consts, name) else {
        return Err(Fault::KeywordNotAStr);
    };
    match place_of(consts, params, text) {
        Some(at) => fill_slot(arena, consts, slots, at, name, v),
        None => Err(Fault::UnknownKeyword(name)),
    }
}

/// Keyword arguments go into the slots of their parameters, from left to right, up to the first that is refused.
pub(crate) fn put_keywords<C: Constants>(
    arena: &Arena,
    consts: &C,
    params: &[StrNo],
    slots: &mut [Option<Value>],
    keys: &[(Value, Value)],
) -> Result<(), Fault>
    requires slots { length slots.old ≡ length params.now }
    requires known_slots { under C.Constants consts.now AreKnown arena.now.objects slots.old }
    requires known { KnowsPairs C.Constants consts.now arena.now keys.now }
    ensures put { let see = sight C.Constants consts.now in plain_bound see.texts see.tuples arena.now slots.new result
        ≡ with_keys (see.heap arena.now) (map (name_text see.texts) params.now) (Ok (plain_slots see.texts see.tuples slots.old))
        (map see.pair keys.now) }
    ensures known { under C.Constants consts.now IsKnownBound arena.now.objects slots.new result }
{
    for pair in keys {
        let (name, v) = *pair;
        match put_keyword(arena, consts, params, slots, name, v) {
            Ok(()) => {}
            Err(fault) => return Err(fault),
        }
    }
    Ok(())
}
