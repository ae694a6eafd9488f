//! Membership.

ghost use Rattle.std.specs.Prelude.{map, is_some};
ghost use Rattle.prim_faults.specs.mpy_base.World.{ADict, IsA, pairs_at};
ghost use Rattle.prim_faults.specs.mpy_base.Val.{Truth};
ghost use Rattle.prim_faults.specs.arena_heap.Values.{Leads};
ghost use Rattle.prim_faults.specs.arena_objects.Iterables.{items_in};
ghost use Rattle.prim_faults.specs.py_values.Shown.{Text, shown};
ghost use Rattle.prim_faults.specs.py_values.Keys.{value_of_key};
ghost use Rattle.prim_faults.specs.py_primitives.Outcome.{gives, after_walk};
ghost use Rattle.prim_faults.specs.py_primitives.Operators.{op_contains as contains_of, contains_equal, contains_shown, with_key_of};
ghost use Rattle.prim_faults.specs.Sights.{Tells, TellsAll, Does, CountsUpTo};

use crate::faults::unsupported;
use crate::parts::has_part;
use crate::ranges::has_number;
use arena_heap::{Arena, Constants, DictNo, Value};
use prim_faults::{
    Fault, Look, SpecialMethod, Stop, contains, dict_get, is_key, look_at, type_of, visits_contains,
};

/// Whether a list or tuple has an item that equals a value.
fn has_item<C: Constants>(arena: &Arena, consts: &C, v: Value, over: Value) -> Result<Value, Stop>
    requires v_leads { Leads arena.now.objects v }
    requires over_leads { Leads arena.now.objects over }
    requires v_told { Tells C.Constants consts.now v }
    requires over_told { Tells C.Constants consts.now over }
    requires all_told { TellsAll C.Constants consts.now arena.now }
    ensures { Does C.Constants consts.now arena.now arena.now result
        (λ heap see. after_walk heap (contains_equal heap (see.value v) (map see.value (items_in see.tuples arena.now over)))
        (λ found. gives (Truth found) heap)) }
{
    match contains(arena, consts, over, v) {
        Some(found) => Ok(Value::Bool(found)),
        None => Err(Stop::Raises(Fault::TooDeep)),
    }
}

/// Whether a dict has a key.
fn has_key<C: Constants>(arena: &Arena, consts: &C, v: Value, d: DictNo) -> Result<Value, Stop>
    requires dict { IsA arena.now.objects ADict d.cell }
    requires v_leads { Leads arena.now.objects v }
    requires v_told { Tells C.Constants consts.now v }
    requires all_told { TellsAll C.Constants consts.now arena.now }
    ensures { Does C.Constants consts.now arena.now arena.now result
        (λ heap see. with_key_of heap (see.value v)
        (gives (Truth (is_some (value_of_key heap (map see.pair (pairs_at arena.now d.cell)) (see.value v)))) heap)) }
{
    if !is_key(arena, v) {
        return Err(Stop::Raises(Fault::UnsupportedOne {
            method: SpecialMethod::Hash,
            operand: type_of(arena, v),
        }));
    }
    arena.sound_law();
    Ok(Value::Bool(dict_get(arena, consts, d, v).is_some()))
}

/// Whether a str has a str in it. Nothing else can be.
fn has_text<C: Constants>(
    arena: &Arena,
    consts: &C,
    v: Value,
    container: Value,
    bytes: &[u8],
) -> Result<Value, Stop>
    requires v_leads { Leads arena.now.objects v }
    requires container_leads { Leads arena.now.objects container }
    requires v_told { Tells C.Constants consts.now v }
    requires container_told { Tells C.Constants consts.now container }
    requires all_told { TellsAll C.Constants consts.now arena.now }
    ensures { Does C.Constants consts.now arena.now arena.now result
        (λ heap see. contains_shown heap (see.value v) (see.value container) (shown heap (see.value v)) (Text bytes.now)) }
{
    match look_at(arena, consts, v) {
        Look::Text(part) => Ok(Value::Bool(has_part(bytes, part))),
        _ => Err(Stop::Raises(unsupported(arena, SpecialMethod::Contains, container, v))),
    }
}

/// `in`: whether a container has a value.
pub fn op_contains<C: Constants>(
    arena: &Arena,
    consts: &C,
    v: Value,
    container: Value,
) -> Result<Value, Stop>
    requires v_leads { Leads arena.now.objects v }
    requires container_leads { Leads arena.now.objects container }
    requires v_told { Tells C.Constants consts.now v }
    requires container_told { Tells C.Constants consts.now container }
    requires all_told { TellsAll C.Constants consts.now arena.now }
    ensures { Does C.Constants consts.now arena.now arena.now result (λ heap see. contains_of heap (see.value v) (see.value container)) }
{
    match look_at(arena, consts, container) {
        Look::Tuple(_) => has_item(arena, consts, v, container),
        Look::Items(_) => has_item(arena, consts, v, container),
        Look::Pairs(d) => has_key(arena, consts, v, d),
        Look::Range { start, stop, step } => {
            Ok(Value::Bool(has_number(arena, v, start, stop, step)))
        }
        Look::Text(bytes) => has_text(arena, consts, v, container, bytes),
        _ => Err(Stop::Raises(unsupported(arena, SpecialMethod::Contains, container, v))),
    }
}

/// How many visits `op_contains` makes, `most` at most. It goes no further.
pub fn visits_op_contains<C: Constants>(
    arena: &Arena,
    consts: &C,
    v: Value,
    container: Value,
    most: u64,
) -> u64
    requires v_leads { Leads arena.now.objects v }
    requires container_leads { Leads arena.now.objects container }
    requires v_told { Tells C.Constants consts.now v }
    requires container_told { Tells C.Constants consts.now container }
    requires all_told { TellsAll C.Constants consts.now arena.now }
    ensures { CountsUpTo C.Constants consts.now result most arena.now (λ heap see. contains_of heap (see.value v) (see.value container)) }
{
    match look_at(arena, consts, container) {
        Look::Tuple(_) => visits_contains(arena, consts, container, v, most),
        Look::Items(_) => visits_contains(arena, consts, container, v, most),
        _ => 0,
    }
}
