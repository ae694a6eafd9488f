//! Whether two values are one thing: numbers and bools of one type by value, strs by bytes, constant tuples item by item,
//! and all else by identity.

ghost use Rattle.std.specs.Prelude.{◌≡◌, ◌<◌, ℕ, List, Option, Some, length, map, slice_get};
ghost use Rattle.arena_objects.specs.arena_heap.declared.value.Value.{Value as Item};
ghost use Rattle.arena_objects.specs.arena_heap.declared.value.StrNo.{StrNo as TextName};
ghost use Rattle.arena_objects.specs.arena_heap.declared.value.ConstNo.{ConstNo as TupleName};
ghost use Rattle.py_primitives.specs.mpy_base.Val.{Truth, Int};
ghost use Rattle.arena_objects.specs.arena_heap.Values.{Leads};
ghost use Rattle.arena_objects.specs.arena_heap.Constants.{IsTold, NestsWithin};
ghost use Rattle.arena_objects.specs.Iterables.{items_in};
ghost use Rattle.py_primitives.specs.py_values.Shown.{PlainHeap, shown};
ghost use Rattle.py_primitives.specs.Operators.{is_one as is_one_thing, is_one_shown};
ghost use Rattle.prim_walks.specs.Ones.{all_one, height, IsConstant};
ghost use Rattle.prim_walks.specs.Plain.{plain, plain_heap};

use crate::identity::is_same;
use crate::look::{Look, look_at};
use crate::ranges::is_one_number;
use arena_objects::{Arena, Constants, Value, item_count};

fn is_one_truth(x: bool, b: Value) -> bool
    ensures { (heap : PlainHeap) (texts : TextName → Option (List ℕ)) (tuples : TupleName → Option (List Item))
        → result ≡ is_one_thing heap (Truth x) (plain texts tuples b) }
{
    match b {
        Value::Bool(y) => x == y,
        _ => false,
    }
}

fn is_one_int(x: i32, b: Value) -> bool
    ensures { (heap : PlainHeap) (texts : TextName → Option (List ℕ)) (tuples : TupleName → Option (List Item))
        → result ≡ is_one_thing heap (Int x) (plain texts tuples b) }
{
    match b {
        Value::Int(y) => is_one_number(x, y),
        _ => false,
    }
}

/// Whether two values are one by their bytes, if they are strs, or else by identity.
fn is_one_shown_so<C: Constants>(arena: &Arena, consts: &C, a: Value, b: Value) -> bool
    requires a_leads { Leads arena.now.objects a }
    requires b_leads { Leads arena.now.objects b }
    requires a_told { IsTold (C.text_of consts.now) (C.items_of consts.now) a }
    requires b_told { IsTold (C.text_of consts.now) (C.items_of consts.now) b }
    ensures { result ≡ is_one_shown (plain (C.text_of consts.now) (C.items_of consts.now) a)
        (plain (C.text_of consts.now) (C.items_of consts.now) b)
        (shown (plain_heap (C.text_of consts.now) (C.items_of consts.now) arena.now)
        (plain (C.text_of consts.now) (C.items_of consts.now) a))
        (shown (plain_heap (C.text_of consts.now) (C.items_of consts.now) arena.now)
        (plain (C.text_of consts.now) (C.items_of consts.now) b)) }
{
    let same = is_same(a, b);
    let other = look_at(arena, consts, b);
    match look_at(arena, consts, a) {
        Look::Text(s) => match other {
            Look::Text(t) => s == t,
            _ => same,
        },
        _ => same,
    }
}

/// Whether two values are one.
#[cycle(is_one)]
pub fn is_one<C: Constants>(arena: &Arena, consts: &C, a: Value, b: Value) -> bool
    requires a_leads { Leads arena.now.objects a }
    requires b_leads { Leads arena.now.objects b }
    requires a_told { IsTold (C.text_of consts.now) (C.items_of consts.now) a }
    requires b_told { IsTold (C.text_of consts.now) (C.items_of consts.now) b }
    ensures { result ≡ is_one_thing (plain_heap (C.text_of consts.now) (C.items_of consts.now) arena.now)
        (plain (C.text_of consts.now) (C.items_of consts.now) a) (plain (C.text_of consts.now) (C.items_of consts.now) b) }
{
    match a {
        Value::Bool(x) => is_one_truth(x, b),
        Value::Int(x) => is_one_int(x, b),
        Value::Fixed(_) => is_one_tuple(arena, consts, a, b),
        Value::Empty => is_one_tuple(arena, consts, a, b),
        _ => is_one_shown_so(arena, consts, a, b),
    }
}

/// Whether a constant tuple and a value are one.
#[cycle(is_one)]
fn is_one_tuple<C: Constants>(arena: &Arena, consts: &C, a: Value, b: Value) -> bool
    requires tuple { IsConstant a }
    requires a_leads { Leads arena.now.objects a }
    requires b_leads { Leads arena.now.objects b }
    requires a_told { IsTold (C.text_of consts.now) (C.items_of consts.now) a }
    requires b_told { IsTold (C.text_of consts.now) (C.items_of consts.now) b }
    ensures { result ≡ is_one_thing (plain_heap (C.text_of consts.now) (C.items_of consts.now) arena.now)
        (plain (C.text_of consts.now) (C.items_of consts.now) a) (plain (C.text_of consts.now) (C.items_of consts.now) b) }
{
    nesting_law(consts, a);
    nesting_law(consts, b);
    match b {
        Value::Fixed(_) => are_one(arena, consts, a, b),
        Value::Empty => are_one(arena, consts, a, b),
        _ => false,
    }
}

/// Whether two constant tuples are one, item by item.
#[cycle(is_one)]
fn are_one<C: Constants>(arena: &Arena, consts: &C, a: Value, b: Value) -> bool
    requires a_tuple { IsConstant a }
    requires b_tuple { IsConstant b }
    requires a_leads { Leads arena.now.objects a }
    requires b_leads { Leads arena.now.objects b }
    requires a_told { IsTold (C.text_of consts.now) (C.items_of consts.now) a }
    requires b_told { IsTold (C.text_of consts.now) (C.items_of consts.now) b }
    ensures { result ≡ all_one (plain_heap (C.text_of consts.now) (C.items_of consts.now) arena.now)
        (map (plain (C.text_of consts.now) (C.items_of consts.now)) (items_in (C.items_of consts.now) arena.now a))
        (map (plain (C.text_of consts.now) (C.items_of consts.now)) (items_in (C.items_of consts.now) arena.now b)) }
{
    let count = item_count(arena, consts, a);
    if count != item_count(arena, consts, b) {
        return false;
    }
    for at in 0..count {
        let x = constant_item(arena, consts, a, at);
        let y = constant_item(arena, consts, b, at);
        if !is_one(arena, consts, x, y) {
            return false;
        }
    }
    true
}

/// Constant tuples nest at most 32 deep.
fn nesting_law<C: Constants>(consts: &C, v: Value)
    requires told { IsTold (C.text_of consts.now) (C.items_of consts.now) v }
    ensures { (c : TupleName) → v ≡ Value.Fixed c → NestsWithin (C.items_of consts.now) 32 c }
{
    if let Value::Fixed(c) = v {
        let _ = consts.len(c);
    }
}

/// The item of a constant tuple at a place. It stands behind the tuple.
fn constant_item<C: Constants>(arena: &Arena, consts: &C, v: Value, at: u32) -> Value
    requires tuple { IsConstant v }
    requires told { IsTold (C.text_of consts.now) (C.items_of consts.now) v }
    requires within { at < length (items_in (C.items_of consts.now) arena.now v) }
    ensures item { slice_get (items_in (C.items_of consts.now) arena.now v) at ≡ Some result }
    ensures leads { Leads arena.now.objects result }
    ensures told { IsTold (C.text_of consts.now) (C.items_of consts.now) result }
    ensures behind { height result < height v }
{
    match v {
        Value::Fixed(c) => consts.item(c, at).unwrap(),
        _ => unreachable!(),
    }
}
