//! Lists that take the items of an iterable.

ghost use Rattle.std.specs.Prelude.{◌≡◌, ℕ, ◌+◌, ◌*◌, ◌^◌, ◌<◌, ◌≤◌, ◌∷◌, ◌++◌, [], length, slice_get, IfOk, IfErr, OnOk, OnErr, All};
ghost use Rattle.py_values.specs.mpy_base.World.{TextObject, AList, AText, IsA, Later, items_at, room_at, with_list};
ghost use Rattle.py_values.specs.mpy_base.Weights.{Fits, Made, Refused, list_growth};
ghost use Rattle.arena_heap.specs.Values.{Leads};
ghost use Rattle.arena_heap.specs.Constants.{IsTold};
ghost use Rattle.arena_objects.specs.Keys.{AllTold};
ghost use Rattle.arena_objects.specs.Iterables.{items_in, spelled, with_texts, texts_from, extended, extended_length, TextRefused, NotExtended};

use crate::ranges::{range_count, range_number};
use crate::strs::text_bytes;
use arena_heap::{
    Arena, Constants, ListNo, TextNo, Value, dict_at, dict_len, list_at, list_len, put_in_list,
    range_parts, reserve_list, text_fill, tuple_at, tuple_len,
};
use py_values::NoRoom;

/// How many items an iterable has. A str has none yet.
#[inline(always)]
pub fn item_count<C: Constants>(arena: &Arena, consts: &C, from: Value) -> u32
    requires leads { Leads arena.now.objects from }
    requires told { IsTold (C.text_of consts.now) (C.items_of consts.now) from }
    ensures { result ≡ length (items_in (C.items_of consts.now) arena.now from) }
{
    match from {
        Value::Fixed(c) => consts.len(c).unwrap(),
        Value::List(l) => list_len(arena, l),
        Value::Tuple(t) => tuple_len(arena, t),
        Value::Dict(d) => dict_len(arena, d),
        Value::Range(r) => {
            let (start, stop, step) = range_parts(arena, r);
            range_count(start, stop, step)
        }
        _ => 0,
    }
}

/// The item of an iterable at a place.
#[inline(always)]
pub fn item_at<C: Constants>(arena: &Arena, consts: &C, from: Value, at: u32) -> Value
    requires leads { Leads arena.now.objects from }
    requires told { IsTold (C.text_of consts.now) (C.items_of consts.now) from }
    requires all_told { AllTold (C.text_of consts.now) (C.items_of consts.now) arena.now.objects }
    requires within { at < length (items_in (C.items_of consts.now) arena.now from) }
    ensures item { slice_get (items_in (C.items_of consts.now) arena.now from) at ≡ Some result }
    ensures leads { Leads arena.now.objects result }
    ensures told { IsTold (C.text_of consts.now) (C.items_of consts.now) result }
{
    match from {
        Value::Fixed(c) => consts.item(c, at).unwrap(),
        Value::List(l) => list_at(arena, l, at).unwrap(),
        Value::Tuple(t) => tuple_at(arena, t, at).unwrap(),
        Value::Dict(d) => dict_at(arena, d, at).unwrap().0,
        Value::Range(r) => {
            let (start, stop, step) = range_parts(arena, r);
            Value::Int(range_number(start, stop, step, at))
        }
        _ => unreachable!(),
    }
}

/// The bytes of a str, and none of another value.
fn spelled_bytes<'a, C: Constants>(arena: &'a Arena, consts: &'a C, from: Value) -> &'a [u8]
    requires leads { Leads arena.now.objects from }
    requires told { IsTold (C.text_of consts.now) (C.items_of consts.now) from }
    ensures bytes { result.now ≡ spelled (C.text_of consts.now) arena.now from }
    ensures ascii { All (λ b. b < 128) result.now }
{
    match from {
        Value::Str(_) | Value::Text(_) => text_bytes(arena, consts, from),
        _ => &[],
    }
}

/// Puts the items of an iterable behind those of a list that has room for them.
fn put_items<C: Constants>(arena: &mut Arena, consts: &C, l: ListNo, from: Value)
    requires list { IsA arena.old.objects AList l.cell }
    requires leads { Leads arena.old.objects from }
    requires told { IsTold (C.text_of consts.now) (C.items_of consts.now) from }
    requires all_told { AllTold (C.text_of consts.now) (C.items_of consts.now) arena.old.objects }
    requires room { length (items_at arena.old l.cell) + length (items_in (C.items_of consts.now) arena.old from) ≤ room_at arena.old l.cell }
    ensures put { arena.new ≡ with_list arena.old l.cell (items_at arena.old l.cell ++ items_in (C.items_of consts.now) arena.old from) }
    ensures all_told { AllTold (C.text_of consts.now) (C.items_of consts.now) arena.new.objects }
{
    for k in 0..item_count(arena, consts, from) {
        let v = item_at(arena, consts, from, k);
        let end = list_len(arena, l);
        put_in_list(arena, l, end, v);
    }
}

/// Makes a text of one byte.
pub fn make_byte(arena: &mut Arena, byte: u8) -> Result<TextNo, NoRoom>
    requires { byte < 128 }
    ensures made { IfOk result (λ t. Made arena.old arena.new t.cell (TextObject (byte ∷ []))) }
    ensures refused { IfErr result (λ e. Refused arena.old arena.new e 2 1) }
    ensures kind { IfOk result (λ t. IsA arena.new.objects AText t.cell) }
{
    let t = arena.make_text(1)?;
    text_fill(arena, t, 0, byte);
    Ok(t)
}

/// Makes a text of each byte of a str, and nothing of another value. Where one doesn't fit, those in front of it stay.
pub fn make_texts<C: Constants>(arena: &mut Arena, consts: &C, from: Value) -> Result<(), NoRoom>
    requires leads { Leads arena.old.objects from }
    requires told { IsTold (C.text_of consts.now) (C.items_of consts.now) from }
    requires fits { Fits arena.old 0 0 }
    ensures ok { OnOk result (arena.new ≡ with_texts arena.old (spelled (C.text_of consts.now) arena.old from)) }
    ensures fits { OnOk result
        (Fits arena.old (2 * length (spelled (C.text_of consts.now) arena.old from))
        (length (spelled (C.text_of consts.now) arena.old from))) }
    ensures refused { IfErr result (λ e. TextRefused arena.old arena.new e (spelled (C.text_of consts.now) arena.old from)) }
{
    let count = spelled_bytes(arena, consts, from).len();
    for k in 0..count {
        let byte = spelled_bytes(arena, consts, from)[k];
        make_byte(arena, byte)?;
    }
    Ok(())
}

/// Puts `count` texts, of which the first has the cell `first`, behind the items of a list that has room for them.
fn put_texts(arena: &mut Arena, l: ListNo, first: u32, count: u32)
    requires list { IsA arena.old.objects AList l.cell }
    requires texts { (k : ℕ) → k < count → IsA arena.old.objects AText (first + 2 * k) }
    requires few { first + 2 * count < 2 ^ 32 }
    requires room { length (items_at arena.old l.cell) + count ≤ room_at arena.old l.cell }
    ensures { arena.new ≡ with_list arena.old l.cell (items_at arena.old l.cell ++ texts_from first count) }
{
    for k in 0..count {
        let t = TextNo {
            cell: first + 2 * k,
        };
        let end = list_len(arena, l);
        put_in_list(arena, l, end, Value::Text(t));
    }
}

/// Puts the items of an iterable behind those of a list. The room of all is asked for at once. The items of a str are
/// texts that are made then; where one doesn't fit, those in front of it stay, and the list has the items that it had.
pub fn list_extend<C: Constants>(
    arena: &mut Arena,
    consts: &C,
    l: ListNo,
    from: Value,
) -> Result<(), NoRoom>
    requires list { IsA arena.old.objects AList l.cell }
    requires leads { Leads arena.old.objects from }
    requires told { IsTold (C.text_of consts.now) (C.items_of consts.now) from }
    requires all_told { AllTold (C.text_of consts.now) (C.items_of consts.now) arena.old.objects }
    ensures ok { OnOk result (arena.new ≡ extended (C.text_of consts.now) (C.items_of consts.now) arena.old l.cell from) }
    ensures fits { OnOk result
        (Fits arena.old (list_growth arena.old l.cell
        (extended_length (C.text_of consts.now) (C.items_of consts.now) arena.old l.cell from) + 2 * length
        (spelled (C.text_of consts.now) arena.old from)) (length (spelled (C.text_of consts.now) arena.old from))) }
    ensures refused { IfErr result (λ e. NotExtended (C.text_of consts.now) (C.items_of consts.now) arena.old arena.new e l.cell from) }
    ensures kept { OnErr result (items_at arena.new l.cell ≡ items_at arena.old l.cell) }
    ensures later { Later arena.old.objects arena.new.objects }
    ensures all_told { AllTold (C.text_of consts.now) (C.items_of consts.now) arena.new.objects }
{
    let items = list_len(arena, l) as u64 + item_count(arena, consts, from) as u64;
    let bytes = spelled_bytes(arena, consts, from).len() as u64;
    reserve_list(arena, l, items + bytes)?;
    let first = arena.used().cells;
    make_texts(arena, consts, from)?;
    let texts = (arena.used().cells - first) / 2;
    put_items(arena, consts, l, from);
    put_texts(arena, l, first, texts);
    Ok(())
}
