//! Where a dict has a key.

ghost use Rattle.std.specs.Prelude.{◌≡◌, ℕ, ◌%◌, ◌<◌, ◌≤◌, ◌↔◌, length, Some, IsTrue, IfSome, IfNone};
ghost use Rattle.py_values.specs.mpy_base.World.{ADict, IsA, pairs_at, room_at, text_at};
ghost use Rattle.arena_heap.specs.Values.{Leads, IsKey};
ghost use Rattle.arena_heap.specs.Constants.{IsTold};
ghost use Rattle.arena_heap.specs.Links.{IsLast, buckets_at, bucket_of, text_code};
ghost use Rattle.py_values.specs.Keys.{TextKey};
ghost use Rattle.arena_objects.specs.Found.{FirstFrom, HasKey, HasKeyIn, HasKeyNamed, least};
ghost use Rattle.arena_objects.specs.Keys.{key_of, StandsAt, Lacks, AllTold};
ghost use Rattle.arena_objects.specs.PlainKeys.{plain};

use crate::keys::Key;
use arena_heap::{
    Arena, Constants, DictNo, StrNo, Value, dict_at, dict_before, dict_last, dict_last_text,
    dict_len, dict_named,
};

/// Up to this many pairs of a dict are looked through one by one.
const FEW_PAIRS: u32 = 8;

/// Up to this many pairs of a dict are looked through for the number of a text.
const FEW_NAMES: u32 = 32;

/// Whether a key of a dict is equal to the one that is sought. Two texts of the constants are told apart by their numbers.
fn is_sought<C: Constants>(arena: &Arena, consts: &C, other: Value, key: Value, sought: Key) -> bool
    requires other { IsKey other }
    requires leads { Leads arena.now.objects other }
    requires told { IsTold (C.text_of consts.now) (C.items_of consts.now) other }
    requires sought { key_of (C.text_of consts.now) arena.now key ≡ Some (plain sought) }
    ensures { IsTrue result ↔ (key_of (C.text_of consts.now) arena.now other ≡ Some (plain sought.entry)) }
{
    if let Value::Str(StrNo::Pool(number)) = key {
        if let Value::Str(StrNo::Pool(other_number)) = other {
            consts.one_number_law();
            return other_number == number;
        }
    }
    Key::of(arena, consts, other).is(sought)
}

/// Whether the pair at a place has this key.
fn has_key<C: Constants>(
    arena: &Arena,
    consts: &C,
    d: DictNo,
    at: u32,
    key: Value,
    sought: Key,
) -> bool
    requires dict { IsA arena.now.objects ADict d.cell }
    requires within { at < length (pairs_at arena.now d.cell) }
    requires all_told { AllTold (C.text_of consts.now) (C.items_of consts.now) arena.now.objects }
    requires sought { key_of (C.text_of consts.now) arena.now key ≡ Some (plain sought) }
    ensures { IsTrue result ↔ HasKey (C.text_of consts.now) arena.now d.cell (plain sought.entry) at }
{
    let Some((other, _)) = dict_at(arena, d, at) else {
        unreachable!()
    };
    is_sought(arena, consts, other, key, sought)
}

/// The first pair with this key, by a walk over all pairs.
fn in_dict<C: Constants>(
    arena: &Arena,
    consts: &C,
    d: DictNo,
    key: Value,
    sought: Key,
) -> Option<u32>
    requires dict { IsA arena.now.objects ADict d.cell }
    requires sought { key_of (C.text_of consts.now) arena.now key ≡ Some (plain sought) }
    requires all_told { AllTold (C.text_of consts.now) (C.items_of consts.now) arena.now.objects }
    ensures { FirstFrom (HasKey (C.text_of consts.now) arena.now d.cell (plain sought.entry)) (length (pairs_at arena.now d.cell)) 0 result }
{
    for at in 0..dict_len(arena, d) {
        if has_key(arena, consts, d, at, key, sought) {
            return Some(at);
        }
    }
    None
}

/// The first pair with this key in a bucket, by a walk over the pairs of the bucket, from the last one on, which has the
/// place `last - 1`. None where dicts aren't linked any more, here and in what follows.
fn in_chain<C: Constants>(
    arena: &Arena,
    consts: &C,
    d: DictNo,
    key: Value,
    sought: Key,
    last: u32,
) -> Option<Option<u32>>
    requires dict { IsA arena.now.objects ADict d.cell }
    requires all_told { AllTold (C.text_of consts.now) (C.items_of consts.now) arena.now.objects }
    requires sought { key_of (C.text_of consts.now) arena.now key ≡ Some (plain sought) }
    requires within { last ≤ length (pairs_at arena.now d.cell) }
    ensures { (bucket : ℕ) → IsLast (buckets_at arena.now d.cell) bucket (length (pairs_at arena.now d.cell)) last
        → IfSome result (FirstFrom (HasKeyIn (C.text_of consts.now) arena.now d.cell (plain sought.entry) bucket) (length (pairs_at arena.now d.cell)) 0) }
{
    let mut found = None;
    let mut end = last;
    while end > 0 {
        let at = end - 1;
        let front = dict_before(arena, d, at)?;
        end = front;
        if has_key(arena, consts, d, at, key, sought) {
            found = Some(at);
        }
    }
    Some(found)
}

/// The first pair with this key in the bucket of another.
fn in_bucket<C: Constants>(
    arena: &Arena,
    consts: &C,
    d: DictNo,
    key: Value,
    sought: Key,
    other: Value,
) -> Option<Option<u32>>
    requires dict { IsA arena.now.objects ADict d.cell }
    requires all_told { AllTold (C.text_of consts.now) (C.items_of consts.now) arena.now.objects }
    requires sought { key_of (C.text_of consts.now) arena.now key ≡ Some (plain sought) }
    ensures { IfSome result
        (FirstFrom (HasKeyIn (C.text_of consts.now) arena.now d.cell (plain sought.entry)
        (bucket_of (text_at arena.now) (room_at arena.now d.cell) other)) (length (pairs_at arena.now d.cell)) 0) }
{
    let last = dict_last(arena, d, other)?;
    in_chain(arena, consts, d, key, sought, last)
}

/// The first pair with this key in the bucket where the texts that were made stand with these bytes.
fn in_text_bucket<C: Constants>(
    arena: &Arena,
    consts: &C,
    d: DictNo,
    key: Value,
    sought: Key,
    bytes: &[u8],
) -> Option<Option<u32>>
    requires dict { IsA arena.now.objects ADict d.cell }
    requires all_told { AllTold (C.text_of consts.now) (C.items_of consts.now) arena.now.objects }
    requires sought { key_of (C.text_of consts.now) arena.now key ≡ Some (plain sought) }
    ensures { IfSome result
        (FirstFrom (HasKeyIn (C.text_of consts.now) arena.now d.cell (plain sought.entry) (text_code bytes.now % room_at arena.now d.cell))
        (length (pairs_at arena.now d.cell)) 0) }
{
    let last = dict_last_text(arena, d, bytes)?;
    in_chain(arena, consts, d, key, sought, last)
}

/// The first pair with this key in the bucket of a number's text, where there is such a number.
fn in_named_bucket<C: Constants>(
    arena: &Arena,
    consts: &C,
    d: DictNo,
    key: Value,
    sought: Key,
    number: Option<u32>,
) -> Option<Option<u32>>
    requires dict { IsA arena.now.objects ADict d.cell }
    requires all_told { AllTold (C.text_of consts.now) (C.items_of consts.now) arena.now.objects }
    requires sought { key_of (C.text_of consts.now) arena.now key ≡ Some (plain sought) }
    ensures { IfSome result
        (FirstFrom (HasKeyNamed (C.text_of consts.now) arena.now d.cell (plain sought.entry) number)
        (length (pairs_at arena.now d.cell)) 0) }
{
    match number {
        Some(n) => in_bucket(arena, consts, d, key, sought, Value::Str(StrNo::Pool(n))),
        None => Some(None),
    }
}

/// The lesser of two places.
fn least(first: Option<u32>, second: Option<u32>) -> Option<u32>
    ensures { result ≡ least first second }
{
    match (first, second) {
        (Some(at), Some(other)) => Some(at.min(other)),
        (Some(at), None) => Some(at),
        (None, other) => other,
    }
}

/// The number of the bytes of a text of the constants, if they have one.
fn name_number<C: Constants>(consts: &C, name: StrNo, bytes: &[u8]) -> Option<u32>
    requires { (n : ℕ) → name ≡ StrNo.Pool n → C.text_of consts.now (StrNo.Pool n) ≡ Some bytes.now }
    ensures { (n : ℕ) → C.text_of consts.now (StrNo.Pool n) ≡ Some bytes.now → result ≡ Some n }
{
    match name {
        StrNo::Pool(n) => {
            consts.one_number_law();
            Some(n)
        }
        StrNo::Object(_) => consts.number(bytes),
    }
}

/// The number among the constants' texts of the bytes of a str, if they have one.
fn number_of<C: Constants>(consts: &C, s: Value, bytes: &[u8]) -> Option<u32>
    requires { (n : ℕ) → s ≡ Value.Str (StrNo.Pool n) → C.text_of consts.now (StrNo.Pool n) ≡ Some bytes.now }
    ensures { (n : ℕ) → C.text_of consts.now (StrNo.Pool n) ≡ Some bytes.now → result ≡ Some n }
{
    match s {
        Value::Str(name) => name_number(consts, name, bytes),
        _ => consts.number(bytes),
    }
}

/// The first pair whose key is a str with these bytes: it was made, has their number, or is another constant.
fn with_text<C: Constants>(
    arena: &Arena,
    consts: &C,
    d: DictNo,
    key: Value,
    sought: Key,
    bytes: &[u8],
    number: Option<u32>,
) -> Option<Option<u32>>
    requires dict { IsA arena.now.objects ADict d.cell }
    requires all_told { AllTold (C.text_of consts.now) (C.items_of consts.now) arena.now.objects }
    requires sought { key_of (C.text_of consts.now) arena.now key ≡ Some (plain sought) }
    requires text { plain sought ≡ TextKey bytes.now }
    requires number { (n : ℕ) → C.text_of consts.now (StrNo.Pool n) ≡ Some bytes.now → number ≡ Some n }
    ensures { IfSome result (FirstFrom (HasKey (C.text_of consts.now) arena.now d.cell (plain sought.entry)) (length (pairs_at arena.now d.cell)) 0) }
{
    let made = in_text_bucket(arena, consts, d, key, sought, bytes)?;
    let others = in_bucket(arena, consts, d, key, sought, Value::None)?;
    let named = in_named_bucket(arena, consts, d, key, sought, number)?;
    let unnamed = least(made, others);
    Some(least(unnamed, named))
}

/// The first pair with this key, by the links.
fn by_links<C: Constants>(
    arena: &Arena,
    consts: &C,
    d: DictNo,
    key: Value,
    sought: Key,
) -> Option<Option<u32>>
    requires dict { IsA arena.now.objects ADict d.cell }
    requires all_told { AllTold (C.text_of consts.now) (C.items_of consts.now) arena.now.objects }
    requires sought { key_of (C.text_of consts.now) arena.now key ≡ Some (plain sought) }
    ensures { IfSome result (FirstFrom (HasKey (C.text_of consts.now) arena.now d.cell (plain sought.entry)) (length (pairs_at arena.now d.cell)) 0) }
{
    match sought {
        Key::Text(bytes) => {
            let number = number_of(consts, key, bytes);
            with_text(arena, consts, d, key, sought, bytes, number)
        }
        _ => in_bucket(arena, consts, d, key, sought, key),
    }
}

/// The first pair with this key, by a walk over all pairs where they are few, or else by the links.
#[inline(never)]
fn by_key<C: Constants>(arena: &Arena, consts: &C, d: DictNo, key: Value) -> Option<u32>
    requires dict { IsA arena.now.objects ADict d.cell }
    requires key { IsKey key }
    requires leads { Leads arena.now.objects key }
    requires told { IsTold (C.text_of consts.now) (C.items_of consts.now) key }
    requires all_told { AllTold (C.text_of consts.now) (C.items_of consts.now) arena.now.objects }
    ensures found { IfSome result (StandsAt (C.text_of consts.now) arena.now d.cell key) }
    ensures none { IfNone result (Lacks (C.text_of consts.now) arena.now d.cell key) }
{
    let sought = Key::of(arena, consts, key);
    if dict_len(arena, d) <= FEW_PAIRS {
        return in_dict(arena, consts, d, key, sought);
    }
    match by_links(arena, consts, d, key, sought) {
        Some(found) => found,
        None => in_dict(arena, consts, d, key, sought),
    }
}

/// The first pair with this key, if it is a text with a number, and so are the keys in front of that pair; of a dict with few
/// pairs alone.
#[inline(always)]
fn by_number<C: Constants>(arena: &Arena, consts: &C, d: DictNo, key: Value) -> Option<Option<u32>>
    requires dict { IsA arena.now.objects ADict d.cell }
    requires told { IsTold (C.text_of consts.now) (C.items_of consts.now) key }
    ensures found { IfSome result (λ found. IfSome found (StandsAt (C.text_of consts.now) arena.now d.cell key)) }
    ensures none { IfSome result (λ found. IfNone found (Lacks (C.text_of consts.now) arena.now d.cell key)) }
{
    let Value::Str(StrNo::Pool(number)) = key else {
        return None;
    };
    if dict_len(arena, d) > FEW_NAMES {
        return None;
    }
    consts.one_number_law();
    dict_named(arena, d, number)
}

/// The place of the first pair whose key is equal. It costs the pairs of a few buckets, and those of constant strs that have
/// no number; all pairs where they are few, or a text that is a key was written later.
#[inline(always)]
pub(crate) fn place_of<C: Constants>(
    arena: &Arena,
    consts: &C,
    d: DictNo,
    key: Value,
) -> Option<u32>
    requires dict { IsA arena.now.objects ADict d.cell }
    requires key { IsKey key }
    requires leads { Leads arena.now.objects key }
    requires told { IsTold (C.text_of consts.now) (C.items_of consts.now) key }
    requires all_told { AllTold (C.text_of consts.now) (C.items_of consts.now) arena.now.objects }
    ensures found { IfSome result (StandsAt (C.text_of consts.now) arena.now d.cell key) }
    ensures none { IfNone result (Lacks (C.text_of consts.now) arena.now d.cell key) }
{
    match by_number(arena, consts, d, key) {
        Some(found) => found,
        None => by_key(arena, consts, d, key),
    }
}
