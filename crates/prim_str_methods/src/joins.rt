//! `join`.

ghost use Rattle.std.specs.Prelude.{◌≡◌, ◌≢◌, ◌+◌, ◌-◌, ◌++◌, ◌≤◌, ◌<◌, ◌^◌, length, min, slice_index_or, [], All, OnSome};
ghost use Rattle.std.specs.Option.{option_map};
ghost use Rattle.mpy_base.specs.declared.builtin.Builtin.TheVariants as builtins;
ghost use Rattle.mpy_base.specs.World.{AText, IsA, Later, text_at, with_text};
ghost use Rattle.prim_builtins.specs.arena_heap.Values.{Leads, IsStr};
ghost use Rattle.prim_builtins.specs.arena_objects.Iterables.{items_in, or_nothing};
ghost use Rattle.prim_builtins.specs.py_primitives.Texts.{joined};
ghost use Rattle.prim_builtins.specs.py_primitives.Outcome.{making_text, after_walk};
ghost use Rattle.prim_builtins.specs.py_primitives.Iterables.{iterating, items_in as plain_items_in};
ghost use Rattle.prim_builtins.specs.py_primitives.Methods.{parts_of, gives_joined};
ghost use Rattle.prim_builtins.specs.prim_faults.Sights.{under, calling_method, sight, Tells, TellsAll, Knows, KnowsAll, KnowsStr, Does, CountsUpTo};
ghost use Rattle.prim_builtins.specs.prim_operators.Sources.{IsOtherThan};
ghost use Rattle.prim_str_methods.specs.Parts.{strs_of, all_strs, looked_at, parts_in, cut_bytes, IsCut, CanJoin, written, in_front};

use crate::cuts::{Cut, put_cut, str_len, whole};
use crate::parts::{part_at, part_count, part_len};
use arena_heap::{Arena, Constants, StrNo, TextNo, Value};
use prim_builtins::{Fault, Stop, items_law, one_argument, use_iter};

/// How many bytes a part and the separator in front of it have.
fn step_len(at: u32, separator: u32, part: u32) -> u64
    ensures first { at ≡ 0 → result ≡ part }
    ensures others { at ≢ 0 → result ≡ separator + part }
{
    if at == 0 {
        part as u64
    } else {
        separator as u64 + part as u64
    }
}

/// How many bytes the joined strs of an iterable have, 2^64 - 1 at most, or None where an item is no str.
fn joined_len<C: Constants>(arena: &Arena, consts: &C, separator: Value, over: Value) -> Option<u64>
    requires separator { KnowsStr C.Constants consts.now arena.now separator }
    requires over { Knows C.Constants consts.now arena.now over }
    requires all_told { TellsAll C.Constants consts.now arena.now }
    ensures len { let see = sight C.Constants consts.now in result
        ≡ option_map (λ parts. min (length (joined (see.bytes arena.now separator) parts)) (2 ^ 64 - 1))
        (all_strs (strs_of (see.heap arena.now) (see.value over))) }
    ensures known { OnSome result (All (KnowsStr C.Constants consts.now arena.now) (items_in (C.items_of consts.now) arena.now over)) }
{
    items_law(arena, consts, over);
    let between = str_len(arena, consts, separator);
    let mut len: u64 = 0;
    for at in 0..part_count(arena, consts, over) {
        match part_len(arena, consts, over, at) {
            Some(part) => len = len.saturating_add(step_len(at, between, part)),
            None => return None,
        }
    }
    Some(len)
}

/// Writes the separator to a text, from a place on, but in front of the first part. Gives the place behind it.
fn put_separator<C: Constants>(
    arena: &mut Arena,
    consts: &C,
    t: TextNo,
    from: u32,
    at: u32,
    separator: Cut,
) -> u32
    requires text { IsA arena.old.objects AText t.cell }
    requires cut { under C.Constants consts.now IsCut arena.old separator }
    requires apart { IsOtherThan t.cell separator.of }
    requires room { from + length (in_front at (cut_bytes (C.text_of consts.now) arena.old separator)) ≤ length (text_at arena.old t.cell) }
    requires few { length (text_at arena.old t.cell) < 2 ^ 32 }
    ensures put { arena.new
        ≡ with_text arena.old t.cell
        (written (text_at arena.old t.cell) from (in_front at (cut_bytes (C.text_of consts.now) arena.old separator))) }
    ensures place { result ≡ from + length (in_front at (cut_bytes (C.text_of consts.now) arena.old separator)) }
{
    if at == 0 {
        return from;
    }
    put_cut(arena, consts, t, from, separator);
    from + separator.len
}

/// Writes a part and the separator in front of it. Gives the place behind them.
fn put_part<C: Constants>(
    arena: &mut Arena,
    consts: &C,
    t: TextNo,
    from: u32,
    at: u32,
    separator: Cut,
    over: Value,
) -> u32
    requires join { under C.Constants consts.now CanJoin arena.old t.cell separator over }
    requires within { at < length (parts_in (C.text_of consts.now) arena.old (C.items_of consts.now) over) }
    requires room { from + length (in_front at (cut_bytes (C.text_of consts.now) arena.old separator)
        ++ slice_index_or (parts_in (C.text_of consts.now) arena.old (C.items_of consts.now) over) at [])
        ≤ length (text_at arena.old t.cell) }
    requires few { length (text_at arena.old t.cell) < 2 ^ 32 }
    ensures put { arena.new
        ≡ with_text arena.old t.cell
        (written (text_at arena.old t.cell) from (in_front at (cut_bytes (C.text_of consts.now) arena.old separator)
        ++ slice_index_or (parts_in (C.text_of consts.now) arena.old (C.items_of consts.now) over) at [])) }
    ensures place { result ≡ from + length (in_front at (cut_bytes (C.text_of consts.now) arena.old separator)
        ++ slice_index_or (parts_in (C.text_of consts.now) arena.old (C.items_of consts.now) over) at []) }
{
    let part = part_at(arena, consts, over, at);
    let behind = put_separator(arena, consts, t, from, at, separator);
    put_cut(arena, consts, t, behind, part);
    behind + part.len
}

/// Writes the joined strs of an iterable to a text.
fn put_parts<C: Constants>(
    arena: &mut Arena,
    consts: &C,
    t: TextNo,
    count: u32,
    separator: Cut,
    over: Value,
)
    requires join { under C.Constants consts.now CanJoin arena.old t.cell separator over }
    requires count { count ≡ length (parts_in (C.text_of consts.now) arena.old (C.items_of consts.now) over) }
    requires room { length (joined (cut_bytes (C.text_of consts.now) arena.old separator)
        (parts_in (C.text_of consts.now) arena.old (C.items_of consts.now) over)) ≡ length (text_at arena.old t.cell) }
    requires few { length (text_at arena.old t.cell) < 2 ^ 32 }
    ensures put { arena.new
        ≡ with_text arena.old t.cell
        (joined (cut_bytes (C.text_of consts.now) arena.old separator)
        (parts_in (C.text_of consts.now) arena.old (C.items_of consts.now) over)) }
    ensures later { Later arena.old.objects arena.new.objects }
{
    let mut from = 0;
    for at in 0..count {
        from = put_part(arena, consts, t, from, at, separator, over);
    }
}

/// A text of the joined strs of an iterable, which have `len` bytes. The empty one is a constant.
fn make_joined<C: Constants>(
    arena: &mut Arena,
    consts: &C,
    separator: Value,
    over: Value,
    len: u64,
) -> Result<Value, Stop>
    requires separator { KnowsStr C.Constants consts.now arena.old separator }
    requires over { Knows C.Constants consts.now arena.old over }
    requires strs { All (KnowsStr C.Constants consts.now arena.old) (items_in (C.items_of consts.now) arena.old over) }
    requires all_told { TellsAll C.Constants consts.now arena.old }
    requires len { let see = sight C.Constants consts.now in len
        ≡ min (length (joined (see.bytes arena.old separator) (parts_in see.texts arena.old see.tuples over))) (2 ^ 64 - 1) }
    ensures { Does C.Constants consts.now arena.old arena.new result
        (λ heap see. making_text heap (joined (see.bytes arena.old separator) (parts_in see.texts arena.old see.tuples over))) }
{
    if len == 0 {
        consts.empty_law();
        return Ok(Value::Str(StrNo::Pool(1)));
    }
    let cut = whole(arena, consts, separator);
    let count = part_count(arena, consts, over);
    match arena.make_text(len) {
        Ok(t) => {
            arena.room_law();
            put_parts(arena, consts, t, count, cut, over);
            Ok(Value::Text(t))
        }
        Err(room) => Err(Stop::Full(room)),
    }
}

/// The joined strs of an iterable.
fn join_strs<C: Constants>(
    arena: &mut Arena,
    consts: &C,
    separator: Value,
    over: Value,
) -> Result<Value, Stop>
    requires separator { KnowsStr C.Constants consts.now arena.old separator }
    requires over { Knows C.Constants consts.now arena.old over }
    requires all_told { TellsAll C.Constants consts.now arena.old }
    ensures { Does C.Constants consts.now arena.old arena.new result
        (λ heap see. after_walk heap (parts_of heap (or_nothing (plain_items_in heap (see.value over))))
        (gives_joined heap (see.bytes arena.old separator))) }
{
    match joined_len(arena, consts, separator, over) {
        Some(len) => {
            items_law(arena, consts, over);
            make_joined(arena, consts, separator, over, len)
        }
        None => Err(Stop::Raises(Fault::JoinsNoStr)),
    }
}

fn join_in<C: Constants>(
    arena: &mut Arena,
    consts: &C,
    separator: Value,
    over: Value,
) -> Result<Value, Stop>
    requires separator { KnowsStr C.Constants consts.now arena.old separator }
    requires over { Knows C.Constants consts.now arena.old over }
    requires all_told { TellsAll C.Constants consts.now arena.old }
    ensures { Does C.Constants consts.now arena.old arena.new result
        (λ heap see. iterating heap (see.value over)
        (λ items. after_walk heap (parts_of heap items) (gives_joined heap (see.bytes arena.old separator)))) }
{
    match use_iter(arena, consts, over) {
        Ok(_) => join_strs(arena, consts, separator, over),
        Err(stop) => Err(stop),
    }
}

/// `join` of a str and these arguments.
pub fn call_str_join<C: Constants>(
    arena: &mut Arena,
    consts: &C,
    object: Value,
    args: &[Value],
    keys: &[(Value, Value)],
) -> Result<Value, Stop>
    requires few { length args.now < 2 ^ 32 }
    requires str { IsStr object }
    requires leads { Leads arena.old.objects object }
    requires told { Tells C.Constants consts.now object }
    requires known { KnowsAll C.Constants consts.now arena.old args.now }
    requires all_told { TellsAll C.Constants consts.now arena.old }
    ensures { Does C.Constants consts.now arena.old arena.new result (calling_method builtins.StrJoin object args.now keys.now) }
{
    match one_argument(args, keys) {
        Ok(v) => join_in(arena, consts, object, v),
        Err(fault) => Err(Stop::Raises(fault)),
    }
}

/// How many items are looked at, up to the first that is no str, `most` at most.
fn visits_of<C: Constants>(arena: &Arena, consts: &C, over: Value, most: u64) -> u64
    requires over { Knows C.Constants consts.now arena.now over }
    requires all_told { TellsAll C.Constants consts.now arena.now }
    ensures { let see = sight C.Constants consts.now in result ≡ min (looked_at (strs_of (see.heap arena.now) (see.value over))) most }
{
    let limit = most.min(part_count(arena, consts, over) as u64) as u32;
    for at in 0..limit {
        if part_len(arena, consts, over, at).is_none() {
            return at as u64 + 1;
        }
    }
    limit as u64
}

/// How many visits `call_str_join` makes, `most` at most. It goes no further.
pub fn visits_call_str_join<C: Constants>(
    arena: &Arena,
    consts: &C,
    object: Value,
    args: &[Value],
    keys: &[(Value, Value)],
    most: u64,
) -> u64
    requires few { length args.now < 2 ^ 32 }
    requires str { IsStr object }
    requires leads { Leads arena.now.objects object }
    requires told { Tells C.Constants consts.now object }
    requires known { KnowsAll C.Constants consts.now arena.now args.now }
    requires all_told { TellsAll C.Constants consts.now arena.now }
    ensures { CountsUpTo C.Constants consts.now result most arena.now (calling_method builtins.StrJoin object args.now keys.now) }
{
    match one_argument(args, keys) {
        Ok(v) => visits_of(arena, consts, v, most),
        Err(_) => 0,
    }
}
