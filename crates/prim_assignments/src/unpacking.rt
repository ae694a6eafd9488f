//! Iterables that are unpacked.

ghost use Rattle.std.specs.Prelude.{◌≡◌, ◌+◌, ◌*◌, ◌^◌, ◌<◌, length, IsSome, OnErr};
ghost use Rattle.prim_operators.specs.arena_heap.Values.{Leads, IsStr};
ghost use Rattle.prim_operators.specs.arena_objects.Iterables.{items_in as items_in_arena, spelled, texts_from};
ghost use Rattle.prim_operators.specs.py_primitives.Iterables.{items_in, length_of as length_in};
ghost use Rattle.prim_operators.specs.py_primitives.Uses.{unpack as unpack_of};
ghost use Rattle.prim_operators.specs.prim_faults.Sights.{sight, Tells, TellsAll, KnowsAll};
ghost use Rattle.prim_assignments.specs.Slots.{FillsSlots};

use prim_operators::{
    Arena, Constants, Fault, Stop, TextNo, Value, item_at, item_count, items_law, make_texts,
    text_bytes, use_iter,
};

/// Puts texts into the slots, from the first.
fn fill_letters(slots: &mut [Value], first: u32)
    requires { first + 2 * length slots.old < 2 ^ 32 }
    ensures { slots.new ≡ texts_from first (length slots.old) }
{
    for at in 0..slots.len() {
        let t = TextNo {
            cell: first + 2 * at as u32,
        };
        slots[at] = Value::Text(t);
    }
}

/// Unpacks a str, whose items are made, from the first to the last.
fn unpack_letters<C: Constants>(
    arena: &mut Arena,
    consts: &C,
    s: Value,
    slots: &mut [Value],
) -> Result<(), Stop>
    requires str { IsStr s }
    requires leads { Leads arena.old.objects s }
    requires told { Tells C.Constants consts.now s }
    requires all_told { TellsAll C.Constants consts.now arena.old }
    requires count { length slots.old ≡ length (spelled (C.text_of consts.now) arena.old s) }
    ensures outcome { let see = sight C.Constants consts.now
        in FillsSlots see.texts see.tuples arena.old arena.new slots.new result
        (unpack_of (see.heap arena.old) (length slots.old) (see.value s)) }
    ensures count { length slots.new ≡ length slots.old }
    ensures unchanged { OnErr result (slots.new ≡ slots.old) }
{
    arena.room_law();
    let first = arena.used().cells;
    match make_texts(arena, consts, s) {
        Ok(()) => {
            fill_letters(slots, first);
            Ok(())
        }
        Err(room) => Err(Stop::Full(room)),
    }
}

/// Puts the items of an iterable into the slots.
fn fill_items<C: Constants>(arena: &Arena, consts: &C, over: Value, slots: &mut [Value])
    requires leads { Leads arena.now.objects over }
    requires told { Tells C.Constants consts.now over }
    requires all_told { TellsAll C.Constants consts.now arena.now }
    requires count { length slots.old ≡ length (items_in_arena (C.items_of consts.now) arena.now over) }
    ensures filled { slots.new ≡ items_in_arena (C.items_of consts.now) arena.now over }
    ensures known { KnowsAll C.Constants consts.now arena.now slots.new }
{
    items_law(arena, consts, over);
    for at in 0..slots.len() {
        slots[at] = item_at(arena, consts, over, at as u32);
    }
}

/// Unpacks an iterable with as many items as there are slots.
fn unpack_items<C: Constants>(
    arena: &mut Arena,
    consts: &C,
    over: Value,
    slots: &mut [Value],
) -> Result<(), Stop>
    requires leads { Leads arena.old.objects over }
    requires told { Tells C.Constants consts.now over }
    requires all_told { TellsAll C.Constants consts.now arena.old }
    requires iterable { let see = sight C.Constants consts.now in IsSome (items_in (see.heap arena.old) (see.value over)) }
    requires count { let see = sight C.Constants consts.now in length slots.old ≡ length_in (see.heap arena.old) (see.value over) }
    ensures outcome { let see = sight C.Constants consts.now
        in FillsSlots see.texts see.tuples arena.old arena.new slots.new result
        (unpack_of (see.heap arena.old) (length slots.old) (see.value over)) }
    ensures count { length slots.new ≡ length slots.old }
    ensures unchanged { OnErr result (slots.new ≡ slots.old) }
{
    items_law(arena, consts, over);
    arena.room_law();
    match over {
        Value::Str(_) | Value::Text(_) => unpack_letters(arena, consts, over, slots),
        _ => {
            fill_items(arena, consts, over, slots);
            Ok(())
        }
    }
}

/// How many items an iterable has.
fn count_of<C: Constants>(arena: &Arena, consts: &C, over: Value) -> u32
    requires leads { Leads arena.now.objects over }
    requires told { Tells C.Constants consts.now over }
    requires iterable { let see = sight C.Constants consts.now in IsSome (items_in (see.heap arena.now) (see.value over)) }
    ensures { let see = sight C.Constants consts.now in result ≡ length_in (see.heap arena.now) (see.value over) }
{
    items_law(arena, consts, over);
    match over {
        Value::Str(_) | Value::Text(_) => text_bytes(arena, consts, over).len() as u32,
        _ => item_count(arena, consts, over),
    }
}

/// Unpacks what is an iterable.
fn unpack_iterable<C: Constants>(
    arena: &mut Arena,
    consts: &C,
    over: Value,
    slots: &mut [Value],
) -> Result<(), Stop>
    requires leads { Leads arena.old.objects over }
    requires told { Tells C.Constants consts.now over }
    requires all_told { TellsAll C.Constants consts.now arena.old }
    requires iterable { let see = sight C.Constants consts.now in IsSome (items_in (see.heap arena.old) (see.value over)) }
    ensures outcome { let see = sight C.Constants consts.now
        in FillsSlots see.texts see.tuples arena.old arena.new slots.new result
        (unpack_of (see.heap arena.old) (length slots.old) (see.value over)) }
    ensures count { length slots.new ≡ length slots.old }
    ensures unchanged { OnErr result (slots.new ≡ slots.old) }
{
    items_law(arena, consts, over);
    let have = count_of(arena, consts, over);
    let want = slots.len();
    if (have as usize) < want {
        Err(Stop::Raises(Fault::UnpacksMore(have)))
    } else if want < have as usize {
        Err(Stop::Raises(Fault::UnpacksFewer(want as u32)))
    } else {
        unpack_items(arena, consts, over, slots)
    }
}

/// Unpacks an iterable into the slots, one item each. The items of a str are texts that are made; where one doesn't fit, those
/// in front of it stay made.
pub fn unpack<C: Constants>(
    arena: &mut Arena,
    consts: &C,
    over: Value,
    slots: &mut [Value],
) -> Result<(), Stop>
    requires leads { Leads arena.old.objects over }
    requires told { Tells C.Constants consts.now over }
    requires all_told { TellsAll C.Constants consts.now arena.old }
    ensures outcome { let see = sight C.Constants consts.now
        in FillsSlots see.texts see.tuples arena.old arena.new slots.new result
        (unpack_of (see.heap arena.old) (length slots.old) (see.value over)) }
    ensures count { length slots.new ≡ length slots.old }
    ensures unchanged { OnErr result (slots.new ≡ slots.old) }
{
    match use_iter(arena, consts, over) {
        Ok(_) => unpack_iterable(arena, consts, over, slots),
        Err(stop) => Err(stop),
    }
}
