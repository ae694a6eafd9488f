//! Texts, visit by visit.

ghost use Rattle.std.specs.Prelude.{◌≡◌, ◌<◌, map, false, All, codes};
ghost use Rattle.py_primitives.specs.mpy_base.World.{ADict, AnException, IsA, object, pairs_at};
ghost use Rattle.arena_objects.specs.arena_heap.Values.{Leads};
ghost use Rattle.arena_objects.specs.arena_heap.Constants.{IsTold};
ghost use Rattle.arena_objects.specs.Keys.{AllTold};
ghost use Rattle.arena_objects.specs.Iterables.{items_in};
ghost use Rattle.py_primitives.specs.Walks.{walk_all};
ghost use Rattle.py_primitives.specs.Texts.{write_within, texts_between, pair_text, dict_text, exception_str, object_text, joined};
ghost use Rattle.prim_walks.specs.Pens.{Wrought};
ghost use Rattle.prim_walks.specs.Plain.{plain, plain_pair, plain_heap, plain_object};
ghost use Rattle.prim_walks.specs.Runs.{run};

use crate::budget::{Budget, Halt};
use crate::exceptions::exception_parts;
use crate::leaves::{put_kind, put_leaf};
use crate::pairs::pair_at;
use crate::pen::Pen;
use crate::pieces::{put, put_separator};
use crate::tuples::tuple_end;
use arena_objects::{Arena, Constants, DictNo, ExcNo, Value, dict_len, item_at, item_count};

/// Writes a value, no deeper than this, within the budget: its str where it is raw, and else its repr.
#[cycle(write_value)]
pub(crate) fn write_value<P: Pen, C: Constants>(
    arena: &Arena,
    consts: &C,
    v: Value,
    raw: bool,
    depth: u32,
    budget: &mut Budget,
    pen: &mut P,
) -> Result<(), Halt>
    requires leads { Leads arena.now.objects v }
    requires told { IsTold (C.text_of consts.now) (C.items_of consts.now) v }
    requires all_told { AllTold (C.text_of consts.now) (C.items_of consts.now) arena.now.objects }
    ensures { Wrought P.Takes (λ text. text)
        (run (write_within (plain_heap (C.text_of consts.now) (C.items_of consts.now) arena.now) depth raw
        (plain (C.text_of consts.now) (C.items_of consts.now) v)) budget.old.left) result budget.new.left pen.old pen.new }
{
    if depth == 0 {
        return Err(Halt::TooDeep);
    }
    match budget.spend() {
        Ok(()) => {}
        Err(halt) => return Err(halt),
    }
    match v {
        Value::List(_) => write_items(arena, consts, v, b"[", b"]", depth - 1, budget, pen),
        Value::Fixed(_) | Value::Empty | Value::Tuple(_) => {
            let end = tuple_end(arena, consts, v);
            write_items(arena, consts, v, b"(", end, depth - 1, budget, pen)
        }
        Value::Dict(d) => write_dict(arena, consts, d, depth - 1, budget, pen),
        Value::Exc(e) => write_exception(arena, consts, e, raw, depth - 1, budget, pen),
        _ => {
            put_leaf(arena, consts, v, raw, pen);
            Ok(())
        }
    }
}

/// Writes the items of a list or tuple between two texts.
#[cycle(write_value)]
fn write_items<P: Pen, C: Constants>(
    arena: &Arena,
    consts: &C,
    v: Value,
    front: &[u8],
    end: &[u8],
    depth: u32,
    budget: &mut Budget,
    pen: &mut P,
) -> Result<(), Halt>
    requires leads { Leads arena.now.objects v }
    requires told { IsTold (C.text_of consts.now) (C.items_of consts.now) v }
    requires all_told { AllTold (C.text_of consts.now) (C.items_of consts.now) arena.now.objects }
    requires front { All (λ b. b < 128) front.now }
    requires end { All (λ b. b < 128) end.now }
    ensures { Wrought P.Takes (λ text. text)
        (run (texts_between (plain_heap (C.text_of consts.now) (C.items_of consts.now) arena.now)
        (write_within (plain_heap (C.text_of consts.now) (C.items_of consts.now) arena.now) depth) front.now end.now
        (map (plain (C.text_of consts.now) (C.items_of consts.now)) (items_in (C.items_of consts.now) arena.now v))) budget.old.left)
        result budget.new.left pen.old pen.new }
{
    put(pen, front);
    match write_all(arena, consts, v, depth, budget, pen) {
        Ok(()) => {}
        Err(halt) => return Err(halt),
    }
    put(pen, end);
    Ok(())
}

/// Writes the reprs of the items of a list or tuple.
#[cycle(write_value)]
fn write_all<P: Pen, C: Constants>(
    arena: &Arena,
    consts: &C,
    v: Value,
    depth: u32,
    budget: &mut Budget,
    pen: &mut P,
) -> Result<(), Halt>
    requires leads { Leads arena.now.objects v }
    requires told { IsTold (C.text_of consts.now) (C.items_of consts.now) v }
    requires all_told { AllTold (C.text_of consts.now) (C.items_of consts.now) arena.now.objects }
    ensures { Wrought P.Takes (joined (codes ", "))
        (run (walk_all (write_within (plain_heap (C.text_of consts.now) (C.items_of consts.now) arena.now) depth false)
        (map (plain (C.text_of consts.now) (C.items_of consts.now)) (items_in (C.items_of consts.now) arena.now v))) budget.old.left)
        result budget.new.left pen.old pen.new }
{
    for at in 0..item_count(arena, consts, v) {
        put_separator(pen, at);
        let item = item_at(arena, consts, v, at);
        match write_value(arena, consts, item, false, depth, budget, pen) {
            Ok(()) => {}
            Err(halt) => return Err(halt),
        }
    }
    Ok(())
}

/// Writes a dict.
#[cycle(write_value)]
fn write_dict<P: Pen, C: Constants>(
    arena: &Arena,
    consts: &C,
    d: DictNo,
    depth: u32,
    budget: &mut Budget,
    pen: &mut P,
) -> Result<(), Halt>
    requires dict { IsA arena.now.objects ADict d.cell }
    requires all_told { AllTold (C.text_of consts.now) (C.items_of consts.now) arena.now.objects }
    ensures { Wrought P.Takes (λ text. text)
        (run (dict_text (plain_heap (C.text_of consts.now) (C.items_of consts.now) arena.now)
        (write_within (plain_heap (C.text_of consts.now) (C.items_of consts.now) arena.now) depth)
        (map (plain_pair (C.text_of consts.now) (C.items_of consts.now)) (pairs_at arena.now d.cell))) budget.old.left) result
        budget.new.left pen.old pen.new }
{
    put(pen, b"{");
    match write_pairs(arena, consts, d, depth, budget, pen) {
        Ok(()) => {}
        Err(halt) => return Err(halt),
    }
    put(pen, b"}");
    Ok(())
}

/// Writes the pairs of a dict.
#[cycle(write_value)]
fn write_pairs<P: Pen, C: Constants>(
    arena: &Arena,
    consts: &C,
    d: DictNo,
    depth: u32,
    budget: &mut Budget,
    pen: &mut P,
) -> Result<(), Halt>
    requires dict { IsA arena.now.objects ADict d.cell }
    requires all_told { AllTold (C.text_of consts.now) (C.items_of consts.now) arena.now.objects }
    ensures { Wrought P.Takes (joined (codes ", "))
        (run (walk_all (pair_text (plain_heap (C.text_of consts.now) (C.items_of consts.now) arena.now)
        (write_within (plain_heap (C.text_of consts.now) (C.items_of consts.now) arena.now) depth))
        (map (plain_pair (C.text_of consts.now) (C.items_of consts.now)) (pairs_at arena.now d.cell))) budget.old.left) result
        budget.new.left pen.old pen.new }
{
    for at in 0..dict_len(arena, d) {
        put_separator(pen, at);
        let (key, x) = pair_at(arena, consts, d, at);
        match write_pair(arena, consts, key, x, depth, budget, pen) {
            Ok(()) => {}
            Err(halt) => return Err(halt),
        }
    }
    Ok(())
}

/// Writes a key and its value.
#[cycle(write_value)]
fn write_pair<P: Pen, C: Constants>(
    arena: &Arena,
    consts: &C,
    key: Value,
    x: Value,
    depth: u32,
    budget: &mut Budget,
    pen: &mut P,
) -> Result<(), Halt>
    requires key_leads { Leads arena.now.objects key }
    requires leads { Leads arena.now.objects x }
    requires key_told { IsTold (C.text_of consts.now) (C.items_of consts.now) key }
    requires told { IsTold (C.text_of consts.now) (C.items_of consts.now) x }
    requires all_told { AllTold (C.text_of consts.now) (C.items_of consts.now) arena.now.objects }
    ensures { Wrought P.Takes (λ text. text)
        (run (pair_text (plain_heap (C.text_of consts.now) (C.items_of consts.now) arena.now)
        (write_within (plain_heap (C.text_of consts.now) (C.items_of consts.now) arena.now) depth)
        (plain_pair (C.text_of consts.now) (C.items_of consts.now) (key, x))) budget.old.left) result budget.new.left pen.old pen.new }
{
    match write_value(arena, consts, key, false, depth, budget, pen) {
        Ok(()) => {}
        Err(halt) => return Err(halt),
    }
    put(pen, b": ");
    write_value(arena, consts, x, false, depth, budget, pen)
}

/// Writes the str of an exception: that of its only argument, or the repr of the tuple of its arguments.
#[cycle(write_value)]
fn write_arguments<P: Pen, C: Constants>(
    arena: &Arena,
    consts: &C,
    args: Value,
    depth: u32,
    budget: &mut Budget,
    pen: &mut P,
) -> Result<(), Halt>
    requires leads { Leads arena.now.objects args }
    requires told { IsTold (C.text_of consts.now) (C.items_of consts.now) args }
    requires all_told { AllTold (C.text_of consts.now) (C.items_of consts.now) arena.now.objects }
    ensures { Wrought P.Takes (λ text. text)
        (run (exception_str (plain_heap (C.text_of consts.now) (C.items_of consts.now) arena.now)
        (write_within (plain_heap (C.text_of consts.now) (C.items_of consts.now) arena.now) depth)
        (plain (C.text_of consts.now) (C.items_of consts.now) args)
        (map (plain (C.text_of consts.now) (C.items_of consts.now)) (items_in (C.items_of consts.now) arena.now args))) budget.old.left)
        result budget.new.left pen.old pen.new }
{
    let count = item_count(arena, consts, args);
    if count == 0 {
        return Ok(());
    }
    if count == 1 {
        let only = item_at(arena, consts, args, 0);
        return write_value(arena, consts, only, true, depth, budget, pen);
    }
    write_value(arena, consts, args, false, depth, budget, pen)
}

/// Writes an exception.
#[cycle(write_value)]
fn write_exception<P: Pen, C: Constants>(
    arena: &Arena,
    consts: &C,
    e: ExcNo,
    raw: bool,
    depth: u32,
    budget: &mut Budget,
    pen: &mut P,
) -> Result<(), Halt>
    requires exception { IsA arena.now.objects AnException e.cell }
    requires all_told { AllTold (C.text_of consts.now) (C.items_of consts.now) arena.now.objects }
    ensures { Wrought P.Takes (λ text. text)
        (run (object_text (plain_heap (C.text_of consts.now) (C.items_of consts.now) arena.now)
        (write_within (plain_heap (C.text_of consts.now) (C.items_of consts.now) arena.now) depth) raw
        (plain_object (C.text_of consts.now) (C.items_of consts.now) (object arena.now.objects e.cell))) budget.old.left) result
        budget.new.left pen.old pen.new }
{
    let (kind, args) = exception_parts(arena, consts, e);
    if raw {
        return write_arguments(arena, consts, args, depth, budget, pen);
    }
    put_kind(pen, kind);
    write_items(arena, consts, args, b"(", b")", depth, budget, pen)
}
