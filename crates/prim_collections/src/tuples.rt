//! `tuple`.

ghost use Rattle.std.specs.Prelude.{◌≡◌, ◌<◌, ◌^◌, true, length, slice_index_or};
ghost use Rattle.prim_builtins.specs.mpy_base.declared.builtin.Builtin.TheVariants as builtins;
ghost use Rattle.prim_builtins.specs.mpy_base.World.{ATuple, IsA, Later, items_at, with_tuple};
ghost use Rattle.prim_builtins.specs.arena_heap.Values.{Leads};
ghost use Rattle.prim_builtins.specs.py_primitives.Iterables.{iterating};
ghost use Rattle.prim_builtins.specs.py_primitives.Calls.{tuple_shown, tuple_from as tuple_from_items};
ghost use Rattle.prim_builtins.specs.py_values.Shown.{shown};
ghost use Rattle.prim_builtins.specs.prim_faults.Sights.{calling, Tells, TellsAll, KnowsAll, Does, CountsUpTo};
ghost use Rattle.prim_builtins.specs.prim_operators.Sources.{IsElsewhere};
ghost use Rattle.prim_collections.specs.Collected.{is_iterable as iterates, kept_values, AreLetters};

use crate::arguments::optional_argument;
use crate::iterables::{is_iterable, is_str, is_tuple, kept_count};
use arena_heap::{Arena, Constants, TextNo, TupleNo, Value, tuple_fill};
use arena_objects::{item_at, make_texts};
use prim_builtins::{Fault, Stop, items_law, length_of, type_of};

/// What is kept of an item of an iterable. Those of a str are texts of two cells each, from the first.
fn kept_item<C: Constants>(
    arena: &Arena,
    consts: &C,
    v: Value,
    first: u32,
    count: u32,
    at: u32,
) -> Value
    requires leads { Leads arena.now.objects v }
    requires told { Tells C.Constants consts.now v }
    requires all_told { TellsAll C.Constants consts.now arena.now }
    requires letters { AreLetters arena.now.objects first count v }
    requires items { length (kept_values (C.items_of consts.now) arena.now first count v) ≡ count }
    requires within { at < count }
    ensures item { result ≡ slice_index_or (kept_values (C.items_of consts.now) arena.now first count v) at Value.None }
    ensures leads { Leads arena.now.objects result }
    ensures told { Tells C.Constants consts.now result }
{
    if is_str(v) {
        arena.room_law();
        let cell = first + 2 * at;
        Value::Text(TextNo { cell })
    } else {
        item_at(arena, consts, v, at)
    }
}

/// Fills a tuple with what is kept of an iterable's items.
fn fill_tuple<C: Constants>(
    arena: &mut Arena,
    consts: &C,
    t: TupleNo,
    v: Value,
    first: u32,
    count: u32,
)
    requires tuple { IsA arena.old.objects ATuple t.cell }
    requires leads { Leads arena.old.objects v }
    requires told { Tells C.Constants consts.now v }
    requires all_told { TellsAll C.Constants consts.now arena.old }
    requires apart { IsElsewhere t.cell v }
    requires letters { AreLetters arena.old.objects first count v }
    requires items { length (kept_values (C.items_of consts.now) arena.old first count v) ≡ count }
    requires room { length (items_at arena.old t.cell) ≡ count }
    ensures filled { arena.new ≡ with_tuple arena.old t.cell (kept_values (C.items_of consts.now) arena.old first count v) }
    ensures later { Later arena.old.objects arena.new.objects }
    ensures all_told { TellsAll C.Constants consts.now arena.new }
{
    for at in 0..count {
        let item = kept_item(arena, consts, v, first, count, at);
        tuple_fill(arena, t, at, item);
    }
}

/// The tuple of an iterable's items. Its room is made first.
fn tuple_from<C: Constants>(arena: &mut Arena, consts: &C, v: Value) -> Result<Value, Stop>
    requires iterable { iterates v ≡ true }
    requires leads { Leads arena.old.objects v }
    requires told { Tells C.Constants consts.now v }
    requires all_told { TellsAll C.Constants consts.now arena.old }
    ensures { Does C.Constants consts.now arena.old arena.new result (λ heap see. iterating heap (see.value v) (tuple_from_items heap (see.value v))) }
{
    items_law(arena, consts, v);
    let count = kept_count(arena, consts, v);
    if count == 0 {
        return Ok(Value::Empty);
    }
    match arena.make_tuple(count as u64) {
        Ok(t) => {
            arena.room_law();
            let first = arena.used().cells;
            match make_texts(arena, consts, v) {
                Ok(()) => {
                    fill_tuple(arena, consts, t, v, first, count);
                    Ok(Value::Tuple(t))
                }
                Err(room) => Err(Stop::Full(room)),
            }
        }
        Err(room) => Err(Stop::Full(room)),
    }
}

fn tuple_of<C: Constants>(arena: &mut Arena, consts: &C, v: Value) -> Result<Value, Stop>
    requires leads { Leads arena.old.objects v }
    requires told { Tells C.Constants consts.now v }
    requires all_told { TellsAll C.Constants consts.now arena.old }
    ensures { Does C.Constants consts.now arena.old arena.new result (λ heap see. tuple_shown heap (see.value v) (shown heap (see.value v))) }
{
    if is_tuple(v) {
        items_law(arena, consts, v);
        Ok(v)
    } else if is_iterable(v) {
        tuple_from(arena, consts, v)
    } else {
        Err(Stop::Raises(Fault::NotIterable(type_of(arena, v))))
    }
}

/// `tuple` of these arguments. That of a tuple is itself.
pub fn call_tuple<C: Constants>(
    arena: &mut Arena,
    consts: &C,
    args: &[Value],
    keys: &[(Value, Value)],
) -> Result<Value, Stop>
    requires few { length args.now < 2 ^ 32 }
    requires known { KnowsAll C.Constants consts.now arena.old args.now }
    requires all_told { TellsAll C.Constants consts.now arena.old }
    ensures { Does C.Constants consts.now arena.old arena.new result (calling builtins.Tuple args.now keys.now) }
{
    match optional_argument(args, keys) {
        Ok(Some(v)) => tuple_of(arena, consts, v),
        Ok(None) => Ok(Value::Empty),
        Err(fault) => Err(Stop::Raises(fault)),
    }
}

fn visits_tuple_of<C: Constants>(arena: &Arena, consts: &C, v: Value, most: u64) -> u64
    requires leads { Leads arena.now.objects v }
    requires told { Tells C.Constants consts.now v }
    ensures { CountsUpTo C.Constants consts.now result most arena.now (λ heap see. tuple_shown heap (see.value v) (shown heap (see.value v))) }
{
    if is_tuple(v) {
        items_law(arena, consts, v);
        return 0;
    }
    most.min(length_of(arena, consts, v) as u64)
}

/// How many visits `call_tuple` makes, `most` at most: one for each item of what is no tuple.
pub fn visits_call_tuple<C: Constants>(
    arena: &Arena,
    consts: &C,
    args: &[Value],
    keys: &[(Value, Value)],
    most: u64,
) -> u64
    requires few { length args.now < 2 ^ 32 }
    requires known { KnowsAll C.Constants consts.now arena.now args.now }
    ensures { CountsUpTo C.Constants consts.now result most arena.now (calling builtins.Tuple args.now keys.now) }
{
    match optional_argument(args, keys) {
        Ok(Some(v)) => visits_tuple_of(arena, consts, v, most),
        Ok(None) => 0,
        Err(_) => 0,
    }
}
