//! Lists, dicts and tuples get what a snapshot says that they hold.

ghost use Rattle.std.specs.Prelude.{◌≡◌, ◌<◌, ◌≤◌, ◌^◌, [], ℕ, zero, suc, length, map, Some, replicate, slice_get};
ghost use Rattle.mpy_base.specs.World.{Heap, ListObject, TupleObject, DictObject, object, room_at};
ghost use Rattle.mpy_base.specs.World.{with_list, with_tuple, with_dict};
ghost use Rattle.arena_heap.specs.declared.value.Value.TheVariants as values;
ghost use Rattle.arena_heap.specs.Values.{IsKey, Leads};
ghost use Rattle.bc_library.specs.bc_verify.qstr_pool.declared.table.TheConstants.{FIRST_OWN};
ghost use Rattle.snap_grammar.specs.Spelling.{Fits};
ghost use Rattle.snap_grammar.specs.declared.parts.PairPart.{PairPart};
ghost use Rattle.snap_grammar.specs.declared.parts.ValuePart.{ValuePart};
ghost use Rattle.snap_states.specs.States.{AreFineObjects};
ghost use Rattle.snap_states.specs.Decoded as decoded;
ghost use Rattle.snap_loading.specs.Looked.{IsLookup};
ghost use Rattle.snap_loading.specs.Mixed.{heap_mixed, IsFilledTo};

use crate::lookup::{Lookup, cell_of};
use crate::values::value_of;
use arena_heap::{Arena, DictNo, ListNo, TupleNo, put_in_dict, put_in_list, tuple_fill};
use snap_grammar::{ObjectPart, PairPart, ValuePart};

/// The item at a place.
fn item_at(items: &[ValuePart], at: usize) -> &ValuePart
    requires { at < length items.now }
    ensures { slice_get items.now at ≡ Some result.now }
{
    &items[at]
}

/// The pair at a place.
fn pair_at(pairs: &[PairPart], at: usize) -> &PairPart
    requires { at < length pairs.now }
    ensures { slice_get pairs.now at ≡ Some result.now }
{
    &pairs[at]
}

/// Puts the items of a list into it, which is empty and has room for them.
fn fill_list(arena: &mut Arena, lookup: &Lookup, l: ListNo, items: &[ValuePart])
    requires lookup { IsLookup lookup.now }
    requires few { length items.now < 2 ^ 32 }
    requires begun { object arena.old.objects l.cell ≡ Some (ListObject [] (room_at arena.old l.cell)) }
    requires room { length items.now ≤ room_at arena.old l.cell }
    requires leads { (at : ℕ) (part : ValuePart) → slice_get items.now at ≡ Some part
        → Leads arena.old.objects (decoded.value_of lookup.now.library.now lookup.now.snapshot.now part) }
    ensures { arena.new
        ≡ with_list arena.old l.cell (map (decoded.value_of lookup.now.library.now lookup.now.snapshot.now) items.now) }
{
    for at in 0..items.len() {
        let item = item_at(items, at);
        let v = value_of(lookup, item);
        put_in_list(arena, l, at as u32, v);
    }
}

/// Sets the places of a tuple.
fn fill_tuple(arena: &mut Arena, lookup: &Lookup, t: TupleNo, items: &[ValuePart])
    requires lookup { IsLookup lookup.now }
    requires few { length items.now < 2 ^ 32 }
    requires begun { object arena.old.objects t.cell ≡ Some (TupleObject (replicate (length items.now) values.None)) }
    requires leads { (at : ℕ) (part : ValuePart) → slice_get items.now at ≡ Some part
        → Leads arena.old.objects (decoded.value_of lookup.now.library.now lookup.now.snapshot.now part) }
    ensures { arena.new
        ≡ with_tuple arena.old t.cell (map (decoded.value_of lookup.now.library.now lookup.now.snapshot.now) items.now) }
{
    for at in 0..items.len() {
        let item = item_at(items, at);
        let v = value_of(lookup, item);
        tuple_fill(arena, t, at as u32, v);
    }
}

/// Puts the pairs of a dict into it, which is empty and has room for them.
fn fill_dict(arena: &mut Arena, lookup: &Lookup, d: DictNo, pairs: &[PairPart])
    requires lookup { IsLookup lookup.now }
    requires few { length pairs.now < 2 ^ 32 }
    requires begun { object arena.old.objects d.cell ≡ Some (DictObject [] (room_at arena.old d.cell)) }
    requires room { length pairs.now ≤ room_at arena.old d.cell }
    requires keys { (at : ℕ) (part : PairPart) → slice_get pairs.now at ≡ Some part
        → IsKey (decoded.value_of lookup.now.library.now lookup.now.snapshot.now part.key) }
    requires keys_lead { (at : ℕ) (part : PairPart) → slice_get pairs.now at ≡ Some part
        → Leads arena.old.objects (decoded.value_of lookup.now.library.now lookup.now.snapshot.now part.key) }
    requires leads { (at : ℕ) (part : PairPart) → slice_get pairs.now at ≡ Some part
        → Leads arena.old.objects (decoded.value_of lookup.now.library.now lookup.now.snapshot.now part.value) }
    ensures { arena.new
        ≡ with_dict arena.old d.cell (map (decoded.pair_of lookup.now.library.now lookup.now.snapshot.now) pairs.now) }
{
    for at in 0..pairs.len() {
        let pair = pair_at(pairs, at);
        let key = value_of(lookup, &pair.key);
        let v = value_of(lookup, &pair.value);
        put_in_dict(arena, d, key, v);
    }
}

/// Fills the object of a number, where those before it are filled.
fn fill_one(arena: &mut Arena, lookup: &Lookup, number: u32, object: &ObjectPart)
    requires lookup { IsLookup lookup.now }
    requires first { lookup.now.library.now.pool.first ≡ FIRST_OWN }
    requires fits { Fits lookup.now.snapshot.now }
    requires fine { AreFineObjects lookup.now.library.now lookup.now.snapshot.now }
    requires object { slice_get lookup.now.snapshot.now.objects number ≡ Some object.now }
    requires begun { IsFilledTo lookup.now.library.now lookup.now.snapshot.now number arena.old }
    ensures { (title : ℕ → ℕ → ℕ) → arena.old ≡ heap_mixed lookup.now.library.now lookup.now.snapshot.now title number
        → arena.new ≡ heap_mixed lookup.now.library.now lookup.now.snapshot.now title (suc number) }
{
    let cell = cell_of(lookup, number);
    match object {
        ObjectPart::List { items, .. } => {
            fill_list(arena, lookup, ListNo { cell }, items.as_slice());
        }
        ObjectPart::Tuple { items } => {
            fill_tuple(arena, lookup, TupleNo { cell }, items.as_slice());
        }
        ObjectPart::Dict { pairs, .. } => {
            fill_dict(arena, lookup, DictNo { cell }, pairs.as_slice());
        }
        ObjectPart::Text { .. } => {}
        ObjectPart::Function { .. } => {}
        ObjectPart::Exception { .. } => {}
        ObjectPart::Method { .. } => {}
        ObjectPart::Range { .. } => {}
        ObjectPart::Module { .. } => {}
    }
}

/// The object of a number.
pub(crate) fn object_at(objects: &[ObjectPart], number: usize) -> &ObjectPart
    requires { number < length objects.now }
    ensures { slice_get objects.now number ≡ Some result.now }
{
    &objects[number]
}

/// Fills the objects, one behind the other.
pub(crate) fn fill(arena: &mut Arena, lookup: &Lookup)
    requires lookup { IsLookup lookup.now }
    requires first { lookup.now.library.now.pool.first ≡ FIRST_OWN }
    requires fits { Fits lookup.now.snapshot.now }
    requires fine { AreFineObjects lookup.now.library.now lookup.now.snapshot.now }
    requires begun { IsFilledTo lookup.now.library.now lookup.now.snapshot.now zero arena.old }
    ensures { (title : ℕ → ℕ → ℕ) → arena.old ≡ heap_mixed lookup.now.library.now lookup.now.snapshot.now title zero
        → arena.new ≡ decoded.heap_of lookup.now.library.now lookup.now.snapshot.now title }
{
    let objects = lookup.snapshot.objects.as_slice();
    for number in 0..objects.len() {
        let object = object_at(objects, number);
        fill_one(arena, lookup, number as u32, object);
    }
}
