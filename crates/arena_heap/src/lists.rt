//! Calls on lists of an arena: length, items by place, growth. A list that outgrows its room moves behind all other cells.

ghost use Rattle.std.specs.Prelude.{◌≡◌, ◌+◌, ◌<◌, ◌≤◌, ◌↔◌, length, ◌++◌, ◌∷◌, [], replicate, IfErr, OnOk, IsSome, IfSome};
ghost use Rattle.std.specs.Prelude.{OnSome, IfNone, insert, slice_get, slice_set, vec_len};
ghost use Rattle.std.specs.List.{remove};
ghost use Rattle.std.specs.Vec.{vec_capacity};
ghost use Rattle.qstr_pool.specs.mpy_base.World.{AList, IsA, Later, items_at, room_at, with_list};
ghost use Rattle.qstr_pool.specs.mpy_base.Weights.{Fits, Refused, list_growth, with_list_room, with_items};
ghost use Rattle.arena_heap.specs.Values.{Leads};
ghost use Rattle.arena_heap.specs.Cells.{part, blank};

use crate::arena::Arena;
use crate::cells::{Cell, Region};
use crate::heads::list_region;
use crate::value::{ListNo, Value};
use qstr_pool::NoRoom;

/// Copies the `len` cells from `start` on behind all others, with `rest` blank cells behind the copy.
pub(crate) fn move_cells(cells: &mut Vec<Cell>, start: u32, len: u32, rest: u32)
    requires inside { start + len ≤ vec_len cells.old }
    requires fits { vec_len cells.old + (len + rest) ≤ vec_capacity cells.old }
    ensures items { cells.new.items ≡ cells.old.items ++ (part cells.old.items start len ++ replicate rest blank) }
    ensures capacity { vec_capacity cells.old ≤ vec_capacity cells.new }
{
    let from = start as usize;
    let _ = cells.extend_from_within(from..from + len as usize);
    let moved = cells.len();
    let _ = cells.resize(moved + rest as usize, Cell::None);
}

/// How many items a list has.
#[inline(always)]
pub fn list_len(arena: &Arena, l: ListNo) -> u32
    requires { IsA arena.now.objects AList l.cell }
    ensures { result ≡ length (items_at arena.now l.cell) }
{
    list_region(&arena.cells, l.cell).len
}

/// For how many items a list has room.
pub fn list_room(arena: &Arena, l: ListNo) -> u32
    requires { IsA arena.now.objects AList l.cell }
    ensures { result ≡ room_at arena.now l.cell }
{
    list_region(&arena.cells, l.cell).room
}

/// The item at a place.
#[inline(always)]
pub fn list_at(arena: &Arena, l: ListNo, at: u32) -> Option<Value>
    requires { IsA arena.now.objects AList l.cell }
    ensures item { result ≡ slice_get (items_at arena.now l.cell) at }
    ensures leads { IfSome result (Leads arena.now.objects) }
{
    let region = list_region(&arena.cells, l.cell);
    if at < region.len {
        let v = arena.cells[(region.start + at) as usize].value();
        Some(v)
    } else {
        None
    }
}

/// Puts a value in the place of an item.
#[inline(always)]
pub fn list_set(arena: &mut Arena, l: ListNo, at: u32, v: Value) -> Option<()>
    requires list { IsA arena.old.objects AList l.cell }
    requires leads { Leads arena.old.objects v }
    ensures some { IsSome result ↔ (at < length (items_at arena.old l.cell)) }
    ensures set { OnSome result (arena.new ≡ with_list arena.old l.cell (slice_set (items_at arena.old l.cell) at v)) }
    ensures none { IfNone result (arena.new ≡ arena.old) }
    ensures later { Later arena.old.objects arena.new.objects }
{
    let region = list_region(&arena.cells, l.cell);
    if at < region.len {
        arena.cells[(region.start + at) as usize] = Cell::of(v);
        Some(())
    } else {
        None
    }
}

/// Moves a list to the room for `items` items, unless its room holds them.
pub fn reserve_list(arena: &mut Arena, l: ListNo, items: u64) -> Result<(), NoRoom>
    requires { IsA arena.old.objects AList l.cell }
    ensures ok { OnOk result (arena.new ≡ with_list_room arena.old l.cell items) }
    ensures fits { OnOk result (Fits arena.old (list_growth arena.old l.cell items) 0) }
    ensures refused { IfErr result (λ e. Refused arena.old arena.new e (list_growth arena.old l.cell items) 0) }
{
    let region = list_region(&arena.cells, l.cell);
    if items <= region.room as u64 {
        return Ok(());
    }
    let room = arena.ask_room(0, 1, items)?;
    let start = arena.cells.len() as u32;
    move_cells(
        &mut arena.cells,
        region.start,
        region.len,
        room - region.len,
    );
    let moved = Region {
        start,
        len: region.len,
        room,
    };
    arena.cells[l.cell as usize] = Cell::ListHead(moved);
    Ok(())
}

/// Puts a value in front of a place of a list that has room.
pub fn put_in_list(arena: &mut Arena, l: ListNo, at: u32, v: Value)
    requires list { IsA arena.old.objects AList l.cell }
    requires leads { Leads arena.old.objects v }
    requires within { at ≤ length (items_at arena.old l.cell) }
    requires room { length (items_at arena.old l.cell) < room_at arena.old l.cell }
    ensures { arena.new ≡ with_list arena.old l.cell (insert (items_at arena.old l.cell) at v) }
{
    let region = list_region(&arena.cells, l.cell);
    let place = (region.start + at) as usize;
    let end = (region.start + region.len) as usize;
    arena.cells.copy_within(place..end, place + 1);
    arena.cells[place] = Cell::of(v);
    let longer = Region {
        start: region.start,
        len: region.len + 1,
        room: region.room,
    };
    arena.cells[l.cell as usize] = Cell::ListHead(longer);
}

/// Puts a value in front of a place, or behind all items. A full list moves to its next room.
pub fn list_insert(arena: &mut Arena, l: ListNo, at: u32, v: Value) -> Result<(), NoRoom>
    requires list { IsA arena.old.objects AList l.cell }
    requires leads { Leads arena.old.objects v }
    requires within { at ≤ length (items_at arena.old l.cell) }
    ensures ok { OnOk result (arena.new ≡ with_items arena.old l.cell (insert (items_at arena.old l.cell) at v)) }
    ensures fits { OnOk result (Fits arena.old (list_growth arena.old l.cell (length (items_at arena.old l.cell) + 1)) 0) }
    ensures refused { IfErr result (λ e. Refused arena.old arena.new e (list_growth arena.old l.cell (length (items_at arena.old l.cell) + 1)) 0) }
    ensures later { Later arena.old.objects arena.new.objects }
{
    let len = list_len(arena, l);
    reserve_list(arena, l, len as u64 + 1)?;
    put_in_list(arena, l, at, v);
    Ok(())
}

/// Puts a value behind all items. A full list moves to its next room.
pub fn list_append(arena: &mut Arena, l: ListNo, v: Value) -> Result<(), NoRoom>
    requires list { IsA arena.old.objects AList l.cell }
    requires leads { Leads arena.old.objects v }
    ensures ok { OnOk result (arena.new ≡ with_items arena.old l.cell (items_at arena.old l.cell ++ v ∷ [])) }
    ensures fits { OnOk result (Fits arena.old (list_growth arena.old l.cell (length (items_at arena.old l.cell) + 1)) 0) }
    ensures refused { IfErr result (λ e. Refused arena.old arena.new e (list_growth arena.old l.cell (length (items_at arena.old l.cell) + 1)) 0) }
    ensures later { Later arena.old.objects arena.new.objects }
{
    let len = list_len(arena, l);
    list_insert(arena, l, len, v)
}

/// Takes an item out. Those behind it close up.
pub fn list_pop(arena: &mut Arena, l: ListNo, at: u32) -> Option<Value>
    requires { IsA arena.old.objects AList l.cell }
    ensures item { result ≡ slice_get (items_at arena.old l.cell) at }
    ensures popped { OnSome result (arena.new ≡ with_list arena.old l.cell (remove (items_at arena.old l.cell) at)) }
    ensures none { IfNone result (arena.new ≡ arena.old) }
    ensures leads { IfSome result (Leads arena.old.objects) }
    ensures later { Later arena.old.objects arena.new.objects }
{
    let region = list_region(&arena.cells, l.cell);
    if at >= region.len {
        return None;
    }
    let place = (region.start + at) as usize;
    let end = (region.start + region.len) as usize;
    let v = arena.cells[place].value();
    arena.cells.copy_within(place + 1..end, place);
    let shorter = Region {
        start: region.start,
        len: region.len - 1,
        room: region.room,
    };
    arena.cells[l.cell as usize] = Cell::ListHead(shorter);
    Some(v)
}
