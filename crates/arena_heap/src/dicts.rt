//! Calls on dicts by the places of their pairs, in the order of insertion.

ghost use Rattle.std.specs.Prelude.{◌≡◌, ◌+◌, ◌%◌, ◌<◌, length, ◌++◌, ◌∷◌, [], Some, IfErr, OnOk, IfSome, slice_get};
ghost use Rattle.std.specs.List.{remove};
ghost use Rattle.qstr_pool.specs.mpy_base.World.{ADict, IsA, Later, pairs_at, room_at, text_at, with_dict};
ghost use Rattle.qstr_pool.specs.mpy_base.Weights.{Fits, Refused, dict_growth, with_dict_room, with_pairs};
ghost use Rattle.arena_heap.specs.Values.{Leads, IsKey};
ghost use Rattle.arena_heap.specs.Dicts.{with_value};
ghost use Rattle.arena_heap.specs.Named.{IsNamedAt};
ghost use Rattle.arena_heap.specs.Links.{IsLast, text_code, bucket_of, buckets_at};

use crate::arena::Arena;
use crate::cells::{Cell, Region};
use crate::heads::dict_region;
use crate::keys::with_key;
use crate::links::{bucket_of, link, link_all, text_bucket};
use crate::lists::move_cells;
use crate::value::{DictNo, Value};
use qstr_pool::NoRoom;

/// How many pairs a dict has.
#[inline(always)]
pub fn dict_len(arena: &Arena, d: DictNo) -> u32
    requires { IsA arena.now.objects ADict d.cell }
    ensures { result ≡ length (pairs_at arena.now d.cell) }
{
    dict_region(&arena.cells, d.cell).len
}

/// For how many pairs a dict has room.
pub fn dict_room(arena: &Arena, d: DictNo) -> u32
    requires { IsA arena.now.objects ADict d.cell }
    ensures { result ≡ room_at arena.now d.cell }
{
    dict_region(&arena.cells, d.cell).room
}

/// The pair at a place: its key and its value.
#[inline(always)]
pub fn dict_at(arena: &Arena, d: DictNo, at: u32) -> Option<(Value, Value)>
    requires { IsA arena.now.objects ADict d.cell }
    ensures pair { result ≡ slice_get (pairs_at arena.now d.cell) at }
    ensures key { IfSome result (λ p. IsKey p.0) }
    ensures key_leads { IfSome result (λ p. Leads arena.now.objects p.0) }
    ensures leads { IfSome result (λ p. Leads arena.now.objects p.1) }
{
    let region = dict_region(&arena.cells, d.cell);
    if at < region.len {
        let place = (region.start + 3 * at) as usize;
        let key = arena.cells[place].value();
        let v = arena.cells[place + 1].value();
        Some((key, v))
    } else {
        None
    }
}

/// The place of the first pair whose key is the text of this number, or that no key is. It answers nothing at a key in front of
/// that pair which is no text with a number: its bytes may be the same. It costs a cell for each pair up to there.
#[inline(always)]
pub fn dict_named(arena: &Arena, d: DictNo, number: u32) -> Option<Option<u32>>
    requires { IsA arena.now.objects ADict d.cell }
    ensures { IfSome result (IsNamedAt (pairs_at arena.now d.cell) number) }
{
    let region = dict_region(&arena.cells, d.cell);
    for at in 0..region.len {
        match arena.cells[(region.start + 3 * at) as usize] {
            Cell::Pool(other) => {
                if other == number {
                    return Some(Some(at));
                }
            }
            _ => return None,
        }
    }
    Some(None)
}

/// One more than the place of the last pair in a key's bucket, or 0 where there is none. Equal keys have one bucket, unless
/// they are strs. None where dicts aren't linked any more.
pub fn dict_last(arena: &Arena, d: DictNo, key: Value) -> Option<u32>
    requires { IsA arena.now.objects ADict d.cell }
    ensures { IfSome result
        (IsLast (buckets_at arena.now d.cell) (bucket_of (text_at arena.now) (room_at arena.now d.cell) key)
        (length (pairs_at arena.now d.cell))) }
{
    let region = dict_region(&arena.cells, d.cell);
    let bucket = bucket_of(&arena.cells, &arena.bytes, region.room, key);
    let last = arena.cells[(region.start + 3 * bucket + 2) as usize].first();
    match arena.keys {
        Some(_) => Some(last),
        None => None,
    }
}

/// One more than the place of the last pair in the bucket where the texts that were made stand with these bytes, or 0 where there is
/// none. None where dicts aren't linked any more.
pub fn dict_last_text(arena: &Arena, d: DictNo, bytes: &[u8]) -> Option<u32>
    requires { IsA arena.now.objects ADict d.cell }
    ensures { IfSome result (IsLast (buckets_at arena.now d.cell) (text_code bytes.now % room_at arena.now d.cell) (length (pairs_at arena.now d.cell))) }
{
    let region = dict_region(&arena.cells, d.cell);
    let bucket = text_bucket(region.room, bytes);
    let last = arena.cells[(region.start + 3 * bucket + 2) as usize].first();
    match arena.keys {
        Some(_) => Some(last),
        None => None,
    }
}

/// One more than the place of the last pair in front of a pair in its bucket, or 0 where there is none. None where dicts
/// aren't linked any more.
pub fn dict_before(arena: &Arena, d: DictNo, at: u32) -> Option<u32>
    requires dict { IsA arena.now.objects ADict d.cell }
    requires within { at < length (pairs_at arena.now d.cell) }
    ensures { IfSome result (IsLast (buckets_at arena.now d.cell) (buckets_at arena.now d.cell at) at) }
{
    let region = dict_region(&arena.cells, d.cell);
    let front = arena.cells[(region.start + 3 * at + 2) as usize].next();
    match arena.keys {
        Some(_) => Some(front),
        None => None,
    }
}

/// Puts a value in the place of a pair's value. Its key stays.
pub fn dict_set_at(arena: &mut Arena, d: DictNo, at: u32, v: Value)
    requires dict { IsA arena.old.objects ADict d.cell }
    requires within { at < length (pairs_at arena.old d.cell) }
    requires leads { Leads arena.old.objects v }
    ensures set { arena.new ≡ with_dict arena.old d.cell (with_value (pairs_at arena.old d.cell) at v) }
    ensures later { Later arena.old.objects arena.new.objects }
{
    let region = dict_region(&arena.cells, d.cell);
    let place = (region.start + 3 * at) as usize + 1;
    arena.cells[place] = Cell::of(v);
}

/// Moves a dict to the room for `pairs` pairs, unless its room holds them.
pub(crate) fn reserve_dict(arena: &mut Arena, d: DictNo, pairs: u64) -> Result<(), NoRoom>
    requires { IsA arena.old.objects ADict d.cell }
    ensures ok { OnOk result (arena.new ≡ with_dict_room arena.old d.cell pairs) }
    ensures fits { OnOk result (Fits arena.old (dict_growth arena.old d.cell pairs) 0) }
    ensures refused { IfErr result (λ e. Refused arena.old arena.new e (dict_growth arena.old d.cell pairs) 0) }
{
    let region = dict_region(&arena.cells, d.cell);
    if pairs <= region.room as u64 {
        return Ok(());
    }
    let room = arena.ask_room(0, 3, pairs)?;
    let start = arena.cells.len() as u32;
    let rest = 3 * (room - region.len);
    move_cells(&mut arena.cells, region.start, 3 * region.len, rest);
    let moved = Region {
        start,
        len: region.len,
        room,
    };
    link_all(&mut arena.cells, &arena.bytes, moved);
    arena.cells[d.cell as usize] = Cell::DictHead(moved);
    Ok(())
}

/// Puts a pair behind the others of a dict that has room.
pub fn put_in_dict(arena: &mut Arena, d: DictNo, key: Value, v: Value)
    requires dict { IsA arena.old.objects ADict d.cell }
    requires key { IsKey key }
    requires key_leads { Leads arena.old.objects key }
    requires leads { Leads arena.old.objects v }
    requires room { length (pairs_at arena.old d.cell) < room_at arena.old d.cell }
    ensures { arena.new ≡ with_dict arena.old d.cell (pairs_at arena.old d.cell ++ (key, v) ∷ []) }
{
    let region = dict_region(&arena.cells, d.cell);
    let place = (region.start + 3 * region.len) as usize;
    arena.cells[place] = Cell::of(key);
    arena.cells[place + 1] = Cell::of(v);
    link(&mut arena.cells, &arena.bytes, region, region.len);
    let longer = Region {
        start: region.start,
        len: region.len + 1,
        room: region.room,
    };
    arena.cells[d.cell as usize] = Cell::DictHead(longer);
    let keys = with_key(arena.keys, key);
    arena.keys = keys;
}

/// Puts a pair behind the others. A full dict moves to its next room. The caller sees to it that no pair has an equal key.
pub fn dict_push(arena: &mut Arena, d: DictNo, key: Value, v: Value) -> Result<(), NoRoom>
    requires dict { IsA arena.old.objects ADict d.cell }
    requires key { IsKey key }
    requires key_leads { Leads arena.old.objects key }
    requires leads { Leads arena.old.objects v }
    ensures ok { OnOk result (arena.new ≡ with_pairs arena.old d.cell (pairs_at arena.old d.cell ++ (key, v) ∷ [])) }
    ensures fits { OnOk result (Fits arena.old (dict_growth arena.old d.cell (length (pairs_at arena.old d.cell) + 1)) 0) }
    ensures refused { IfErr result (λ e. Refused arena.old arena.new e (dict_growth arena.old d.cell (length (pairs_at arena.old d.cell) + 1)) 0) }
    ensures later { Later arena.old.objects arena.new.objects }
{
    let len = dict_len(arena, d);
    reserve_dict(arena, d, len as u64 + 1)?;
    put_in_dict(arena, d, key, v);
    Ok(())
}

/// Takes a pair out. Those behind it close up.
pub fn dict_remove_at(arena: &mut Arena, d: DictNo, at: u32) -> (Value, Value)
    requires dict { IsA arena.old.objects ADict d.cell }
    requires within { at < length (pairs_at arena.old d.cell) }
    ensures pair { slice_get (pairs_at arena.old d.cell) at ≡ Some result }
    ensures removed { arena.new ≡ with_dict arena.old d.cell (remove (pairs_at arena.old d.cell) at) }
    ensures leads { Leads arena.old.objects result.1 }
    ensures later { Later arena.old.objects arena.new.objects }
{
    let region = dict_region(&arena.cells, d.cell);
    let place = (region.start + 3 * at) as usize;
    let end = (region.start + 3 * region.len) as usize;
    let key = arena.cells[place].value();
    let v = arena.cells[place + 1].value();
    arena.cells.copy_within(place + 3..end, place);
    let shorter = Region {
        start: region.start,
        len: region.len - 1,
        room: region.room,
    };
    link_all(&mut arena.cells, &arena.bytes, shorter);
    arena.cells[d.cell as usize] = Cell::DictHead(shorter);
    (key, v)
}
