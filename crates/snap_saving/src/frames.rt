//! Frames of a snapshot, with their locals, slots and entries.

ghost use Rattle.std.specs.Prelude.{◌≡◌, ◌+◌, ◌<◌, ◌≤◌, ◌^◌, ◌∷◌, ◌++◌, length, option_map, reverse, slice_get, Some, if◌then◌else◌, OnOk};
ghost use Rattle.std.specs.List.{flat_map};
ghost use Rattle.snap_grammar.specs.Spelling.{mark, takes_iterator};
ghost use Rattle.snap_saving.specs.Put.{if_kept, number, role as role_as_put, slot as slot_as_put};
ghost use Rattle.snap_saving.specs.Saved.{IfFault, IsLong};
ghost use Rattle.snap_saving.specs.Shown.{goes_on as goes_on_in, is_shown as is_shown_in, iterator_part, kept_part, role_part, shown_slots};
ghost use Rattle.snap_saving.specs.Steps.{call_bytes, entries_bytes, entry_bytes, found, local_bytes, locals_bytes};
ghost use Rattle.snap_saving.specs.Steps.{running_bytes, shown_bytes, slot_bytes, slots_bytes, value_bytes};

use crate::bytes::{is_long, put_byte, put_left, put_number};
use crate::fault::SaveFault;
use crate::values::{place, put_value};
use arena_heap::{ExcNo, Value};
use bc_library::Library;
use mpy_base::{NoMemory, Refused};
use vm_frames::{Entry, Frame, Frames, Role, Slot};

/// A local.
fn put_local(
    out: &mut Vec<u8>,
    library: &Library,
    places: &[u32],
    local: Option<Value>,
) -> Result<(), NoMemory>
    ensures { OnOk result (out.new.items ≡ out.old.items ++ local_bytes library.now (found places.now) local) }
{
    match local {
        Some(v) => put_value(out, library, places, v),
        None => put_byte(out, 9),
    }
}

/// The locals, one after another.
fn put_locals(
    out: &mut Vec<u8>,
    library: &Library,
    places: &[u32],
    locals: &[Option<Value>],
) -> Result<(), Refused<SaveFault>>
    ensures ok { OnOk result (out.new.items ≡ out.old.items ++ flat_map (local_bytes library.now (found places.now)) locals.now) }
    ensures fault { IfFault result (IsLong (out.old.items ++ flat_map (local_bytes library.now (found places.now)) locals.now)) }
{
    for local in locals {
        put_local(out, library, places, *local)?;
        if is_long(out) {
            return Err(Refused::Fault(SaveFault::TooBig));
        }
    }
    Ok(())
}

/// Whether the next slot is of the same iterator.
fn goes_on(part: u8, above: Option<Slot>) -> bool
    ensures { result ≡ goes_on_in part above }
{
    match above {
        Some(Slot::Iter { part: next, .. }) => next as u32 == part as u32 + 1,
        _ => false,
    }
}

/// Whether a slot below another one is shown: of the slots of an iterator the topmost is.
fn is_shown(slot: Slot, above: Option<Slot>) -> bool
    ensures { result ≡ is_shown_in slot above }
{
    match slot {
        Slot::Iter { part, .. } => !goes_on(part, above),
        _ => true,
    }
}

/// The slot at a place.
fn slot_at(slots: &[Slot], i: usize) -> Slot
    requires { i < length slots.now }
    ensures { slice_get slots.now i ≡ Some result }
{
    slots[i]
}

/// The slot above another one.
fn above(slots: &[Slot], i: usize) -> Option<Slot>
    requires { i < length slots.now }
    ensures { result ≡ slice_get slots.now (i + 1) }
{
    slots.get(i + 1).copied()
}

/// One, if a slot below another one is shown, and otherwise none.
fn count_shown(slot: Slot, above: Option<Slot>) -> u32
    ensures is { result ≡ (if is_shown_in slot above then 1 else 0) }
    ensures few { result ≤ 1 }
{
    match is_shown(slot, above) {
        true => 1,
        false => 0,
    }
}

/// How many slots are shown.
fn count_slots(slots: &[Slot]) -> u32
    requires { length slots.now < 2 ^ 32 }
    ensures { result ≡ length (shown_slots slots.now) }
{
    let mut count = 0;
    for i in 0..slots.len() {
        count += count_shown(slot_at(slots, i), above(slots, i));
    }
    count
}

/// A value that is iterated, and the place there.
fn put_over(
    out: &mut Vec<u8>,
    library: &Library,
    places: &[u32],
    over: Value,
    at: u32,
) -> Result<(), NoMemory>
    ensures { OnOk result (out.new.items ≡ out.old.items ++ (value_bytes library.now (found places.now) over ++ number at)) }
{
    put_value(out, library, places, over)?;
    put_number(out, at)?;
    Ok(())
}

/// An iterator, whole or with as many slots as are left.
fn put_iterator(
    out: &mut Vec<u8>,
    library: &Library,
    places: &[u32],
    over: Value,
    at: u32,
    part: u8,
) -> Result<(), NoMemory>
    ensures { OnOk result (out.new.items ≡ out.old.items ++ slot_as_put (iterator_part library.now (found places.now) over at part)) }
{
    if part == 3 {
        out.push(10)?;
        put_over(out, library, places, over, at)?;
    } else {
        out.push(11)?;
        put_left(out, part)?;
        put_over(out, library, places, over, at)?;
    }
    Ok(())
}

/// Whether a jump takes the iterator.
fn put_taking(out: &mut Vec<u8>, iterator: bool) -> Result<(), NoMemory>
    ensures { OnOk result (out.new.items ≡ out.old.items ++ takes_iterator iterator) }
{
    match iterator {
        true => put_byte(out, 0x80),
        false => put_byte(out, 0),
    }
}

/// A jump that a finally keeps.
fn put_jump(out: &mut Vec<u8>, target: u32, entries: u8, iterator: bool) -> Result<(), NoMemory>
    ensures { OnOk result (out.new.items ≡ out.old.items ++ (14 ∷ (number target ++ (number entries ++ takes_iterator iterator)))) }
{
    out.push(14)?;
    put_number(out, target)?;
    put_number(out, entries as u32)?;
    put_taking(out, iterator)?;
    Ok(())
}

/// A return that a finally keeps.
fn put_return(
    out: &mut Vec<u8>,
    library: &Library,
    places: &[u32],
    v: Value,
) -> Result<(), NoMemory>
    ensures { OnOk result (out.new.items ≡ out.old.items ++ (13 ∷ value_bytes library.now (found places.now) v)) }
{
    out.push(13)?;
    put_value(out, library, places, v)?;
    Ok(())
}

/// A slot that is shown.
fn put_slot(
    out: &mut Vec<u8>,
    library: &Library,
    places: &[u32],
    slot: Slot,
) -> Result<(), NoMemory>
    ensures { OnOk result (out.new.items ≡ out.old.items ++ slot_bytes library.now (found places.now) slot) }
{
    match slot {
        Slot::Value(v) => put_value(out, library, places, v),
        Slot::Null => put_byte(out, 9),
        Slot::Object(object) => put_local(out, library, places, object),
        Slot::Iter { over, at, part } => put_iterator(out, library, places, over, at, part),
        Slot::Return(v) => put_return(out, library, places, v),
        Slot::Jump {
            target,
            entries,
            iterator,
        } => put_jump(out, target, entries, iterator),
    }
}

/// A slot below another one, if it is shown.
#[tactic(auto, using(crate::proofs::Slots::is_put, crate::proofs::Slots::not_put))]
fn put_shown(
    out: &mut Vec<u8>,
    library: &Library,
    places: &[u32],
    slot: Slot,
    above: Option<Slot>,
) -> Result<(), NoMemory>
    ensures { OnOk result (out.new.items ≡ out.old.items ++ shown_bytes library.now (found places.now) slot above) }
{
    match is_shown(slot, above) {
        true => put_slot(out, library, places, slot),
        false => Ok(()),
    }
}

/// The slots that are shown, from the lowest on.
fn put_slots(
    out: &mut Vec<u8>,
    library: &Library,
    places: &[u32],
    slots: &[Slot],
) -> Result<(), Refused<SaveFault>>
    ensures ok { OnOk result (out.new.items ≡ out.old.items ++ flat_map (slot_bytes library.now (found places.now)) (shown_slots slots.now)) }
    ensures fault { IfFault result (IsLong (out.old.items ++ flat_map (slot_bytes library.now (found places.now)) (shown_slots slots.now))) }
{
    for i in 0..slots.len() {
        put_shown(out, library, places, slot_at(slots, i), above(slots, i))?;
        if is_long(out) {
            return Err(Refused::Fault(SaveFault::TooBig));
        }
    }
    Ok(())
}

/// A mark.
fn put_mark(out: &mut Vec<u8>, is: bool) -> Result<(), NoMemory>
    ensures { OnOk result (out.new.items ≡ out.old.items ++ mark is) }
{
    match is {
        true => put_byte(out, 1),
        false => put_byte(out, 0),
    }
}

/// The exception that an entry keeps, if it keeps one.
fn put_kept(out: &mut Vec<u8>, places: &[u32], kept: Option<ExcNo>) -> Result<(), NoMemory>
    ensures { OnOk result (out.new.items ≡ out.old.items ++ if_kept (option_map (kept_part (found places.now)) kept)) }
{
    match kept {
        Some(e) => {
            out.push(1)?;
            put_number(out, place(places, e.cell))
        }
        None => put_byte(out, 0),
    }
}

/// An entry of a frame that stands at an offset.
fn put_entry(out: &mut Vec<u8>, places: &[u32], at: u32, entry: Entry) -> Result<(), NoMemory>
    ensures { OnOk result (out.new.items ≡ out.old.items ++ entry_bytes (found places.now) at entry) }
{
    put_number(out, entry.handler)?;
    put_mark(out, entry.is_finally)?;
    put_mark(out, entry.handler <= at)?;
    put_number(out, entry.height)?;
    put_kept(out, places, entry.kept)?;
    Ok(())
}

/// The entries, from the outermost on.
fn put_entries(
    out: &mut Vec<u8>,
    places: &[u32],
    at: u32,
    entries: &[Entry],
) -> Result<(), NoMemory>
    ensures { OnOk result (out.new.items ≡ out.old.items ++ flat_map (entry_bytes (found places.now) at) entries.now) }
{
    for entry in entries {
        put_entry(out, places, at, *entry)?;
    }
    Ok(())
}

/// What the end of a frame does.
fn put_role(out: &mut Vec<u8>, places: &[u32], role: Role) -> Result<(), NoMemory>
    ensures { OnOk result (out.new.items ≡ out.old.items ++ role_as_put (role_part (found places.now) role)) }
{
    match role {
        Role::Main => put_byte(out, 0),
        Role::Call => put_byte(out, 1),
        Role::Import(m) => {
            out.push(2)?;
            put_number(out, place(places, m.cell))
        }
    }
}

/// What a frame runs, where it stands, its namespace and its role.
fn put_running(out: &mut Vec<u8>, places: &[u32], frame: &Frame) -> Result<(), NoMemory>
    ensures { OnOk result (out.new.items ≡ out.old.items ++ running_bytes (found places.now) frame.now.call) }
{
    let (module_number, code, names) = frame.code();
    put_number(out, module_number)?;
    put_number(out, code)?;
    put_number(out, frame.at())?;
    put_number(out, place(places, names.cell))?;
    put_role(out, places, frame.role())?;
    Ok(())
}

/// How many locals there are, and these.
fn put_all_locals(
    out: &mut Vec<u8>,
    library: &Library,
    places: &[u32],
    locals: &[Option<Value>],
) -> Result<(), Refused<SaveFault>>
    requires { length locals.now < 2 ^ 32 }
    ensures ok { OnOk result (out.new.items ≡ out.old.items ++ locals_bytes library.now (found places.now) locals.now) }
    ensures fault { IfFault result (IsLong (out.old.items ++ locals_bytes library.now (found places.now) locals.now)) }
{
    put_number(out, locals.len() as u32)?;
    put_locals(out, library, places, locals)
}

/// How many slots are shown, and these.
fn put_all_slots(
    out: &mut Vec<u8>,
    library: &Library,
    places: &[u32],
    slots: &[Slot],
) -> Result<(), Refused<SaveFault>>
    requires { length slots.now < 2 ^ 32 }
    ensures ok { OnOk result (out.new.items ≡ out.old.items ++ slots_bytes library.now (found places.now) slots.now) }
    ensures fault { IfFault result (IsLong (out.old.items ++ slots_bytes library.now (found places.now) slots.now)) }
{
    put_number(out, count_slots(slots))?;
    put_slots(out, library, places, slots)
}

/// How many entries there are, and these.
fn put_all_entries(
    out: &mut Vec<u8>,
    places: &[u32],
    at: u32,
    entries: &[Entry],
) -> Result<(), NoMemory>
    requires { length entries.now < 2 ^ 32 }
    ensures { OnOk result (out.new.items ≡ out.old.items ++ entries_bytes (found places.now) at entries.now) }
{
    put_number(out, entries.len() as u32)?;
    put_entries(out, places, at, entries)?;
    Ok(())
}

/// A frame.
fn put_frame(
    out: &mut Vec<u8>,
    library: &Library,
    places: &[u32],
    frame: &Frame,
) -> Result<(), Refused<SaveFault>>
    ensures ok { OnOk result (out.new.items ≡ out.old.items ++ call_bytes library.now (found places.now) frame.now.call) }
    ensures fault { IfFault result (IsLong (out.old.items ++ call_bytes library.now (found places.now) frame.now.call)) }
{
    put_running(out, places, frame)?;
    put_all_locals(out, library, places, frame.locals())?;
    put_all_slots(out, library, places, frame.slots())?;
    put_all_entries(out, places, frame.at(), frame.entries())?;
    Ok(())
}

/// The frames, from the outermost on.
pub(crate) fn put_frames(
    out: &mut Vec<u8>,
    library: &Library,
    places: &[u32],
    frames: &Frames,
) -> Result<(), Refused<SaveFault>>
    ensures ok { OnOk result (out.new.items ≡ out.old.items ++ flat_map (call_bytes library.now (found places.now)) (reverse frames.now.calls)) }
    ensures fault { IfFault result (IsLong (out.old.items ++ flat_map (call_bytes library.now (found places.now)) (reverse frames.now.calls))) }
{
    for i in 0..frames.depth() {
        put_frame(out, library, places, frames.frame(i))?;
        if is_long(out) {
            return Err(Refused::Fault(SaveFault::TooBig));
        }
    }
    Ok(())
}
