//! The frames of a snapshot.

ghost use Rattle.std.specs.Prelude.{◌≡◌, ◌∷◌, ◌++◌, ◌+◌, ◌<◌, ◌≤◌, ◌^◌, ℕ, All, [], length, map, drop, reverse};
ghost use Rattle.std.specs.Prelude.{slice_get, Option, Some, None, IfOk, OnOk};
ghost use Rattle.std.specs.Option.{option_map};
ghost use Rattle.mpy_base.specs.declared.limits.TheConstants.{MAX_CALLS};
ghost use Rattle.bc_library.specs.Greatest.{IsGreatestIn, ShelfHas};
ghost use Rattle.vm_frames.specs.Calls.{Call, OfRunning, on_running};
ghost use Rattle.snap_grammar.specs.declared.parts.EntryPart.{EntryPart as EntryOf};
ghost use Rattle.snap_grammar.specs.declared.parts.RolePart.{RolePart as RoleOf};
ghost use Rattle.snap_states.specs.Decoded as decoded;
ghost use Rattle.snap_states.specs.Decoded.{AreCallsOf, IsCallOf, call_of, stack_of};
ghost use Rattle.snap_states.specs.Parts as parts;
ghost use Rattle.snap_states.specs.States.{IsFineFrame, IsShaped};
ghost use Rattle.snap_loading.specs.Framing.{FitsSlot, HasPlace, HasRoomFor, count_of, slots_in};
ghost use Rattle.snap_loading.specs.Looked.{IsLookup};

use crate::lookup::{Lookup, cell_of};
use crate::values::value_of;
use arena_heap::{DictNo, ExcNo, ModuleNo, Value};
use bc_shapes::Kind;
use mpy_base::NoMemory;
use snap_grammar::{EntryPart, FramePart, RolePart, SlotPart};
use snap_states::kinds_at;
use std::alloc::Global;
use vm_frames::{Entry, Frames, Role, Slot};
use vm_machine::Rows;

/// What the end of a frame does.
fn role_of(lookup: &Lookup, role: &RolePart) -> Role
    requires { IsLookup lookup.now }
    ensures { result ≡ decoded.role_of lookup.now.library.now lookup.now.snapshot.now role.now }
{
    match role {
        RolePart::Main => Role::Main,
        RolePart::Call => Role::Call,
        RolePart::Import(number) => {
            let cell = cell_of(lookup, *number);
            Role::Import(ModuleNo { cell })
        }
    }
}

/// The exception that an entry keeps.
fn kept_of(lookup: &Lookup, kept: Option<u32>) -> Option<ExcNo>
    requires { IsLookup lookup.now }
    ensures { result ≡ option_map (λ number. record {
      cell = parts.cell_of lookup.now.snapshot.now.objects number;
    }) kept }
{
    match kept {
        Some(number) => {
            let cell = cell_of(lookup, number);
            Some(ExcNo { cell })
        }
        None => None,
    }
}

/// An entry of a handler.
fn handler_of(lookup: &Lookup, entry: &EntryPart) -> Entry
    requires { IsLookup lookup.now }
    ensures { result ≡ decoded.handler_of lookup.now.library.now lookup.now.snapshot.now entry.now }
{
    let kept = kept_of(lookup, entry.kept);
    Entry {
        handler: entry.handler,
        is_finally: entry.is_finally,
        height: entry.height,
        kept,
    }
}

/// A local, which is empty where no value stands there.
fn local_of(lookup: &Lookup, part: &SlotPart) -> Option<Value>
    requires { IsLookup lookup.now }
    ensures { result ≡ decoded.local_of lookup.now.library.now lookup.now.snapshot.now part.now }
{
    match part {
        SlotPart::Value(v) => Some(value_of(lookup, v)),
        SlotPart::Empty => None,
        SlotPart::Iterator { .. } => None,
        SlotPart::Left { .. } => None,
        SlotPart::Return(_) => None,
        SlotPart::Jump { .. } => None,
    }
}

/// A value in a slot of this kind.
fn filled(kind: Option<Kind>, v: Value) -> Slot
    ensures { result ≡ decoded.filled kind v }
{
    match kind {
        Some(Kind::Method) => Slot::Object(Some(v)),
        _ => Slot::Value(v),
    }
}

/// Nothing in a slot of this kind.
fn vacant(kind: Option<Kind>) -> Slot
    ensures { result ≡ decoded.vacant kind }
{
    match kind {
        Some(Kind::Method) => Slot::Object(None),
        _ => Slot::Null,
    }
}

/// The lowest slots of an iterator, as many as that.
fn push_iterator(frames: &mut Frames, count: u8, over: Value, at: u32)
    requires { OfRunning (λ c. length c.slots + count ≤ frames.old.slot_room) frames.old.calls }
    ensures { frames.new ≡ on_running (λ c. record c {
      slots = decoded.iterator_of count over at ++ c.slots;
    }) frames.old }
{
    for part in 0..count {
        frames.push(Slot::Iter { over, at, part });
    }
}

/// The slots of a part, of which a single one is of this kind.
fn push_part(frames: &mut Frames, lookup: &Lookup, kind: Option<Kind>, part: &SlotPart)
    requires lookup { IsLookup lookup.now }
    requires fits { FitsSlot part.now }
    requires room { OfRunning (λ c.
        length c.slots + length (decoded.slots_of lookup.now.library.now lookup.now.snapshot.now kind part.now)
        ≤ frames.old.slot_room) frames.old.calls }
    ensures { frames.new ≡ on_running (λ c. record c {
      slots = decoded.slots_of lookup.now.library.now lookup.now.snapshot.now kind part.now ++ c.slots;
    }) frames.old }
{
    match part {
        SlotPart::Value(v) => {
            let value = value_of(lookup, v);
            let slot = filled(kind, value);
            frames.push(slot);
        }
        SlotPart::Empty => {
            let slot = vacant(kind);
            frames.push(slot);
        }
        SlotPart::Iterator { over, at } => {
            let value = value_of(lookup, over);
            push_iterator(frames, 4, value, *at);
        }
        SlotPart::Left { slots, over, at } => {
            let value = value_of(lookup, over);
            push_iterator(frames, *slots as u8, value, *at);
        }
        SlotPart::Return(v) => {
            let value = value_of(lookup, v);
            frames.push(Slot::Return(value));
        }
        SlotPart::Jump {
            target,
            entries,
            iterator,
        } => {
            frames.push(Slot::Jump {
                target: *target,
                entries: *entries as u8,
                iterator: *iterator,
            });
        }
    }
}

/// How many slots a part is.
fn slot_count(part: &SlotPart) -> usize
    ensures { result ≡ count_of part.now }
{
    match part {
        SlotPart::Iterator { .. } => 4,
        SlotPart::Left { slots, .. } => *slots as usize,
        SlotPart::Value(_) | SlotPart::Empty | SlotPart::Return(_) | SlotPart::Jump { .. } => 1,
    }
}

/// The part at a place.
fn part_at(parts: &[SlotPart], at: usize) -> &SlotPart
    requires { at < length parts.now }
    ensures { slice_get parts.now at ≡ Some result.now }
{
    &parts[at]
}

/// The kind at a place, if there is one.
fn kind_in(kinds: &[Kind], at: usize) -> Option<Kind>
    ensures { result ≡ slice_get kinds.now at }
{
    kinds.get(at).copied()
}

/// The slots of a frame, from the lowest on: the lowest of the slots of these kinds, of which the topmost stands first.
fn push_slots(frames: &mut Frames, lookup: &Lookup, kinds: &[Kind], parts: &[SlotPart])
    requires lookup { IsLookup lookup.now }
    requires fit { All FitsSlot parts.now }
    requires among { slots_in parts.now ≤ length kinds.now }
    requires room { OfRunning (λ c. length c.slots + slots_in parts.now ≤ frames.old.slot_room) frames.old.calls }
    ensures { (taken : ℕ) → taken + slots_in parts.now ≡ length kinds.now
        → frames.new ≡ on_running (λ c. record c {
          slots = stack_of lookup.now.library.now lookup.now.snapshot.now (drop taken kinds.now) (reverse parts.now)
              ++ c.slots;
        }) frames.old }
{
    let mut left = kinds.len();
    for at in 0..parts.len() {
        let part = part_at(parts, at);
        left -= slot_count(part);
        let kind = kind_in(kinds, left);
        push_part(frames, lookup, kind, part);
    }
}

/// The locals of the running call, which has as many.
fn set_locals(frames: &mut Frames, lookup: &Lookup, parts: &[SlotPart])
    requires lookup { IsLookup lookup.now }
    requires as_many { OfRunning (λ c. length c.locals ≡ length parts.now) frames.old.calls }
    requires few { length parts.now < 2 ^ 32 }
    ensures { frames.new ≡ on_running (λ c. record c {
      locals = map (decoded.local_of lookup.now.library.now lookup.now.snapshot.now) parts.now;
    }) frames.old }
{
    for at in 0..parts.len() {
        let part = part_at(parts, at);
        let v = local_of(lookup, part);
        frames.set_local(at as u32, v);
    }
}

/// The entry at a place.
fn entry_at(parts: &[EntryPart], at: usize) -> &EntryPart
    requires { at < length parts.now }
    ensures { slice_get parts.now at ≡ Some result.now }
{
    &parts[at]
}

/// The entries of the running call, which has none, from the outermost on.
fn add_entries(frames: &mut Frames, lookup: &Lookup, parts: &[EntryPart])
    requires lookup { IsLookup lookup.now }
    requires room { OfRunning (λ c. length c.entries + length parts.now ≤ frames.old.entry_room) frames.old.calls }
    requires low { (at : ℕ) (part : EntryOf) → slice_get parts.now at ≡ Some part → part.height < frames.old.slot_room }
    ensures { frames.new ≡ on_running (λ c. record c {
      entries = map (decoded.handler_of lookup.now.library.now lookup.now.snapshot.now) (reverse parts.now)
          ++ c.entries;
    }) frames.old }
{
    for at in 0..parts.len() {
        let part = entry_at(parts, at);
        let entry = handler_of(lookup, part);
        frames.add_entry(entry);
    }
}

/// A call that stands where the frame does, in code whose slots there are of these kinds, the topmost first.
fn put_frame(frames: &mut Frames, lookup: &Lookup, kinds: &[Kind], frame: &FramePart)
    requires lookup { IsLookup lookup.now }
    requires shallow { length frames.old.calls < MAX_CALLS }
    requires place { HasPlace frames.old.slot_room frames.old.entry_room (length kinds.now) frame.now }
    ensures { (taken : ℕ) → taken + slots_in frame.now.slots ≡ length kinds.now → frames.new ≡ record frames.old {
      calls = call_of lookup.now.library.now lookup.now.snapshot.now (drop taken kinds.now) frame.now
          ∷ frames.old.calls;
    } }
{
    frames.room_law();
    let cell = cell_of(lookup, frame.names);
    let role = role_of(lookup, &frame.role);
    let locals = frame.locals.as_slice();
    frames.push_call(
        frame.module_number,
        frame.code,
        DictNo { cell },
        role,
        locals.len() as u32,
    );
    frames.set_offset(frame.at);
    set_locals(frames, lookup, locals);
    push_slots(frames, lookup, kinds, frame.slots.as_slice());
    add_entries(frames, lookup, frame.entries.as_slice());
}

/// A call that the frame stands for.
fn put_next(
    alloc: Global,
    frames: &mut Frames,
    lookup: &Lookup,
    rows: &Rows<'_>,
    frame: &FramePart,
) -> Result<(), NoMemory>
    requires lookup { IsLookup lookup.now }
    requires rows { rows.now ≡ lookup.now.library.now }
    requires room { HasRoomFor lookup.now.library.now frames.old }
    requires shallow { length frames.old.calls < MAX_CALLS }
    requires fine { (above : Option RoleOf)
        × IsFineFrame lookup.now.library.now lookup.now.snapshot.now above frame.now }
    ensures { OnOk result ((c : Call) × IsCallOf lookup.now.library.now lookup.now.snapshot.now frame.now c
        × (frames.new ≡ record frames.old { calls = c ∷ frames.old.calls })) }
{
    match kinds_at(
        alloc,
        lookup.library,
        rows,
        frame.module_number,
        frame.code,
        frame.at,
    )? {
        None => unreachable!(),
        Some(kinds) => {
            put_frame(frames, lookup, &kinds, frame);
            Ok(())
        }
    }
}

/// The frame at a place.
fn frame_at(parts: &[FramePart], at: usize) -> &FramePart
    requires { at < length parts.now }
    ensures { slice_get parts.now at ≡ Some result.now }
{
    &parts[at]
}

/// The calls that the frames stand for, from the outermost on.
fn put_frames(
    alloc: Global,
    frames: &mut Frames,
    lookup: &Lookup,
    rows: &Rows<'_>,
) -> Result<(), NoMemory>
    requires lookup { IsLookup lookup.now }
    requires rows { rows.now ≡ lookup.now.library.now }
    requires shaped { IsShaped lookup.now.library.now lookup.now.snapshot.now }
    requires room { HasRoomFor lookup.now.library.now frames.old }
    requires none { frames.old.calls ≡ [] }
    ensures calls { OnOk result (AreCallsOf lookup.now.library.now lookup.now.snapshot.now
        (reverse lookup.now.snapshot.now.frames) frames.new.calls) }
    ensures rooms { OnOk result (frames.new ≡ record frames.old { calls = frames.new.calls }) }
{
    let parts = lookup.snapshot.frames.as_slice();
    for at in 0..parts.len() {
        let frame = frame_at(parts, at);
        put_next(alloc, frames, lookup, rows, frame)?;
    }
    Ok(())
}

/// The calls that a snapshot stands for, with a slot more, and as many entries, in each as a code of the library takes
/// at most. In a time that grows with the frames and, for each, with its code. It takes all memory of the calls here.
pub(crate) fn frames_of(
    alloc: Global,
    lookup: &Lookup,
    rows: &Rows<'_>,
    slots: u32,
    entries: u32,
) -> Result<Frames, NoMemory>
    requires lookup { IsLookup lookup.now }
    requires rows { rows.now ≡ lookup.now.library.now }
    requires shaped { IsShaped lookup.now.library.now lookup.now.snapshot.now }
    requires greatest { IsGreatestIn (ShelfHas lookup.now.library.now) slots entries }
    requires few { slots ≤ 4096 }
    ensures calls { IfOk result (λ frames. AreCallsOf lookup.now.library.now lookup.now.snapshot.now
        (reverse lookup.now.snapshot.now.frames) frames.calls) }
    ensures slot_room { IfOk result (λ frames. frames.slot_room ≡ slots + 1) }
    ensures entry_room { IfOk result (λ frames. frames.entry_room ≡ entries) }
{
    let mut frames = Frames::new(alloc, slots + 1, entries)?;
    match put_frames(alloc, &mut frames, lookup, rows) {
        Ok(()) => Ok(frames),
        Err(e) => Err(e),
    }
}
