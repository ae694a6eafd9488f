//! One frame: the memory of one call, with its locals, slots and handler entries in vectors of a fixed room.

ghost use Rattle.std.specs.Prelude.{◌≡◌, ℕ, ◌+◌, ◌-◌, ◌^◌, ◌<◌, ◌≤◌, List, [], ◌∷◌, length, drop, Option, Some, None, IfOk};
ghost use Rattle.std.specs.Prelude.{IfSome, option_and_then, slice_get, slice_set, slice_index_or, map, replicate, reverse, take};
ghost use Rattle.std.specs.Vec.{vec_capacity};
ghost use Rattle.arena_heap.specs.declared.value.Value.{Value as Item};
ghost use Rattle.vm_frames.specs.Calls.{Call};
ghost use Rattle.vm_frames.specs.Held.{Held, HasRoom};
ghost use Rattle.vm_frames.specs.Moves.{cut, kept_in};

use crate::slot::{Entry, Role, Slot};
use arena_heap::{DictNo, ExcNo, Value};
use mpy_base::NoMemory;
use std::alloc::Global;
use std::default::MadeWith;
use std::marker::Model;

/// The memory of one call. It is taken once, and serves one call after another.
#[derive(Drop)]
pub struct Frame {
    module_number: u32,
    code: u32,
    at: u32,
    names: DictNo,
    role: Role,
    locals: Vec<Option<Value>>,
    /// The slots, of which the lowest `height` are in use.
    slots: Vec<Slot>,
    height: u32,
    entries: Vec<Entry>,
    slot_room: u32,
    entry_room: u32,
}

impl Model for Frame {
    ghost use Rattle.std.specs.Prelude.{reverse, length, ◌≤◌};
    ghost use Rattle.std.specs.Vec.{vec_capacity};
    ghost use Rattle.vm_frames.specs.Held.{Held};

    ghost Value = { Held };

    ghost use Rattle.vm_frames.specs.Framed.{held_of, IsFrame};

    ghost view = { held_of };

    ghost invariant = { IsFrame };
}

/// A frame without room, which takes no memory.
impl MadeWith<Global> for Frame {
    fn made_with(alloc: Global) -> Frame {
        Frame {
            module_number: 0,
            code: 0,
            at: 0,
            names: DictNo { cell: 0 },
            role: Role::Main,
            locals: Vec::new(alloc),
            slots: Vec::new(alloc),
            height: 0,
            entries: Vec::new(alloc),
            slot_room: 0,
            entry_room: 0,
        }
    }
}

/// What the last of the entries keeps that keeps something.
fn last_kept(entries: &[Entry]) -> Option<ExcNo>
    ensures { result ≡ slice_get (kept_in (reverse entries.now)) 0 }
{
    let mut i = entries.len();
    while i > 0 {
        i -= 1;
        if let Some(x) = entries[i].kept {
            return Some(x);
        }
    }
    None
}

/// A slot goes to this place, or behind all others.
#[inline(always)]
fn put_at(slots: &mut Vec<Slot>, at: usize, slot: Slot)
    requires there { at ≤ length slots.old.items }
    requires room { at < vec_capacity slots.old }
    ensures seen { reverse (take (at + 1) slots.new.items) ≡ slot ∷ reverse (take at slots.old.items) }
    ensures there { at < length slots.new.items }
    ensures few { (room : ℕ) → at < room → length slots.old.items ≤ room → length slots.new.items ≤ room }
    ensures capacity { vec_capacity slots.old ≤ vec_capacity slots.new }
{
    if at < slots.len() {
        slots[at] = slot;
    } else {
        let _ = slots.push(slot);
    }
}

impl Frame {
    /// A frame with room for `slots` locals, `slots` slots and `entries` entries.
    pub fn new(alloc: Global, slots: u32, entries: u32) -> Result<Frame, NoMemory>
        ensures { IfOk result (λ f. HasRoom slots entries f) }
    {
        let locals = Vec::with_capacity(alloc, slots as usize)?;
        let slot_room = slots;
        let entry_room = entries;
        let slots = Vec::with_capacity(alloc, slot_room as usize)?;
        let entries = Vec::with_capacity(alloc, entry_room as usize)?;
        Ok(Frame {
            module_number: 0,
            code: 0,
            at: 0,
            names: DictNo { cell: 0 },
            role: Role::Main,
            locals,
            slots,
            height: 0,
            entries,
            slot_room,
            entry_room,
        })
    }

    /// The numbers of its module and of its code in that module, and the dict of its global names.
    #[inline(always)]
    pub fn code(&self) -> (u32, u32, DictNo)
        ensures module_number { result.0 ≡ self.now.call.module_number }
        ensures code { result.1 ≡ self.now.call.code }
        ensures names { result.2 ≡ self.now.call.names }
    {
        (self.module_number, self.code, self.names)
    }

    /// Its locals.
    pub fn locals(&self) -> &[Option<Value>]
        ensures are { result.now ≡ self.now.call.locals }
        ensures few { length result.now < 2 ^ 32 }
    {
        &self.locals
    }

    /// Its slots, the lowest first.
    pub fn slots(&self) -> &[Slot]
        ensures are { result.now ≡ reverse self.now.call.slots }
        ensures few { length result.now < 2 ^ 32 }
    {
        &self.slots[..self.height as usize]
    }

    /// Its entries, the outermost first.
    pub fn entries(&self) -> &[Entry]
        ensures are { result.now ≡ reverse self.now.call.entries }
        ensures few { length result.now < 2 ^ 32 }
    {
        let _room = self.entry_room;
        &self.entries
    }

    /// What its end does.
    #[inline(always)]
    pub fn role(&self) -> Role
        ensures { result ≡ self.now.call.role }
    {
        self.role
    }

    /// The offset of the instruction where it stands.
    #[inline(always)]
    pub fn at(&self) -> u32
        ensures { result ≡ self.now.call.at }
    {
        self.at
    }

    /// It stands at this offset from now on.
    #[inline(always)]
    pub fn go(&mut self, at: u32)
        ensures { self.new ≡ record self.old { call = record self.old.call { at = at } } }
    {
        self.at = at;
    }

    /// It begins a code, with empty locals.
    pub fn begin(&mut self, module_number: u32, code: u32, names: DictNo, role: Role, locals: u32)
        requires { locals ≤ self.old.slot_room }
        ensures { self.new ≡ record self.old {
          call = record {
            module_number = module_number;
            code = code;
            at = 0;
            names = names;
            role = role;
            locals = replicate locals None;
            slots = [];
            entries = [];
          };
        } }
    {
        self.module_number = module_number;
        self.code = code;
        self.at = 0;
        self.names = names;
        self.role = role;
        self.locals.clear();
        let _ = self.locals.resize(locals as usize, None);
        self.height = 0;
        self.entries.clear();
    }

    /// A slot more, on top.
    #[inline(always)]
    pub fn push(&mut self, slot: Slot)
        requires { length self.old.call.slots < self.old.slot_room }
        ensures { self.new ≡ record self.old { call = record self.old.call { slots = slot ∷ self.old.call.slots } } }
    {
        put_at(&mut self.slots, self.height as usize, slot);
        self.height += 1;
    }

    /// The top slot, without which it goes on.
    #[inline(always)]
    pub fn pop(&mut self) -> Slot
        requires { 0 < length self.old.call.slots }
        ensures { self.old ≡ record self.new { call = record self.new.call { slots = result ∷ self.new.call.slots } } }
    {
        self.height -= 1;
        self.slots[self.height as usize]
    }

    /// The lowest `height` slots stay, or all where there are fewer.
    pub fn cut(&mut self, height: u32)
        ensures { self.new ≡ record self.old { call = record self.old.call { slots = cut height self.old.call.slots } } }
    {
        self.height = self.height.min(height);
    }

    /// The topmost `count` slots are taken, or all where there are fewer.
    pub fn take_slots(&mut self, count: usize)
        ensures { self.new ≡ record self.old { call = record self.old.call { slots = drop count self.old.call.slots } } }
    {
        let rest = (self.height as usize).saturating_sub(count);
        self.height = rest as u32;
    }

    /// How many slots it has.
    pub fn height(&self) -> u32
        ensures { result ≡ length self.now.call.slots }
    {
        self.height
    }

    /// A slot, counted from the top.
    #[inline(always)]
    pub fn slot(&self, i: u32) -> Slot
        requires { i < length self.now.call.slots }
        ensures { slice_get self.now.call.slots i ≡ Some result }
    {
        self.slots[(self.height - 1 - i) as usize]
    }

    /// A slot, counted from the top, is this one from now on.
    #[inline(always)]
    pub fn set_slot(&mut self, i: u32, slot: Slot)
        requires { i < length self.old.call.slots }
        ensures { self.new ≡ record self.old { call = record self.old.call { slots = slice_set self.old.call.slots i slot } } }
    {
        let place = (self.height - 1 - i) as usize;
        self.slots[place] = slot;
    }

    /// A local, or None where it is empty.
    #[inline(always)]
    pub fn local(&self, i: u32) -> Option<Value>
        requires { i < length self.now.call.locals }
        ensures { slice_get self.now.call.locals i ≡ Some result }
    {
        self.locals[i as usize]
    }

    /// A local gets a value, or is emptied.
    #[inline(always)]
    pub fn set_local(&mut self, i: u32, v: Option<Value>)
        requires { i < length self.old.call.locals }
        ensures { self.new ≡ record self.old { call = record self.old.call { locals = slice_set self.old.call.locals i v } } }
    {
        self.locals[i as usize] = v;
    }

    /// The innermost entry.
    pub fn entry(&self) -> Option<Entry>
        ensures is { result ≡ slice_get self.now.call.entries 0 }
        ensures low { IfSome result (λ e. e.height < self.now.slot_room) }
    {
        self.entries.last().copied()
    }

    /// An entry more, innermost.
    pub fn add_entry(&mut self, entry: Entry)
        requires room { length self.old.call.entries < self.old.entry_room }
        requires low { entry.height < self.old.slot_room }
        ensures { self.new ≡ record self.old { call = record self.old.call { entries = entry ∷ self.old.call.entries } } }
    {
        let _ = self.entries.push(entry);
    }

    /// The exception that the innermost entry keeps which keeps one.
    pub fn last_raised(&self) -> Option<ExcNo>
        ensures { result ≡ slice_get (kept_in self.now.call.entries) 0 }
    {
        last_kept(&self.entries)
    }

    /// An entry more, over all its slots, which no exception has entered.
    pub fn setup(&mut self, handler: u32, finally: bool)
        requires slot { length self.old.call.slots < self.old.slot_room }
        requires room { length self.old.call.entries < self.old.entry_room }
        ensures { self.new ≡ record self.old {
          call = record self.old.call {
            entries = (record { handler = handler; is_finally = finally; height = length self.old.call.slots; kept = None })
                ∷ self.old.call.entries;
          };
        } }
    {
        let height = self.height();
        self.add_entry(Entry {
            handler,
            is_finally: finally,
            height,
            kept: None,
        });
    }

    /// Drops the innermost entry, if there is one.
    pub fn drop_entry(&mut self)
        ensures dropped { self.new ≡ record self.old { call = record self.old.call { entries = drop 1 self.old.call.entries } } }
        ensures room { 0 < length self.old.call.entries → length self.new.call.entries < self.new.entry_room }
    {
        let _ = self.entries.pop();
    }
}
