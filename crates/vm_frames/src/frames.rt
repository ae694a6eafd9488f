//! The stack of frames.

ghost use Rattle.std.specs.Prelude.{◌≡◌, ℕ, ◌^◌, ◌<◌, ◌≤◌, List, [], ◌∷◌, length, drop, reverse, Option, Some, None, false, IfOk};
ghost use Rattle.std.specs.Prelude.{All, slice_get, slice_set, replicate};
ghost use Rattle.mpy_base.specs.declared.limits.TheConstants.{MAX_CALLS as LIMIT};
ghost use Rattle.vm_frames.specs.Calls.{Call, Calls, OfRunning, on_running};
ghost use Rattle.vm_frames.specs.Held.{HasRoom};
ghost use Rattle.vm_frames.specs.Moves.{raised, unwound, CanUnwind, kept_in};

use crate::frame::Frame;
use crate::moves;
use crate::slot::{Entry, Role, Slot};
use arena_heap::{DictNo, ExcNo, Value};
use arrayvec::ArrayVec;
use mpy_base::NoMemory;
use mpy_base::limits::MAX_CALLS;
use std::alloc::Global;
use std::marker::Model;
use std::mem;

/// The calls of a run, in memory that is taken at once. Calls of it speak of the innermost call, which runs.
#[derive(Drop)]
pub struct Frames {
    /// The frame of the running call.
    top: Frame,
    /// Those of the calls that wait stand at places 1 and up, the outermost first. The others are spare.
    frames: ArrayVec<Frame, MAX_CALLS, Global>,
    depth: usize,
    slot_room: u32,
    entry_room: u32,
}

impl Model for Frames {
    ghost use Rattle.std.specs.Prelude.{ℕ};
    ghost use Rattle.vm_frames.specs.Calls.{Calls};
    ghost use Rattle.vm_frames.specs.Stacked.{calls_of, IsFrames};

    ghost Value = { Calls };

    ghost view = { calls_of };

    ghost invariant = { IsFrames };
}

/// As many frames as calls nest, with this room each.
fn make_frames(
    alloc: Global,
    slots: u32,
    entries: u32,
) -> Result<ArrayVec<Frame, MAX_CALLS, Global>, NoMemory>
    ensures { IfOk result (λ v. (length v.items ≡ LIMIT) × All (HasRoom slots entries) v.items) }
{
    let mut frames = ArrayVec::new_in(alloc);
    for _i in 0..MAX_CALLS {
        frames.push(Frame::new(alloc, slots, entries)?);
    }
    Ok(frames)
}

impl Frames {
    /// No calls yet, with room for `slots` locals, `slots` slots and `entries` entries in each. It takes all its memory here.
    pub fn new(alloc: Global, slots: u32, entries: u32) -> Result<Frames, NoMemory>
        ensures { IfOk result (λ f. f ≡ record { calls = []; slot_room = slots; entry_room = entries }) }
    {
        let frames = make_frames(alloc, slots, entries)?;
        let top = Frame::new(alloc, slots, entries)?;
        Ok(Frames {
            top,
            frames,
            depth: 0,
            slot_room: slots,
            entry_room: entries,
        })
    }

    /// A call has room for fewer than 2^32 locals, and for fewer than 2^32 slots.
    pub fn room_law(&self)
        ensures { self.now.slot_room < 2 ^ 32 }
    {
        let _room = self.slot_room;
    }

    /// How many calls run or wait.
    pub fn depth(&self) -> u32
        ensures { result ≡ length self.now.calls }
    {
        self.depth as u32
    }

    /// The frame of a call, the outermost first.
    pub fn frame(&self, i: u32) -> &Frame
        requires { i < length self.now.calls }
        ensures { slice_get (reverse self.now.calls) i ≡ Some result.now.call }
    {
        let above = i as usize + 1;
        if above < self.depth {
            &self.frames[above]
        } else {
            &self.top
        }
    }

    /// Begins a call of a code, with empty locals.
    pub fn push_call(
        &mut self,
        module_number: u32,
        code: u32,
        names: DictNo,
        role: Role,
        locals: u32,
    )
        requires shallow { length self.old.calls < LIMIT }
        requires room { locals ≤ self.old.slot_room }
        ensures { self.new ≡ record self.old {
          calls = (record {
            module_number = module_number;
            code = code;
            at = 0;
            names = names;
            role = role;
            locals = replicate locals None;
            slots = [];
            entries = [];
          }) ∷ self.old.calls;
        } }
    {
        let at = self.depth;
        mem::swap(&mut self.top, &mut self.frames[at]);
        self.top.begin(module_number, code, names, role, locals);
        self.depth = at + 1;
    }

    /// Ends the running call. The one that waits innermost runs again.
    pub fn pop_call(&mut self) -> Role
        requires { 0 < length self.old.calls }
        ensures calls { self.new ≡ record self.old { calls = drop 1 self.old.calls } }
        ensures role { OfRunning (λ c. result ≡ c.role) self.old.calls }
    {
        let role = self.top.role();
        let at = self.depth - 1;
        mem::swap(&mut self.top, &mut self.frames[at]);
        self.depth = at;
        role
    }

    /// The offset of its instruction.
    #[inline(always)]
    pub fn offset(&self) -> u32
        requires { 0 < length self.now.calls }
        ensures { OfRunning (λ c. result ≡ c.at) self.now.calls }
    {
        self.top.at()
    }

    /// The numbers of its module and of its code, and the dict of its module's names.
    #[inline(always)]
    pub fn running(&self) -> (u32, u32, DictNo)
        requires { 0 < length self.now.calls }
        ensures module_number { OfRunning (λ c. result.0 ≡ c.module_number) self.now.calls }
        ensures code { OfRunning (λ c. result.1 ≡ c.code) self.now.calls }
        ensures names { OfRunning (λ c. result.2 ≡ c.names) self.now.calls }
    {
        self.top.code()
    }

    /// What its end does.
    #[inline(always)]
    pub fn role(&self) -> Role
        requires { 0 < length self.now.calls }
        ensures { OfRunning (λ c. result ≡ c.role) self.now.calls }
    {
        self.top.role()
    }

    /// It stands at this offset from now on.
    #[inline(always)]
    pub fn set_offset(&mut self, offset: u32)
        requires { 0 < length self.old.calls }
        ensures { self.new ≡ on_running (λ c. record c { at = offset }) self.old }
    {
        self.top.go(offset);
    }

    /// A local, or None where it is empty.
    #[inline(always)]
    pub fn local(&self, i: u32) -> Option<Value>
        requires { OfRunning (λ c. i < length c.locals) self.now.calls }
        ensures { OfRunning (λ c. slice_get c.locals i ≡ Some result) self.now.calls }
    {
        self.top.local(i)
    }

    /// A local gets a value, or is emptied.
    #[inline(always)]
    pub fn set_local(&mut self, i: u32, v: Option<Value>)
        requires { OfRunning (λ c. i < length c.locals) self.old.calls }
        ensures { self.new ≡ on_running (λ c. record c { locals = slice_set c.locals i v }) self.old }
    {
        self.top.set_local(i, v);
    }

    /// A slot, counted from the top, from 0.
    #[inline(always)]
    pub fn slot(&self, i: u32) -> Slot
        requires { OfRunning (λ c. i < length c.slots) self.now.calls }
        ensures { OfRunning (λ c. slice_get c.slots i ≡ Some result) self.now.calls }
    {
        self.top.slot(i)
    }

    /// A slot, counted from the top, is this one from now on.
    #[inline(always)]
    pub fn set_slot(&mut self, i: u32, slot: Slot)
        requires { OfRunning (λ c. i < length c.slots) self.old.calls }
        ensures { self.new ≡ on_running (λ c. record c { slots = slice_set c.slots i slot }) self.old }
    {
        self.top.set_slot(i, slot);
    }

    /// A slot more, on top.
    #[inline(always)]
    pub fn push(&mut self, slot: Slot)
        requires { OfRunning (λ c. length c.slots < self.old.slot_room) self.old.calls }
        ensures { self.new ≡ on_running (λ c. record c { slots = slot ∷ c.slots }) self.old }
    {
        self.top.push(slot);
    }

    /// The top slot, without which it goes on.
    #[inline(always)]
    pub fn pop(&mut self) -> Slot
        requires { OfRunning (λ c. 0 < length c.slots) self.old.calls }
        ensures top { OfRunning (λ c. slice_get c.slots 0 ≡ Some result) self.old.calls }
        ensures rest { self.new ≡ on_running (λ c. record c { slots = drop 1 c.slots }) self.old }
    {
        self.top.pop()
    }

    /// An entry more, over all its slots, whose handler starts at an offset.
    pub fn setup(&mut self, handler: u32, finally: bool)
        requires slot { OfRunning (λ c. length c.slots < self.old.slot_room) self.old.calls }
        requires entry { OfRunning (λ c. length c.entries < self.old.entry_room) self.old.calls }
        ensures { self.new ≡ on_running (λ c. record c {
          entries = (record { handler = handler; is_finally = finally; height = length c.slots; kept = None }) ∷ c.entries;
        }) self.old }
    {
        self.top.setup(handler, finally);
    }

    /// An entry more, innermost.
    pub fn add_entry(&mut self, entry: Entry)
        requires room { OfRunning (λ c. length c.entries < self.old.entry_room) self.old.calls }
        requires low { entry.height < self.old.slot_room }
        ensures { self.new ≡ on_running (λ c. record c { entries = entry ∷ c.entries }) self.old }
    {
        self.top.add_entry(entry);
    }

    /// Drops its innermost entry.
    pub fn drop_entry(&mut self)
        requires { OfRunning (λ c. 0 < length c.entries) self.old.calls }
        ensures { self.new ≡ on_running (λ c. record c { entries = drop 1 c.entries }) self.old }
    {
        self.top.drop_entry();
    }

    /// The exception that the innermost entry keeps which keeps one.
    pub fn last_raised(&self) -> Option<ExcNo>
        requires { 0 < length self.now.calls }
        ensures { OfRunning (λ c. result ≡ slice_get (kept_in c.entries) 0) self.now.calls }
    {
        self.top.last_raised()
    }

    /// Raises an exception: drops active entries, and enters the innermost other one. Gives the handler's offset, or None
    /// where no entry is left: then the raise is to go on in the call that waits.
    pub fn raise(&mut self, e: ExcNo) -> Option<u32>
        requires { 0 < length self.old.calls }
        ensures handler { OfRunning (λ c. result ≡ (raised e c).handler) self.old.calls }
        ensures moved { self.new ≡ on_running (λ c. (raised e c).call) self.old }
    {
        moves::raise(&mut self.top, e)
    }

    /// Returns, or jumps out of entries: enters the innermost finally that runs before, and gives its offset. None: a return
    /// is to give its value to the call that waits, and a jump has come to its target.
    pub fn unwind(&mut self, kept: Slot) -> Option<u32>
        requires { OfRunning (CanUnwind kept) self.old.calls }
        ensures handler { OfRunning (λ c. result ≡ (unwound kept c).handler) self.old.calls }
        ensures moved { self.new ≡ on_running (λ c. (unwound kept c).call) self.old }
    {
        moves::unwind(&mut self.top, kept)
    }
}
