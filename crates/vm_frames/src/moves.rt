//! Moves of a frame through its entries: raises, returns and jumps out of them.

ghost use Rattle.std.specs.Prelude.{◌≡◌, ◌<◌, ◌≤◌, ◌∷◌, length, drop, not};
ghost use Rattle.vm_frames.specs.Held.{with_call};
ghost use Rattle.vm_frames.specs.Moves.{is_active, is_run, cut, raised, returned, jumped, unwound, CanUnwind};

use crate::frame::Frame;
use crate::slot::{Entry, Slot};
use arena_heap::{ExcNo, Value};

/// Enters the handler of the innermost entry, which is this one from now on, with a slot on its height.
fn enter(frame: &mut Frame, entry: Entry, slot: Slot)
    requires there { 0 < length frame.old.call.entries }
    requires low { entry.height < frame.old.slot_room }
    ensures { frame.new ≡ with_call frame.old (record frame.old.call {
      at = entry.handler;
      slots = slot ∷ cut entry.height frame.old.call.slots;
      entries = entry ∷ drop 1 frame.old.call.entries;
    }) }
{
    frame.cut(entry.height);
    frame.push(slot);
    frame.drop_entry();
    frame.add_entry(entry);
    frame.go(entry.handler);
}

/// Is the entry active where the frame stands?
fn active(frame: &Frame, e: Entry) -> bool
    ensures { result ≡ is_active frame.now.call.at e }
{
    e.handler <= frame.at()
}

/// Does a return or a jump out of the entry run its handler?
fn runs(frame: &Frame, e: Entry) -> bool
    ensures { result ≡ is_run frame.now.call.at e }
{
    e.is_finally && !active(frame, e)
}

/// Enters the handler of the innermost entry that isn't active, if there is one. Entries above it are dropped.
pub fn raise(frame: &mut Frame, x: ExcNo) -> Option<u32>
    ensures moved { raised x frame.old.call ≡ record { handler = result; call = frame.new.call } }
    ensures room { frame.new ≡ with_call frame.old frame.new.call }
{
    'entries: while let Some(e) = frame.entry() {
        if !active(frame, e) {
            let kept = Entry { kept: Some(x), ..e };
            enter(frame, kept, Slot::Value(Value::Exc(x)));
            return Some(e.handler);
        }
        frame.drop_entry();
    }
    None
}

/// Enters the innermost finally that a return runs, if there is one. Entries above it are dropped.
pub fn leave(frame: &mut Frame, v: Value) -> Option<u32>
    ensures moved { returned v frame.old.call ≡ record { handler = result; call = frame.new.call } }
    ensures room { frame.new ≡ with_call frame.old frame.new.call }
{
    'entries: while let Some(e) = frame.entry() {
        if runs(frame, e) {
            enter(frame, e, Slot::Return(v));
            return Some(e.handler);
        }
        frame.drop_entry();
    }
    None
}

/// Jumps to the offset `target` out of `entries` entries, up to the innermost finally that is run before.
pub fn jump(frame: &mut Frame, target: u32, entries: u8, iterator: bool) -> Option<u32>
    requires { entries ≤ length frame.old.call.entries }
    ensures moved { jumped target entries iterator frame.old.call.entries frame.old.call.slots frame.old.call
        ≡ record { handler = result; call = frame.new.call } }
    ensures room { frame.new ≡ with_call frame.old frame.new.call }
{
    let mut left = entries;
    'entries: while left > 0 {
        let Some(e) = frame.entry() else {
            unreachable!();
        };
        left -= 1;
        if runs(frame, e) {
            enter(
                frame,
                e,
                Slot::Jump {
                    target,
                    entries: left,
                    iterator,
                },
            );
            return Some(e.handler);
        }
        frame.cut(e.height);
        frame.drop_entry();
    }
    if iterator {
        frame.take_slots(4);
    }
    frame.go(target);
    None
}

/// Goes on with what a finally has kept, up to the innermost finally that runs before.
pub fn unwind(frame: &mut Frame, kept: Slot) -> Option<u32>
    requires { CanUnwind kept frame.old.call }
    ensures moved { unwound kept frame.old.call ≡ record { handler = result; call = frame.new.call } }
    ensures room { frame.new ≡ with_call frame.old frame.new.call }
{
    match kept {
        Slot::Return(v) => leave(frame, v),
        Slot::Jump {
            target,
            entries,
            iterator,
        } => jump(frame, target, entries, iterator),
        Slot::Value(_) | Slot::Null | Slot::Object(_) | Slot::Iter { .. } => unreachable!(),
    }
}
