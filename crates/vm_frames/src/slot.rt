//! Slots, handler entries, and what a call's end does. Places in a code are offsets of its bytes.

use arena_heap::{ExcNo, ModuleNo, Value};

/// What lies in a slot.
#[derive(Clone, Copy, Debug, PartialEq, Eq)]
pub enum Slot {
    Value(Value),
    Null,
    /// The second slot of a method's look-up: the object, or none.
    Object(Option<Value>),
    /// One of the four slots of an iterator: what it goes over, its place there, and which slot it is, from 0 to 3.
    Iter {
        over: Value,
        at: u32,
        part: u8,
    },
    /// What a finally keeps: a return.
    Return(Value),
    /// What a finally keeps: a jump to the offset `target` out of `entries` more entries, which takes an iterator or not.
    Jump {
        target: u32,
        entries: u8,
        iterator: bool,
    },
}

/// An entry of a handler, which starts at an offset. It is active where its call stands there or behind.
#[derive(Clone, Copy, Debug, PartialEq, Eq)]
pub struct Entry {
    pub handler: u32,
    pub is_finally: bool,
    /// How many slots lay below it.
    pub height: u32,
    /// The exception that entered it.
    pub kept: Option<ExcNo>,
}

/// What a call's end does.
#[derive(Clone, Copy, Debug, PartialEq, Eq)]
pub enum Role {
    /// It ends the run.
    Main,
    /// It gives its value to the call that waits.
    Call,
    /// It ends the import of this module.
    Import(ModuleNo),
}
