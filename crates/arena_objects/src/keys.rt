//! What a dict knows of a key.

ghost use Rattle.std.specs.Prelude.{◌≡◌, ◌↔◌, Some, IsTrue};
ghost use Rattle.arena_heap.specs.Values.{Leads, IsKey};
ghost use Rattle.arena_heap.specs.Constants.{IsTold};
ghost use Rattle.arena_objects.specs.Keys.{key_of};
ghost use Rattle.arena_objects.specs.PlainKeys.{plain};

use crate::strs::text_bytes;
use arena_heap::{Arena, Constants, Value};

/// A key by its value: True is the number 1, and a str is its bytes.
#[derive(Clone, Copy)]
pub(crate) enum Key<'a> {
    None,
    Number(i32),
    Text(&'a [u8]),
}

impl<'a> Key<'a> {
    /// What a value is as a key.
    pub(crate) fn of<C: Constants>(arena: &'a Arena, consts: &'a C, key: Value) -> Key<'a>
        requires key { IsKey key }
        requires leads { Leads arena.now.objects key }
        requires told { IsTold (C.text_of consts.now) (C.items_of consts.now) key }
        ensures { key_of (C.text_of consts.now) arena.now key ≡ Some (plain result) }
    {
        match key {
            Value::None => Key::None,
            Value::Bool(b) => Key::Number(b as i32),
            Value::Int(n) => Key::Number(n),
            s => Key::Text(text_bytes(arena, consts, s)),
        }
    }

    /// Are the two one key to a dict? Its time is that of a comparison of two texts.
    pub(crate) fn is(self, other: Key) -> bool
        ensures { IsTrue result ↔ (plain self.entry ≡ plain other.entry) }
    {
        match (self, other) {
            (Key::None, Key::None) => true,
            (Key::Number(m), Key::Number(n)) => m == n,
            (Key::Text(s), Key::Text(t)) => s == t,
            _ => false,
        }
    }
}
