//! The keys of a dict.

ghost use Rattle.std.specs.Prelude.{◌≡◌, ◌↔◌, ◌<◌, ℕ, [], false, IfOk, IsSome, IsTrue, Some, length};
ghost use Rattle.prim_walks.specs.py_values.Keys.{NoneKey, NumberKey, PlainKey, TextKey};
ghost use Rattle.snap_states.specs.Held.{IsAdded};
ghost use Rattle.snap_states.specs.Knowing.{AreOnce};
ghost use Rattle.snap_states.specs.States as states;

use crate::texts::TextSet;
use indexmap::IndexSet;
use mpy_base::NoMemory;
use snap_grammar::{ObjectPart, PairPart, Snapshot, ValuePart};
use std::alloc::Global;
use std::marker::Model;

/// Keys, looked up in a time that doesn't grow with their count.
#[derive(Drop)]
struct KeySet {
    nothing: bool,
    numbers: IndexSet<i32>,
    texts: TextSet,
}

impl Model for KeySet {
    ghost use Rattle.snap_states.specs.Held.{Held};

    ghost Value = { Held };

    ghost view = { λ set. record { nothing = set.nothing; numbers = set.numbers.keys; texts = set.texts } };
}

impl KeySet {
    /// The set of no keys, which takes no memory.
    fn new(alloc: Global) -> KeySet
        ensures { result ≡ record { nothing = false; numbers = []; texts = [] } }
    {
        KeySet {
            nothing: false,
            numbers: IndexSet::new(alloc),
            texts: TextSet::new(alloc),
        }
    }

    /// Adds None, and tells whether it was new.
    fn add_nothing(&mut self) -> bool
        ensures { IsAdded self.old NoneKey self.new result }
    {
        let was_new = !self.nothing;
        self.nothing = true;
        was_new
    }

    /// Adds a number, and tells whether it was new.
    fn add_number(&mut self, z: i32) -> Result<bool, NoMemory>
        ensures { IfOk result (IsAdded self.old (NumberKey z) self.new) }
    {
        Ok(self.numbers.insert(z)?)
    }

    /// Adds a text, and tells whether it was new.
    fn add_text(&mut self, alloc: Global, text: &[u8]) -> Result<bool, NoMemory>
        ensures { IfOk result (IsAdded self.old (TextKey text.now) self.new) }
    {
        self.texts.insert(alloc, text)
    }
}

/// Adds the bytes of the text object of a number, and tells whether they were new.
fn add_object(
    alloc: Global,
    set: &mut KeySet,
    snapshot: &Snapshot,
    number: u32,
) -> Result<bool, NoMemory>
    ensures { (key : PlainKey) → states.key_at snapshot.now number ≡ Some key → IfOk result (IsAdded set.old key set.new) }
{
    match snapshot.objects.get(number as usize) {
        Some(ObjectPart::Text { bytes }) => set.add_text(alloc, bytes.bytes()),
        _ => Ok(false),
    }
}

/// Adds a value that is a key, and tells whether it was new.
fn add_key(
    alloc: Global,
    set: &mut KeySet,
    snapshot: &Snapshot,
    v: &ValuePart,
) -> Result<bool, NoMemory>
    ensures { (key : PlainKey) → states.key_of_part snapshot.now v.now ≡ Some key → IfOk result (IsAdded set.old key set.new) }
{
    match v {
        ValuePart::None => Ok(set.add_nothing()),
        ValuePart::False => set.add_number(0),
        ValuePart::True => set.add_number(1),
        ValuePart::Int(z) => set.add_number(*z),
        ValuePart::Object(number) => add_object(alloc, set, snapshot, *number),
        ValuePart::Str(text) => set.add_text(alloc, text.bytes()),
        ValuePart::Fixed(_, _) | ValuePart::Empty | ValuePart::Named(_) => Ok(false),
    }
}

/// Whether no two of the keys are one.
pub(crate) fn are_once(
    alloc: Global,
    snapshot: &Snapshot,
    pairs: &[PairPart],
) -> Result<bool, NoMemory>
    requires { (i : ℕ) → i < length pairs.now → IsSome (states.key_in_part snapshot.now pairs.now i) }
    ensures { IfOk result (λ once. IsTrue once ↔ AreOnce snapshot.now pairs.now (length pairs.now)) }
{
    let mut set = KeySet::new(alloc);
    for pair in pairs {
        if !add_key(alloc, &mut set, snapshot, &pair.key)? {
            return Ok(false);
        }
    }
    Ok(true)
}

/// Whether the object of a number is a text.
fn is_text(snapshot: &Snapshot, number: u32) -> bool
    ensures { IsTrue result ↔ IsSome (states.key_at snapshot.now number) }
{
    matches!(
        snapshot.objects.get(number as usize),
        Some(ObjectPart::Text { .. })
    )
}

/// Whether a value is a key.
pub(crate) fn is_key(snapshot: &Snapshot, v: &ValuePart) -> bool
    ensures { IsTrue result ↔ IsSome (states.key_of_part snapshot.now v.now) }
{
    match v {
        ValuePart::None
        | ValuePart::False
        | ValuePart::True
        | ValuePart::Int(_)
        | ValuePart::Str(_) => true,
        ValuePart::Object(number) => is_text(snapshot, *number),
        ValuePart::Fixed(_, _) | ValuePart::Empty | ValuePart::Named(_) => false,
    }
}
