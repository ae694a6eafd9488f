//! What a library tells of its texts and constants.

ghost use Rattle.std.specs.Prelude.{◌≡◌, ◌<◌, ◌^◌, length, Some, None, All, IfSome, MatchOption, option_copied, option_and_then, slice_get};
ghost use Rattle.bc_library.specs.Constants.{items_at, text_at};
ghost use Rattle.bc_library.specs.Parts.{bytes_of, items_of};
ghost use Rattle.bc_library.specs.Texts.{IsPlain, text_numbered};
ghost use Rattle.bc_library.specs.Told.{IsTold};

use crate::laws::library_law;
use crate::library::{Library, Loaded, loaded_at};
use crate::parts::Part;
use crate::texts::known_number;
use arena_heap::{ConstNo, Constants, StrNo, Value};
use qstr_pool::{FIRST_OWN, Pool, static_text};

/// What is kept of a constant.
fn part_at(modules: &[Loaded], c: ConstNo) -> Option<&Part>
    ensures { option_copied result ≡ option_and_then (λ l. slice_get l.parts.items c.object) (slice_get modules.now c.«module») }
{
    let loaded = loaded_at(modules, c.module)?;
    loaded.parts.get(c.object as usize)
}

/// The bytes of a str.
fn bytes_of(part: &Part) -> Option<&[u8]>
    ensures { option_copied result ≡ bytes_of part.now }
{
    match part {
        Part::Str(text) => Some(text.bytes()),
        _ => None,
    }
}

/// The values of a tuple's items.
fn items_of(part: &Part) -> Option<&[Value]>
    ensures { option_copied result ≡ items_of part.now }
{
    match part {
        Part::Tuple(values) => Some(values.as_slice()),
        _ => None,
    }
}

fn value_at(values: &[Value], i: u32) -> Option<Value>
    ensures { result ≡ slice_get values.now i }
{
    values.get(i as usize).copied()
}

/// The text of a number.
fn numbered_text(pool: &Pool, n: u32) -> Option<&[u8]>
    ensures { option_copied result ≡ text_numbered pool.now n }
{
    if n < FIRST_OWN {
        static_text(n as u16)
    } else {
        pool.text(n)
    }
}

impl Library {
    /// The text of a number.
    fn pool_text(&self, n: u32) -> Option<&[u8]>
        ensures text { option_copied result ≡ text_at self.now (StrNo.Pool n) }
        ensures plain { IfSome result (λ bytes. IsPlain bytes.now) }
    {
        numbered_text(&self.pool, n)
    }

    /// The bytes of a constant str.
    fn str_at(&self, c: ConstNo) -> Option<&[u8]>
        ensures text { option_copied result ≡ text_at self.now (StrNo.Object c) }
        ensures plain { IfSome result (λ bytes. IsPlain bytes.now) }
    {
        match part_at(&self.modules, c) {
            Some(part) => bytes_of(part),
            None => None,
        }
    }

    /// The values of a constant tuple's items.
    fn tuple_at(&self, c: ConstNo) -> Option<&[Value]>
        ensures items { option_copied result ≡ items_at self.now c }
        ensures told { IfSome result (λ values. IsTold self.now c values.now) }
    {
        match part_at(&self.modules, c) {
            Some(part) => items_of(part),
            None => None,
        }
    }
}

impl Constants for Library {
    ghost use Rattle.bc_library.specs.Constants.{items_at, text_at};

    ghost text_of = { text_at };

    ghost items_of = { items_at };

    fn text(&self, s: StrNo) -> Option<&[u8]> {
        match s {
            StrNo::Pool(n) => self.pool_text(n),
            StrNo::Object(c) => self.str_at(c),
        }
    }

    fn empty_law(&self) {
        let _ = &self.pool;
    }

    fn one_number_law(&self) {
        library_law(self);
    }

    fn static_law(&self) {
        let _ = &self.pool;
    }

    fn number(&self, text: &[u8]) -> Option<u32> {
        library_law(self);
        known_number(&self.pool, text)
    }

    fn items_law(&self) {
        let _ = &self.modules;
    }

    fn len(&self, c: ConstNo) -> Option<u32> {
        match self.tuple_at(c) {
            Some(values) => Some(values.len() as u32),
            None => None,
        }
    }

    fn item(&self, c: ConstNo, i: u32) -> Option<Value> {
        match self.tuple_at(c) {
            Some(values) => value_at(values, i),
            None => None,
        }
    }
}
