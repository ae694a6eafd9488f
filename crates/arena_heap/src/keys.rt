//! Below which cell the texts lie that were made and are keys of dicts.

ghost use Rattle.std.specs.Prelude.{◌≡◌, ◌<◌, ◌^◌};
ghost use Rattle.arena_heap.specs.Links.{text_end, with_key, without_text};

use crate::value::Value;

/// One more than the cell of a text that was made, and 0 for other values.
fn text_end(key: Value) -> u32
    requires { text_end key < 2 ^ 32 }
    ensures { result ≡ text_end key }
{
    match key {
        Value::Text(t) => t.cell + 1,
        _ => 0,
    }
}

/// The cell that the texts among the keys lie below, where `key` is a key more.
pub(crate) fn with_key(keys: Option<u32>, key: Value) -> Option<u32>
    requires { text_end key < 2 ^ 32 }
    ensures { result ≡ with_key keys key }
{
    match keys {
        Some(below) => Some(below.max(text_end(key))),
        None => None,
    }
}

/// The cell that the texts among the keys lie below, once the text at the cell `at` was written; None where that may be a key.
pub(crate) fn without_text(keys: Option<u32>, at: u32) -> Option<u32>
    ensures { result ≡ without_text keys at }
{
    match keys {
        Some(below) if below <= at => Some(below),
        _ => None,
    }
}
