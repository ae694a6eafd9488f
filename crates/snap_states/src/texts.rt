//! Sets of texts, looked up in a time that doesn't grow with their count.

ghost use Rattle.std.specs.Prelude.{◌≡◌, [], ◌∷◌, ◌++◌, not, if◌then◌else◌, IfOk};
ghost use Rattle.snap_states.specs.Knowing.{holds};

use indexmap::IndexSet;
use mpy_base::NoMemory;
use std::alloc::Global;
use std::marker::Model;

/// Texts, each once.
#[derive(Drop)]
pub(crate) struct TextSet {
    texts: IndexSet<Vec<u8>>,
}

impl Model for TextSet {
    ghost use Rattle.std.specs.Prelude.{List, ℕ, map};
    ghost use Rattle.snap_states.specs.Texts.{bytes_of};

    ghost Value = { List (List ℕ) };

    ghost view = { λ set. map bytes_of set.texts.keys };
}

impl TextSet {
    /// The set of no texts, which takes no memory.
    pub(crate) fn new(alloc: Global) -> TextSet
        ensures { result ≡ [] }
    {
        TextSet {
            texts: IndexSet::new(alloc),
        }
    }

    /// Whether the text is in the set.
    pub(crate) fn contains(&self, text: &[u8]) -> bool
        ensures { result ≡ holds self.now text.now }
    {
        self.texts.contains(text)
    }

    /// Puts a text behind the others if it is none of them, and tells whether it was new.
    pub(crate) fn insert(&mut self, alloc: Global, text: &[u8]) -> Result<bool, NoMemory>
        ensures tells { IfOk result (λ was_new. was_new ≡ not (holds self.old text.now)) }
        ensures texts { IfOk result (λ was_new. self.new ≡ (if was_new then self.old ++ text.now ∷ [] else self.old)) }
    {
        Ok(self.texts.insert(Vec::from_slice(alloc, text)?)?)
    }
}
