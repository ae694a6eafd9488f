//! The locals of each function.

ghost use Rattle.std.specs.Prelude.{◌≡◌, slice_get, option_copied};

use mpy_base::{Items, Text};
use std::marker::Model;

/// For each function of a tree, in the order in which they begin in the text, its locals by slot.
#[derive(Drop)]
pub struct NameSlots {
    functions: Vec<Items<Text>>,
}

impl Model for NameSlots {
    ghost use Rattle.std.specs.Prelude.{List, ℕ};

    ghost Value = { List (List (List ℕ)) };

    ghost view = { λ slots. slots.functions.items };
}

impl NameSlots {
    /// The slots of these functions' locals, a list for each.
    pub(crate) fn new(functions: Vec<Items<Text>>) -> NameSlots
        ensures { result ≡ functions.items }
    {
        NameSlots { functions }
    }

    /// A function's locals in slot order. Functions have numbers from 0 on, by the places of their `def` in the text.
    pub fn locals(&self, def: u32) -> Option<&[Text]>
        ensures { option_copied result ≡ slice_get self.now def }
    {
        let locals = self.functions.get(def as usize)?;
        Some(locals.as_slice())
    }
}
