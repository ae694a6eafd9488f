//! The codes of a module.

ghost use Rattle.std.specs.Prelude.{◌≡◌, ℕ, Some, IfOk, IfSome, All, slice_set};
ghost use Rattle.vm_starting.specs.Kept.{code_in, is_empty, place_in, update_at};

use crate::places::Places;
use mpy_base::NoMemory;
use std::alloc::Global;
use std::marker::Model;
use vm_states::{Fetched, Rows};

/// What was fetched of the codes of a module.
#[derive(Drop)]
pub(crate) struct Codes {
    codes: Vec<Places>,
}

impl Model for Codes {
    ghost use Rattle.std.specs.Prelude.{List, Option};
    ghost use Rattle.vm_states.specs.vm_fetching.declared.instruction.Fetched.{Fetched};

    ghost Value = { List (List (Option Fetched)) };

    ghost view = { λ c. c.codes.items };
}

impl Codes {
    /// Nothing was fetched yet of the module that has the number.
    #[tactic(auto, using(crate::proofs::Empty::new_empty))]
    pub(crate) fn new(alloc: Global, rows: &Rows<'_>, module_number: u32) -> Result<Codes, NoMemory>
        ensures { IfOk result (All is_empty) }
    {
        let mut codes = Vec::new(alloc);
        for code in 0..u32::MAX {
            let Some(row) = rows.row(module_number, code) else {
                break;
            };
            codes.push(Places::new(alloc, row.instructions.len())?)?;
        }
        Ok(Codes { codes })
    }

    /// What was kept of a code, by its offsets.
    pub(crate) fn places(&self, code: u32) -> Option<&Places>
        ensures { IfSome result (λ places. (offset : ℕ) → place_in places.now offset ≡ code_in self.now code offset) }
    {
        self.codes.get(code as usize)
    }

    /// What was kept at an offset of a code.
    pub(crate) fn look(&self, code: u32, offset: u32) -> Option<Fetched>
        ensures { result ≡ code_in self.now code offset }
    {
        self.codes.get(code as usize)?.look(offset)
    }

    /// Keeps what was fetched at an offset of a code; nothing where there is no such code or offset.
    #[tactic(auto, using(crate::proofs::Keeping::update_some, crate::proofs::Keeping::update_none))]
    pub(crate) fn keep(&mut self, code: u32, offset: u32, fetched: Fetched)
        ensures { self.new ≡ update_at self.old code (λ places. slice_set places offset (Some fetched)) }
    {
        if (code as usize) < self.codes.len() {
            self.codes[code as usize].keep(offset, fetched);
        }
    }
}
