//! The codes of a library.

ghost use Rattle.std.specs.Prelude.{◌≡◌, ℕ, IfOk, IfSome};
ghost use Rattle.vm_starting.specs.Kept.{AreFetched, kept_at, place_in, with_kept};

use crate::codes::Codes;
use crate::places::Places;
use bc_library::Library;
use mpy_base::NoMemory;
use mpy_base::limits::MAX_MODULES;
use std::alloc::Global;
use std::marker::Model;
use vm_states::{Fetched, Rows};

/// What was fetched of a library's codes. It takes 28 bytes for each byte of their instructions, where it is made; and no more later.
#[derive(Drop)]
pub struct Cache {
    modules: Vec<Codes>,
}

impl Model for Cache {
    ghost use Rattle.std.specs.Prelude.{List, Option};
    ghost use Rattle.vm_states.specs.vm_fetching.declared.instruction.Fetched.{Fetched};

    ghost Value = { List (List (List (Option Fetched))) };

    ghost view = { λ c. c.modules.items };
}

impl Cache {
    /// The cache of a library of which nothing was fetched yet. It takes its memory here.
    #[tactic(auto, using(crate::proofs::Empty::none_kept))]
    pub fn new(alloc: Global, library: &Library, rows: &Rows<'_>) -> Result<Cache, NoMemory>
        ensures { IfOk result (AreFetched library.now) }
    {
        let mut modules = Vec::new(alloc);
        for number in 0..MAX_MODULES as u32 {
            if library.module(number).is_none() {
                break;
            }
            modules.push(Codes::new(alloc, rows, number)?)?;
        }
        Ok(Cache { modules })
    }

    /// The places of the code, if there is one.
    pub fn places(&self, module_number: u32, code: u32) -> Option<&Places>
        ensures { IfSome result (λ places. (offset : ℕ) → place_in places.now offset ≡ kept_at self.now module_number code offset) }
    {
        match self.modules.get(module_number as usize) {
            Some(codes) => codes.places(code),
            None => None,
        }
    }

    /// What was fetched at the offset of the code.
    pub fn look(&self, module_number: u32, code: u32, offset: u32) -> Option<Fetched>
        ensures { result ≡ kept_at self.now module_number code offset }
    {
        self.modules.get(module_number as usize)?.look(code, offset)
    }

    /// Keeps what was fetched at the offset of the code, if there is one.
    #[tactic(auto, using(crate::proofs::Keeping::update_some, crate::proofs::Keeping::update_none))]
    pub fn keep(&mut self, module_number: u32, code: u32, offset: u32, fetched: Fetched)
        ensures { self.new ≡ with_kept self.old module_number code offset fetched }
    {
        if (module_number as usize) < self.modules.len() {
            self.modules[module_number as usize].keep(code, offset, fetched);
        }
    }
}
