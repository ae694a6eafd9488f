//! The places of a code.

ghost use Rattle.std.specs.Prelude.{◌≡◌, None, Some, IfOk, replicate, slice_set};
ghost use Rattle.vm_starting.specs.Kept.{place_in};

use mpy_base::NoMemory;
use std::alloc::Global;
use std::marker::Model;
use vm_states::Fetched;

/// What was fetched at the offsets of a code. An offset at which nothing was fetched yet holds nothing.
#[derive(Drop)]
pub struct Places {
    places: Vec<Option<Fetched>>,
}

impl Model for Places {
    ghost use Rattle.std.specs.Prelude.{List, Option};
    ghost use Rattle.vm_states.specs.vm_fetching.declared.instruction.Fetched.{Fetched};

    ghost Value = { List (Option Fetched) };

    ghost view = { λ p. p.places.items };
}

impl Places {
    /// Nothing was fetched yet.
    pub(crate) fn new(alloc: Global, size: usize) -> Result<Places, NoMemory>
        ensures { IfOk result (λ p. p ≡ replicate size None) }
    {
        let mut places = Vec::with_capacity(alloc, size)?;
        places.resize(size, None)?;
        Ok(Places { places })
    }

    /// What was fetched at the offset.
    pub fn look(&self, offset: u32) -> Option<Fetched>
        ensures { result ≡ place_in self.now offset }
    {
        *self.places.get(offset as usize)?
    }

    /// Past the last offset it stays as it is.
    #[tactic(auto, using(crate::proofs::Keeping::set_none))]
    pub(crate) fn keep(&mut self, offset: u32, fetched: Fetched)
        ensures { self.new ≡ slice_set self.old offset (Some fetched) }
    {
        if (offset as usize) < self.places.len() {
            self.places[offset as usize] = Some(fetched);
        }
    }
}
