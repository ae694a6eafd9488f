//! Pools of texts: each text once, with a number by the order of first use. A look-up takes the time of a hash of the text.

ghost use Rattle.std.specs.Prelude.{◌≡◌, ◌↔◌, ℕ, ◌+◌, ◌<◌, ◌≤◌, ◌^◌, List, [], length, Some, None, Ok, option_copied, IsTrue};
ghost use Rattle.std.specs.Prelude.{IsSome, IfSome, IsOk, IfOk, OnOk, OnErr, IsErrOf};
ghost use Rattle.qstr_pool.specs.Full.{pool_full};
ghost use Rattle.qstr_pool.specs.Pool.{IsPool, IsOneToOne, number_of, text_of, interned, first_texts, all_differ};

use indexmap::IndexSet;
use mpy_base::limits::MAX_TABLE;
use mpy_base::{NoMemory, Refused};
use std::alloc::Global;
use std::marker::Model;
use thiserror::Error;

/// The pool holds as many texts as a file may have.
#[derive(Clone, Copy, Debug, PartialEq, Eq, Error)]
#[error("too many texts")]
pub struct Full;

/// Texts in the order of their first use, each with a number.
#[derive(Drop)]
pub struct Pool {
    first: u32,
    texts: IndexSet<Vec<u8>>,
}

impl Model for Pool {
    ghost use Rattle.std.specs.Prelude.{map};
    ghost use Rattle.qstr_pool.specs.Pool.{Texts, IsPool};

    ghost Value = { Texts };

    ghost view = { λ pool. record { first = pool.first; texts = map (λ key. key.items) pool.texts.keys } };

    ghost invariant = { λ pool. IsPool (record { first = pool.first; texts = map (λ key. key.items) pool.texts.keys }) };
}

impl Pool {
    /// A pool of no texts, which takes no memory yet.
    pub fn new(alloc: Global, first: u32) -> Result<Pool, NoMemory>
        requires { first < 2 ^ 31 }
        ensures { result ≡ Ok (record { first = first; texts = [] }) }
    {
        Ok(Pool {
            first,
            texts: IndexSet::new(alloc),
        })
    }

    /// How many texts the pool holds.
    pub fn len(&self) -> usize
        ensures { result ≡ length self.now.texts }
    {
        self.texts.len()
    }

    /// Whether the pool holds no text.
    pub fn is_empty(&self) -> bool
        ensures { IsTrue result ↔ self.now.texts ≡ [] }
    {
        self.texts.is_empty()
    }

    /// The text of the number.
    pub fn text(&self, n: u32) -> Option<&[u8]>
        ensures { option_copied result ≡ text_of self.now n }
    {
        let place = n.checked_sub(self.first)?;
        let text = self.texts.get_index(place as usize)?;
        Some(text)
    }

    /// The number of the text.
    pub fn find(&self, text: &[u8]) -> Option<u32>
        ensures number { result ≡ number_of self.now text.now }
        ensures within { IfSome result (λ n. (self.now.first ≤ n) × (n < self.now.first + MAX_TABLE)) }
    {
        let place = self.texts.get_index_of(text)?;
        Some(self.first + place as u32)
    }

    /// The number of the text, which goes last where it is new.
    pub fn intern(&mut self, alloc: Global, text: &[u8]) -> Result<u32, Refused<Full>>
        ensures number { IfOk result (λ n. number_of self.new text.now ≡ Some n) }
        ensures within { IfOk result (λ n. (self.old.first ≤ n) × (n < self.old.first + MAX_TABLE)) }
        ensures texts { OnOk result (self.new ≡ interned self.old text.now) }
        ensures kept { OnOk result ((n : ℕ) (known : List ℕ) → text_of self.old n ≡ Some known → text_of self.new n ≡ Some known) }
        ensures full { IsErrOf result (Refused.Fault pool_full) ↔ ((number_of self.old text.now ≡ None) × (MAX_TABLE ≤ length self.old.texts)) }
        ensures known { IsSome (number_of self.old text.now) → IsOk result }
        ensures err { OnErr result (self.new ≡ self.old) }
    {
        if let Some(n) = self.find(text) {
            return Ok(n);
        }
        let place = self.texts.len();
        if place >= MAX_TABLE {
            return Err(Refused::Fault(Full));
        }
        self.texts.insert(Vec::from_slice(alloc, text)?)?;
        Ok(self.first + place as u32)
    }

    /// Keeps the first `count` texts, each with its number, and forgets the others. Takes no memory.
    pub fn truncate(&mut self, count: usize)
        ensures { self.new ≡ first_texts self.old count }
    {
        self.texts.truncate(count);
    }
}

/// What holds of every pool. No text stands twice, so that number and text are inverse to each other.
pub fn pool_law(pool: &Pool)
    ensures is_pool { IsPool pool.now }
    ensures differ { IsTrue (all_differ pool.now.texts) }
    ensures one_to_one { IsOneToOne pool.now }
{
    let _ = pool.texts.len();
}
