//! Names of which each stands once, looked up in a time that doesn't grow with their count.

ghost use Rattle.std.specs.Prelude.{◌≡◌, [], ◌∷◌, ◌++◌, if◌then◌else◌, IfOk, OnErr};
ghost use Rattle.py_expressions.specs.Reading as spec;

use indexmap::IndexSet;
use mpy_base::NoMemory;
use std::alloc::Global;
use std::marker::Model;

/// So many names are quicker compared one by one than looked up in a table, and take no memory.
pub const FEW_NAMES: usize = 16;

/// Names in the order in which they were put, each once.
#[derive(Drop)]
pub struct NameTable {
    names: IndexSet<Vec<u8>>,
}

impl Model for NameTable {
    ghost use Rattle.std.specs.Prelude.{List, ℕ, map};
    ghost use Rattle.py_expressions.specs.Names.{bytes_of};

    ghost Value = { List (List ℕ) };

    ghost view = { λ table. map bytes_of table.names.keys };
}

impl NameTable {
    /// The table of no names, which takes no memory.
    pub fn new(alloc: Global) -> NameTable
        ensures { result ≡ [] }
    {
        NameTable {
            names: IndexSet::new(alloc),
        }
    }

    /// Puts a name behind the others if it is none of them, and tells whether it was new.
    pub fn insert(&mut self, alloc: Global, name: &[u8]) -> Result<bool, NoMemory>
        ensures tells { IfOk result (λ was_new. was_new ≡ spec.is_new name.now self.old) }
        ensures names { IfOk result (λ was_new. self.new ≡ (if was_new then self.old ++ name.now ∷ [] else self.old)) }
        ensures kept { OnErr result (self.new ≡ self.old) }
    {
        Ok(self.names.insert(Vec::from_slice(alloc, name)?)?)
    }
}
