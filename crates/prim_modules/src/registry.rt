//! The registered modules.

ghost use Rattle.std.specs.Prelude.{◌≡◌, ◌^◌, ◌<◌, ◌≤◌, [], length, map, filter, not, bytes_eq, IfOk};
ghost use Rattle.std.specs.Option.{option_map};
ghost use Rattle.std.specs.Vec.{vec_capacity};
ghost use Rattle.mpy_base.specs.Val.{PlainWorld};
ghost use Rattle.py_effects.specs.Modules.{registered_as as registered_in, module_named as module_named_in, forget_module as forget_module_in};
ghost use Rattle.prim_assignments.specs.prim_faults.Sights.{under, sight};
ghost use Rattle.prim_modules.specs.Registry.{plain_entry, plain_modules, with_entry};

use crate::entry::Entry;
use crate::names::is_named;
use arena_heap::{Constants, ModuleNo, Value};
use mpy_base::{Builtin, NoMemory};
use std::alloc::Global;
use std::marker::Model;

/// The registered modules in the order of registering, in memory that is taken once.
#[derive(Drop)]
pub struct Modules {
    entries: Vec<Entry>,
    room: u32,
}

impl Model for Modules {
    ghost use Rattle.prim_modules.specs.Registry.{Registry};
    ghost use Rattle.prim_modules.specs.Held.{registry_of, IsRegistry};

    ghost Value = { Registry };

    ghost view = { registry_of };

    ghost invariant = { IsRegistry };
}

/// The first of these that has this name.
fn find<C: Constants>(consts: &C, entries: &[Entry], name: &[u8]) -> Option<ModuleNo>
    ensures { option_map (λ m. m.cell) result ≡ registered_in (map (under C.Constants consts.now plain_entry) entries.now) name.now }
{
    for entry in entries {
        if is_named(consts, entry.name, name) {
            return Some(entry.object);
        }
    }
    None
}

/// Those that have other names stay.
fn keep_others<C: Constants>(consts: &C, entries: &mut Vec<Entry>, name: &[u8])
    ensures items { entries.new.items ≡ filter (λ entry. not (bytes_eq ((sight C.Constants consts.now).name entry.name) name.now)) entries.old.items }
    ensures capacity { vec_capacity entries.new ≡ vec_capacity entries.old }
    ensures fewer { length entries.new.items ≤ length entries.old.items }
{
    entries.retain(|entry| !is_named(consts, entry.name, name));
}

impl Modules {
    /// No modules yet, with room for `room`. It takes all its memory here.
    pub fn new(alloc: Global, room: u32) -> Result<Modules, NoMemory>
        ensures { IfOk result (λ m. m ≡ record { entries = []; room = room }) }
    {
        let entries = Vec::with_capacity(alloc, room as usize)?;
        Ok(Modules { entries, room })
    }

    /// Registers a module behind the others.
    pub fn register(&mut self, name: u32, object: ModuleNo)
        requires { length self.old.entries < self.old.room }
        ensures { self.new ≡ with_entry self.old (record { name = name; object = object }) }
    {
        let _ = self.entries.push(Entry { name, object });
    }

    /// The registered modules in the order of registering.
    pub fn entries(&self) -> &[Entry]
        ensures are { result.now ≡ self.now.entries }
        ensures few { length result.now < 2 ^ 32 }
    {
        let _room = self.room;
        &self.entries
    }

    /// The first registered module of this name.
    pub fn registered_as<C: Constants>(&self, consts: &C, name: &[u8]) -> Option<ModuleNo>
        ensures { option_map (λ m. m.cell) result ≡ registered_in (under C.Constants consts.now plain_modules self.now) name.now }
    {
        find(consts, &self.entries, name)
    }

    /// The registered module of this name, and else `port`.
    pub fn module_named<C: Constants>(&self, consts: &C, name: &[u8]) -> Value
        ensures { let see = sight C.Constants consts.now in (w : PlainWorld)
            → see.value result ≡ module_named_in (record w { modules = plain_modules see.texts see.tuples self.now }) name.now }
    {
        match self.registered_as(consts, name) {
            Some(m) => Value::Module(m),
            None => Value::Built(Builtin::Port),
        }
    }

    /// No module of this name is registered from now on.
    pub fn forget_module<C: Constants>(&mut self, consts: &C, name: &[u8])
        ensures forgotten { let see = sight C.Constants consts.now in (w : PlainWorld)
            → record w { modules = plain_modules see.texts see.tuples self.new }
            ≡ forget_module_in (record w { modules = plain_modules see.texts see.tuples self.old }) name.now }
        ensures room { self.new.room ≡ self.old.room }
        ensures fewer { length self.new.entries ≤ length self.old.entries }
    {
        keep_others(consts, &mut self.entries, name);
    }
}
