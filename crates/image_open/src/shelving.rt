//! The modules of an image in a library.

ghost use Rattle.std.specs.Prelude.{◌≡◌, ◌+◌, ◌≤◌, [], length, All, None, IfOk, OnOk};
ghost use Rattle.mpy_base.specs.declared.limits.TheConstants.{MAX_MODULES, MAX_TABLE};
ghost use Rattle.image_grammar.specs.bc_library.Shelf.{IsFull, member_of, no_entries, with_module};
ghost use Rattle.image_grammar.specs.bc_library.Texts.{IsPlain, with_texts};
ghost use Rattle.image_grammar.specs.Image.{Differ, texts_used};
ghost use Rattle.image_grammar.specs.Opening.{names_of};
ghost use Rattle.image_open.specs.Opens.{shelf_of};

use image_grammar::{Entry, Library};
use mpy_base::{Items, NoMemory, Refused};
use std::alloc::Global;

/// Puts a module behind those of the library, which has room for it.
fn put(alloc: Global, lib: &mut Library, entry: Entry) -> Result<(), NoMemory>
    requires new { member_of lib.old entry.name ≡ None }
    requires room { ¬ IsFull lib.old }
    requires fits { length (with_module lib.old entry.name entry.held).pool.texts ≤ MAX_TABLE }
    requires plain { IsPlain entry.name }
    ensures { OnOk result (lib.new ≡ with_module lib.old entry.name entry.held) }
{
    let Entry { name, held } = entry;
    match lib.add(alloc, name.bytes(), held) {
        Ok(()) => Ok(()),
        Err((Refused::NoMemory, _)) => Err(NoMemory),
        Err((Refused::Fault(_), _)) => unreachable!(),
    }
}

/// The library of the modules, for whose names and texts there is room.
pub(crate) fn shelve(alloc: Global, entries: Items<Entry>) -> Result<Library, NoMemory>
    requires differ { Differ [] (names_of entries) }
    requires few { length entries ≤ MAX_MODULES }
    requires fit { length (with_texts no_entries.pool (texts_used entries)).texts ≤ MAX_TABLE }
    requires plain { All (λ entry. IsPlain entry.name) entries }
    ensures { IfOk result (λ lib. lib ≡ shelf_of entries) }
{
    let mut lib = Library::new(alloc)?;
    for entry in entries.into_vec() {
        put(alloc, &mut lib, entry)?;
    }
    Ok(lib)
}
