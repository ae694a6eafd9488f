//! An image written once more.

ghost use Rattle.std.specs.Prelude.{◌≡◌, ◌⊎◌, List, ℕ, map, All, IfOk, MatchResult, Err};
ghost use Rattle.mpy_base.specs.declared.refused.Refused.TheVariants as refusals;
ghost use Rattle.image_open.specs.bc_library.Texts.{IsPlain};
ghost use Rattle.image_open.specs.image_grammar.declared.entry.Entry.{Entry};
ghost use Rattle.image_open.specs.image_grammar.declared.fault.ImageFault.{ImageFault};
ghost use Rattle.image_open.specs.image_grammar.Opening.{FirstFault, entry_of, nothing_below};
ghost use Rattle.image_freeze.specs.Frozen.{FreezeFault, frozen, second_front};
ghost use Rattle.image_freeze.specs.Ended.{Ended, HasRead, HasWritten};
ghost use Rattle.image_freeze.specs.Migrated.{IsImageOf, IsTold, Migrates};

use crate::fault::MigrateFault;
use crate::image::freeze;
use crate::named::Named;
use bc_library::Library;
use image_grammar::Entry;
use image_open::{copy_module, read_image};
use mpy_base::{Items, NoMemory, Refused, Text};
use std::alloc::Global;

/// A copy of a module and its name.
fn copy_entry(alloc: Global, entry: &Entry) -> Result<Named, NoMemory>
    ensures { IfOk result (λ copy. entry_of copy.name copy.held ≡ entry.now) }
{
    Ok(Named {
        name: Text::new(alloc, entry.name.bytes())?,
        held: copy_module(alloc, entry.held.module())?,
    })
}

/// Copies of modules and their names.
fn copy_entries(alloc: Global, entries: &[Entry]) -> Result<Vec<Named>, NoMemory>
    ensures { IfOk result (λ copies. map (λ m. entry_of m.name m.held) copies.items ≡ entries.now) }
{
    let mut copies = Vec::new(alloc);
    for entry in entries {
        copies.push(copy_entry(alloc, entry)?)?;
    }
    Ok(copies)
}

/// The modules of an image that lies over nothing.
fn read(alloc: Global, bytes: &[u8]) -> Result<Items<Entry>, Refused<MigrateFault>>
    ensures { HasRead bytes.now result }
{
    let nothing = Library::new(alloc)?;
    match read_image(alloc, &nothing, bytes) {
        Ok(entries) => Ok(entries),
        Err(Refused::Fault(fault)) => Err(Refused::Fault(MigrateFault::Opening(fault))),
        Err(Refused::NoMemory) => Err(Refused::NoMemory),
    }
}

/// The image of version 2 of the modules over nothing.
fn write(alloc: Global, entries: &[Entry]) -> Result<Vec<u8>, Refused<MigrateFault>>
    requires plain { All (λ entry. IsPlain entry.name) entries.now }
    requires same { All (λ entry. frozen entry.held ≡ entry.held) entries.now }
    ensures { HasWritten entries.now (λ out. out.items) result }
{
    let nothing = Library::new(alloc)?;
    let modules = copy_entries(alloc, entries)?;
    match freeze(alloc, 2, &nothing, &modules) {
        Ok(out) => Ok(out),
        Err(Refused::Fault(fault)) => Err(Refused::Fault(MigrateFault::Freezing(fault))),
        Err(Refused::NoMemory) => Err(Refused::NoMemory),
    }
}

/// The image of version 2 of an image's modules.
fn migrated(alloc: Global, bytes: &[u8]) -> Result<Vec<u8>, Refused<MigrateFault>>
    ensures { Ended bytes.now (λ out. out.items) result }
{
    let entries = read(alloc, bytes)?;
    write(alloc, entries.as_slice())
}

/// Writes an image of version 1 or 2 that lies over nothing as one of version 2 over nothing, of the same named modules.
pub fn migrate_image(alloc: Global, bytes: &[u8]) -> Result<Vec<u8>, Refused<MigrateFault>>
    // What is written is the image of version 2 of the modules, and where there is one it is written, unless memory runs
    // out.
    ensures migrated { IfOk result (λ out. Migrates bytes.now out.items) }
    ensures only { (out : List ℕ) → Migrates bytes.now out
        → MatchResult result (λ written. written.items ≡ out) (λ refusal. refusal ≡ refusals.NoMemory) }

    // The image isn't opened exactly with its first fault, unless memory runs out.
    ensures opening { (fault : ImageFault) → result ≡ Err (Refused.Fault (MigrateFault.Opening fault))
        → FirstFault nothing_below bytes.now fault }
    ensures unopened { (fault : ImageFault) → FirstFault nothing_below bytes.now fault
        → IsTold result (MigrateFault.Opening fault) }

    // Its modules have no image of version 2 exactly with the fault of these.
    ensures freezing { (fault : ImageFault) → result ≡ Err (Refused.Fault (MigrateFault.Freezing fault))
        → (entries : List Entry) × IsImageOf entries bytes.now
        × FreezeFault (second_front nothing_below) nothing_below entries fault }
    ensures unfrozen { (entries : List Entry) (fault : ImageFault) → IsImageOf entries bytes.now
        → FreezeFault (second_front nothing_below) nothing_below entries fault
        → IsTold result (MigrateFault.Freezing fault) }
{
    migrated(alloc, bytes)
}
