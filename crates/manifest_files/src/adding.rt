//! Adding entries to those of a manifest, each with its path from the manifest's folder on, and its module once.

ghost use Rattle.std.specs.Prelude.{◌≡◌, ◌++◌, [], ◌∷◌, Ok, IfOk, map, false};
ghost use Rattle.manifest_files.specs.Answers.{Leads, is_failed};
ghost use Rattle.manifest_files.specs.Entries as spec;

use crate::fault::ManifestFault;
use manifest_lines::Entry;
use mpy_base::limits::MAX_MODULES;
use mpy_base::{NoMemory, Refused, Text};
use std::alloc::Global;

/// Is there an entry of the module?
fn has_module(entries: &[Entry], name: &[u8]) -> bool
    ensures { result ≡ spec.has_module entries.now name.now }
{
    entries.iter().any(|entry| entry.module.bytes() == name)
}

/// A text behind a folder.
pub(crate) fn behind(alloc: Global, folder: &[u8], path: &[u8]) -> Result<Text, NoMemory>
    ensures { IfOk result (λ text. text ≡ folder.now ++ path.now) }
{
    let mut whole = Vec::from_slice(alloc, folder)?;
    whole.extend_from_slice(path)?;
    Text::new(alloc, &whole)
}

/// A copy of the entry, with its path from the folder on.
fn placed(alloc: Global, folder: &[u8], entry: &Entry) -> Result<Entry, NoMemory>
    ensures { IfOk result (λ placed. placed ≡ spec.placed folder.now entry.now) }
{
    Ok(Entry {
        module: Text::new(alloc, entry.module.bytes())?,
        path: behind(alloc, folder, entry.path.bytes())?,
        source: Text::new(alloc, entry.source.bytes())?,
        opt: entry.opt,
    })
}

/// Adds an entry, unless its module is there or there are as many as may be.
fn add(alloc: Global, entries: &mut Vec<Entry>, entry: Entry) -> Result<(), Refused<ManifestFault>>
    ensures leads { Leads entries.old.items (Ok entry ∷ []) result entries.new.items }
    ensures inside { is_failed result ≡ false }
{
    if has_module(entries, entry.module.bytes()) {
        let module = Text::new(alloc, entry.module.bytes())?;
        return Err(Refused::Fault(ManifestFault::Twice(module)));
    }
    if entries.len() >= MAX_MODULES {
        return Err(Refused::Fault(ManifestFault::TooMany));
    }
    entries.push(entry)?;
    Ok(())
}

/// Adds copies of entries, with their paths from the folder on.
pub(crate) fn add_all(
    alloc: Global,
    folder: &[u8],
    entries: &mut Vec<Entry>,
    others: &[Entry],
) -> Result<(), Refused<ManifestFault>>
    ensures leads { Leads entries.old.items (map (spec.said_entry folder.now) others.now) result entries.new.items }
    ensures inside { is_failed result ≡ false }
{
    for other in others {
        let entry = placed(alloc, folder, other)?;
        add(alloc, entries, entry)?;
    }
    Ok(())
}
