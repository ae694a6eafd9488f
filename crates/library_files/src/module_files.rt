//! The files of modules.

ghost use Rattle.library_files.specs.Comes as specs;
ghost use Rattle.library_files.specs.Comes.{Answers, BytesComeTo, ModuleComesTo};

use crate::entry::Entry;
use crate::reader::Reader;
use bc_library::verify;
use mpy_base::{Refused, SourceFault};
use mpy_reader::read;
use mpy_tree::RawModule;
use std::alloc::Global;

/// What the module of a file of this size comes to.
fn module_entry(alloc: Global, raw: RawModule, size: usize) -> Result<Entry, Refused<SourceFault>>
    ensures { Answers (ModuleComesTo raw size) result }
{
    match verify(alloc, raw) {
        Ok(verified) => Ok(Entry::Held(verified, size)),
        Err((Refused::Fault(_), _)) => Ok(Entry::Refused),
        Err((Refused::NoMemory, _)) => Err(Refused::NoMemory),
    }
}

/// What a file's bytes come to.
fn bytes_entry(alloc: Global, bytes: &[u8]) -> Result<Entry, Refused<SourceFault>>
    ensures { Answers (BytesComeTo bytes.now) result }
{
    match read(alloc, bytes) {
        Ok(raw) => module_entry(alloc, raw, bytes.len()),
        Err(Refused::Fault(_)) => Ok(Entry::Refused),
        Err(Refused::NoMemory) => Err(Refused::NoMemory),
    }
}

/// Files of modules: one that is too long, or no module's, or whose module isn't verified, is a refused entry.
#[derive(Drop)]
pub struct ModuleFiles;

impl Reader for ModuleFiles {
    ghost ending = { λ _. specs.ending };

    ghost comes = { λ _. specs.ModuleFiles };

    fn ending(&self) -> &'static [u8] {
        b".mpy"
    }

    fn read(
        &self,
        alloc: Global,
        _path: &[u8],
        bytes: &[u8],
    ) -> Result<Entry, Refused<SourceFault>> {
        bytes_entry(alloc, bytes)
    }

    fn read_long(&self, _alloc: Global, _path: &[u8]) -> Result<Entry, SourceFault> {
        Ok(Entry::Refused)
    }
}
