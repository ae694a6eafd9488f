//! The module of an entry's source.

ghost use Rattle.std.specs.Prelude.{◌≡◌, IfOk, IfErr, IsUtf8};
ghost use Rattle.mpy_io.specs.Count.{Counts};
ghost use Rattle.image_freeze.specs.image_open.mpy_tree.Raw.{Module};
ghost use Rattle.source_files.specs.library_files.Comes.{IsVerifiedFile};
ghost use Rattle.manifest_files.specs.Plain.{IsPlain};
ghost use Rattle.manifest_files.specs.FrozenFaults.{FaultIs, failed_by, is_read_fault};
ghost use Rattle.frozen_files.specs.Given.{GivesModule};
ghost use Rattle.frozen_files.specs.Sources.{HoldsSource, RefusesEntry};

use image_freeze::Named;
use manifest_files::SourcesFault;
use manifest_lines::Entry;
use mpy_base::{NoMemory, Refused, SourceFault, Text};
use mpy_io::{Folder, ReadFault};
use mpy_reader::read;
use mpy_tree::RawModule;
use source_files::{compile, compiled_law};
use std::alloc::Global;
use std::str::from_utf8;

/// A text as a name.
fn name_of(text: &Text) -> &str
    requires { IsUtf8 text.now }
    ensures { result.now ≡ text.now }
{
    let Ok(name) = from_utf8(text.bytes()) else {
        unreachable!();
    };
    name
}

/// The module of bytes that are a file of a verified one.
fn read_module(alloc: Global, bytes: &[u8]) -> Result<RawModule, NoMemory>
    requires { (m : Module) × IsVerifiedFile bytes.now m }
    ensures { IfOk result (IsVerifiedFile bytes.now) }
{
    match read(alloc, bytes) {
        Ok(raw) => Ok(raw),
        Err(Refused::Fault(_)) => unreachable!(),
        Err(Refused::NoMemory) => Err(NoMemory),
    }
}

/// The module of a text at an entry's level and under its stored name, by its file.
fn compiled(alloc: Global, entry: &Entry, text: &[u8]) -> Result<RawModule, Refused<SourceFault>>
    requires { IsPlain entry.now }
    ensures { GivesModule entry.now text.now result }
{
    compiled_law();
    match compile(alloc, text, entry.opt, entry.source.bytes()) {
        Ok(bytes) => match read_module(alloc, &bytes) {
            Ok(raw) => Ok(raw),
            Err(NoMemory) => Err(Refused::NoMemory),
        },
        Err(refusal) => Err(refusal),
    }
}

/// The module of an entry's source under the entry's name, or why there is none.
pub(crate) fn source_module<F: Folder>(
    alloc: Global,
    entry: &Entry,
    folder: &mut F,
) -> Result<Named, Refused<SourcesFault>>
    requires { IsPlain entry.now }
    ensures source { IfOk result (HoldsSource (F.files folder.old) entry.now) }
    ensures refused { IfErr result (FaultIs (RefusesEntry (F.files folder.old) entry.now)) }
    ensures counts { Counts (F.count folder.old) (F.count folder.new) (failed_by is_read_fault result) }
    ensures files { F.files folder.new ≡ F.files folder.old }
{
    let path = Text::new(alloc, entry.path.bytes())?;
    let name = Text::new(alloc, entry.module.bytes())?;
    let text = match folder.read(alloc, name_of(&entry.path)) {
        Ok(text) => text,
        Err(ReadFault::Absent) => return Err(Refused::Fault(SourcesFault::Absent(path))),
        Err(ReadFault::TooLong) => {
            let fault = SourceFault::too_long(alloc);
            return Err(Refused::Fault(SourcesFault::Unaccepted(path, fault)));
        }
        Err(ReadFault::Failed) => return Err(Refused::Fault(SourcesFault::Unread(path))),
        Err(ReadFault::NoMemory) => return Err(Refused::NoMemory),
    };
    match compiled(alloc, entry, &text) {
        Ok(held) => Ok(Named { name, held }),
        Err(Refused::Fault(fault)) => Err(Refused::Fault(SourcesFault::Unaccepted(path, fault))),
        Err(Refused::NoMemory) => Err(Refused::NoMemory),
    }
}
