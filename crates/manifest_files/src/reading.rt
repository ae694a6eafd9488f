//! The lines of a manifest in a folder.

ghost use Rattle.std.specs.Prelude.{◌≡◌, [], ◌∷◌, IfErr, IfOk, IfSome};
ghost use Rattle.mpy_io.specs.Count.{Counts};
ghost use Rattle.manifest_files.specs.Answers.{LinesOf, OfRead, is_failed};
ghost use Rattle.manifest_files.specs.FrozenFaults.{FaultIs};
ghost use Rattle.manifest_files.specs.Entries as spec;

use crate::fault::ManifestFault;
use manifest_lines::{Line, lines};
use mpy_base::{NoMemory, Refused, Text};
use mpy_io::{Folder, ReadFault};
use py_tokens::tokens;
use std::alloc::Global;

/// A line that is no call, alone.
fn bad_line(alloc: Global, number: u32) -> Result<Vec<Line>, NoMemory>
    ensures { IfOk result (λ lines. lines.items ≡ spec.bad_line number ∷ []) }
{
    let mut lines = Vec::new(alloc);
    lines.push(Line {
        number,
        order: None,
    })?;
    Ok(lines)
}

/// The lines of a manifest. Where its tokens have a fault, there is one line, which is no call.
fn lines_of(alloc: Global, bytes: &[u8]) -> Result<Vec<Line>, NoMemory>
    ensures { IfOk result (λ lines. spec.AreLines bytes.now lines.items) }
{
    match tokens(alloc, bytes, 0) {
        Ok(tokens) => lines(alloc, &tokens),
        Err(Refused::Fault(fault)) => bad_line(alloc, fault.line),
        Err(Refused::NoMemory) => Err(NoMemory),
    }
}

/// The lines of the manifest of this name.
pub(crate) fn read_lines<F: Folder>(
    alloc: Global,
    folder: &mut F,
    name: &str,
) -> Result<Vec<Line>, Refused<ManifestFault>>
    ensures lines { IfSome (F.files folder.old) (λ files. LinesOf (files name.now) name.now result) }
    ensures same { F.files folder.new ≡ F.files folder.old }
    ensures cause { Counts (F.count folder.old) (F.count folder.new) (is_failed result) }
    ensures reads { IfErr result (FaultIs (OfRead (λ other. other ≡ name.now))) }
{
    let manifest = Text::new(alloc, name.as_bytes())?;
    match folder.read(alloc, name) {
        Ok(bytes) => Ok(lines_of(alloc, &bytes)?),
        Err(ReadFault::TooLong) => Ok(bad_line(alloc, 1)?),
        Err(ReadFault::Absent) => Err(Refused::Fault(ManifestFault::Absent(manifest))),
        Err(ReadFault::Failed) => Err(Refused::Fault(ManifestFault::ReadFault(manifest))),
        Err(ReadFault::NoMemory) => Err(Refused::NoMemory),
    }
}
