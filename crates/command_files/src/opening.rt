//! The verified modules of files.

ghost use Rattle.std.specs.Prelude.{◌≡◌, IfOk, IfErr};
ghost use Rattle.mpy_io.specs.Count.{Counts};
ghost use Rattle.command_files.specs.Opened.{Opens, HoldsModule, Refuses, failed_in};

use crate::reading::read_file;
use bc_verify::{Verified, verify};
use mpy_base::Refused;
use mpy_endings::Ending;
use mpy_io::Folder;
use mpy_reader::read;
use std::alloc::Global;

/// The verified module of a file's bytes, or what keeps it from being one.
pub fn verified(alloc: Global, bytes: &[u8]) -> Result<Verified, Ending>
    ensures { Opens bytes.now result }
{
    let raw = match read(alloc, bytes) {
        Ok(raw) => raw,
        Err(Refused::Fault(fault)) => return Err(Ending::Unread(fault)),
        Err(Refused::NoMemory) => return Err(Ending::NoMemory),
    };
    match verify(alloc, raw) {
        Ok(verified) => Ok(verified),
        Err((refusal, _raw)) => match refusal {
            Refused::Fault(fault) => Err(Ending::Unverified(fault)),
            Refused::NoMemory => Err(Ending::NoMemory),
        },
    }
}

/// The verified module of the file of this name, or what keeps it from being one.
pub fn opened<F: Folder>(alloc: Global, name: &str, folder: &mut F) -> Result<Verified, Ending>
    ensures opened { IfOk result (HoldsModule (F.files folder.old) name.now) }
    ensures refused { IfErr result (Refuses (F.files folder.old) name.now) }
    ensures counts { Counts (F.count folder.old) (F.count folder.new) (failed_in result) }
    ensures files { F.files folder.new ≡ F.files folder.old }
{
    match read_file(alloc, name, folder) {
        Ok(bytes) => verified(alloc, &bytes),
        Err(ending) => Err(ending),
    }
}
