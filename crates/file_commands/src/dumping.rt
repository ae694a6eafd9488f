//! The command `dump`: a file is read, and the listing of its module is put.

ghost use Rattle.std.specs.Prelude.{◌≡◌};
ghost use Rattle.mpy_io.specs.Count.{Counts};
ghost use Rattle.file_commands.specs.Dump.{Dumps};
ghost use Rattle.command_files.specs.mpy_endings.Ending.{is_folder_fault, is_out_fault};

use command_files::{Ending, read_file};
use mpy_base::Refused;
use mpy_dump::listing;
use mpy_io::{Failed, Folder, Sink};
use mpy_reader::read;
use std::alloc::Global;

/// Lists the file of this name. Its tables take 0.8 MB of the stack, so it isn't inlined: no other command is to need that much.
#[inline(never)]
pub fn dump<F: Folder, S: Sink>(alloc: Global, name: &str, folder: &mut F, out: &mut S) -> Ending
    ensures went { Dumps (F.files folder.old) name.now result (S.told out.old) (S.told out.new) }
    ensures folder_counts { Counts (F.count folder.old) (F.count folder.new) (is_folder_fault result) }
    ensures out_counts { Counts (S.count out.old) (S.count out.new) (is_out_fault result) }
    ensures files { F.files folder.new ≡ F.files folder.old }
{
    let bytes = match read_file(alloc, name, folder) {
        Ok(bytes) => bytes,
        Err(ending) => return ending,
    };
    match read(alloc, &bytes) {
        Ok(raw) => match listing(&raw, out) {
            Ok(()) => Ending::Done,
            Err(Failed) => Ending::WriteFault,
        },
        Err(Refused::Fault(fault)) => Ending::Unread(fault),
        Err(Refused::NoMemory) => Ending::NoMemory,
    }
}
