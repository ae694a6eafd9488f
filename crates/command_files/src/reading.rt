//! The bytes of files.

ghost use Rattle.std.specs.Prelude.{◌≡◌, ◌≤◌, Some, IfOk, IfErr, length};
ghost use Rattle.mpy_base.specs.declared.limits.TheConstants.{MAX_READ_BYTES};
ghost use Rattle.mpy_io.specs.Count.{Counts};
ghost use Rattle.command_files.specs.Folder.{MayHold, IsNotRead};
ghost use Rattle.command_files.specs.Opened.{failed_in};

use mpy_endings::Ending;
use mpy_io::{Folder, ReadFault};
use mpy_reader::FileFault;
use std::alloc::Global;

/// The bytes of the file of this name, or why it isn't read.
pub fn read_file<F: Folder>(alloc: Global, name: &str, folder: &mut F) -> Result<Vec<u8>, Ending>
    ensures read { IfOk result (λ bytes. MayHold (F.files folder.old) name.now (Some bytes.items)) }
    ensures short { IfOk result (λ bytes. length bytes.items ≤ MAX_READ_BYTES) }
    ensures refused { IfErr result (IsNotRead (F.files folder.old) name.now) }
    ensures counts { Counts (F.count folder.old) (F.count folder.new) (failed_in result) }
    ensures files { F.files folder.new ≡ F.files folder.old }
{
    match folder.read(alloc, name) {
        Ok(bytes) => Ok(bytes),
        Err(ReadFault::Absent) => Err(Ending::Absent),
        Err(ReadFault::TooLong) => Err(Ending::Unread(FileFault::TooBig)),
        Err(ReadFault::Failed) => Err(Ending::ReadFault),
        Err(ReadFault::NoMemory) => Err(Ending::NoMemory),
    }
}
