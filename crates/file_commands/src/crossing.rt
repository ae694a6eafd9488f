//! The command `cross`: a source is compiled, and its file is written.

ghost use Rattle.std.specs.Prelude.{◌≡◌, ◌≤◌, ℕ, List, Option, Some, false};
ghost use Rattle.mpy_io.specs.Files.{FileOf};
ghost use Rattle.mpy_io.specs.Count.{Counts};
ghost use Rattle.command_files.specs.mpy_compile.Compiled.{Compiles};
ghost use Rattle.command_files.specs.source_files.Sources.{stored};
ghost use Rattle.file_commands.specs.Cross.{Crosses};
ghost use Rattle.command_files.specs.mpy_endings.declared.ending.Ending.{Ending};
ghost use Rattle.command_files.specs.mpy_endings.Ending.{IsSettled, is_folder_fault, is_out_fault};

use command_files::{Ending, compile, compile_law, stored_name};
use mpy_base::{NoMemory, Refused, SourceFault};
use mpy_io::{Failed, Folder, ReadFault};
use std::alloc::Global;

/// The file of a source, which stores its name.
fn compiled(
    alloc: Global,
    level: u8,
    source: &[u8],
    name: &str,
) -> Result<Vec<u8>, Refused<SourceFault>>
    requires { level ≤ 3 }
    ensures { Compiles level source.now (stored name.now) result }
{
    match stored_name(alloc, name.as_bytes()) {
        Ok(stored) => compile(alloc, source, level, stored.bytes()),
        Err(NoMemory) => Err(Refused::NoMemory),
    }
}

/// Writes the file of the source of this name, at a level of optimization; it stores the name that is given of its source.
pub fn cross<F: Folder>(
    alloc: Global,
    level: u8,
    name: &str,
    source_name: &str,
    written: &str,
    folder: &mut F,
) -> Ending
    requires { level ≤ 3 }
    ensures went { Crosses level name.now (stored source_name.now) written.now (F.files folder.old) (F.files folder.new) result }
    ensures folder_counts { Counts (F.count folder.old) (F.count folder.new) (is_folder_fault result) }
    ensures prints_nothing { is_out_fault result ≡ false }
{
    let source = match folder.read(alloc, name) {
        Ok(source) => source,
        Err(ReadFault::Absent) => return Ending::Absent,
        Err(ReadFault::TooLong) => return Ending::Unaccepted(SourceFault::too_long(alloc)),
        Err(ReadFault::Failed) => return Ending::ReadFault,
        Err(ReadFault::NoMemory) => return Ending::NoMemory,
    };
    match compiled(alloc, level, &source, source_name) {
        Ok(bytes) => match folder.write(written, &bytes) {
            Ok(()) => Ending::Done,
            Err(Failed) => Ending::Unwritten,
        },
        Err(Refused::Fault(fault)) => Ending::Unaccepted(fault),
        Err(Refused::NoMemory) => Ending::NoMemory,
    }
}

/// Where a folder tells its files, writing a source's file ends in one way only, but for a failing call and want of memory.
pub fn one_ending_law()
    ensures { (level : ℕ) (files : FileOf) (name stored_name written : List ℕ) (a b : Ending) (new_a new_b : Option FileOf)
        → IsSettled a → IsSettled b → Crosses level name stored_name written (Some files) new_a a
        → Crosses level name stored_name written (Some files) new_b b → a ≡ b }
{
    compile_law();
}
