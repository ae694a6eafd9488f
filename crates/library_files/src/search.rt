//! What the file of a name comes to.

ghost use Rattle.std.specs.Prelude.{◌≡◌, IfSome, IsUtf8};
ghost use Rattle.mpy_io.specs.Count.{Counts};
ghost use Rattle.pkg_paths.specs.Plain.{IsPlain};
ghost use Rattle.pkg_paths.specs.Paths.{candidates};
ghost use Rattle.library_files.specs.Comes.{NameComesTo};
ghost use Rattle.library_files.specs.Ends.{is_failed};
ghost use Rattle.library_files.specs.Search.{EntryIs, FailsAtOneOf, FaultComesTo, LongComesTo, ReadComesTo, SearchComesTo};

use crate::entry::Entry;
use crate::limit::{FailedRead, LoadFault, UnacceptedSource};
use crate::reader::Reader;
use mpy_base::{Refused, Text};
use mpy_io::Folder;
use pkg_paths::{FindFault, Found, find};
use std::alloc::Global;

/// What a file comes to that was found.
fn found_entry<R: Reader>(
    alloc: Global,
    reader: &R,
    found: Found,
) -> Result<Entry, Refused<LoadFault>>
    ensures { ReadComesTo (R.comes reader.now) found.name found.bytes.items result }
{
    match reader.read(alloc, found.name.bytes(), &found.bytes) {
        Ok(entry) => Ok(entry),
        Err(Refused::Fault(fault)) => {
            let path = found.name;
            Err(Refused::Fault(LoadFault::Unaccepted(UnacceptedSource { path, fault })))
        }
        Err(Refused::NoMemory) => Err(Refused::NoMemory),
    }
}

/// What a file comes to that is too long.
fn long_entry<R: Reader>(alloc: Global, reader: &R, path: Text) -> Result<Entry, Refused<LoadFault>>
    ensures { LongComesTo (R.comes reader.now) path result }
{
    match reader.read_long(alloc, path.bytes()) {
        Ok(entry) => Ok(entry),
        Err(fault) => Err(Refused::Fault(LoadFault::Unaccepted(UnacceptedSource { path, fault }))),
    }
}

/// What a file comes to that isn't read.
fn fault_entry<R: Reader>(
    alloc: Global,
    reader: &R,
    fault: FindFault,
) -> Result<Entry, Refused<LoadFault>>
    ensures { FaultComesTo (R.comes reader.now) fault result }
{
    match fault {
        FindFault::TooLong(path) => long_entry(alloc, reader, path),
        FindFault::Failed(path) => Err(Refused::Fault(LoadFault::Failed(FailedRead { path }))),
    }
}

/// What a search for a file comes to.
fn search_entry<R: Reader>(
    alloc: Global,
    reader: &R,
    outcome: Result<Option<Found>, Refused<FindFault>>,
) -> Result<Entry, Refused<LoadFault>>
    ensures { SearchComesTo (R.comes reader.now) outcome result }
{
    match outcome {
        Ok(None) => Ok(Entry::Absent),
        Ok(Some(found)) => found_entry(alloc, reader, found),
        Err(Refused::Fault(fault)) => fault_entry(alloc, reader, fault),
        Err(Refused::NoMemory) => Err(Refused::NoMemory),
    }
}

/// What a plain name comes to in a base folder: the package's file where the folder has it, else the plain one. The base
/// folder stands in front as it is: with its `/`, or empty. Two reads at most.
pub fn entry_of<R: Reader, F: Folder>(
    alloc: Global,
    reader: &R,
    folder: &mut F,
    base: &[u8],
    name: &[u8],
) -> Result<Entry, Refused<LoadFault>>
    requires base_is { IsUtf8 base.now }
    requires name_is { IsPlain name.now }
    ensures entry { IfSome (F.files folder.old)
        (λ files. EntryIs (NameComesTo (R.ending reader.now) (R.comes reader.now) base.now files name.now) result) }
    ensures same { F.files folder.new ≡ F.files folder.old }
    ensures at { FailsAtOneOf (R.comes reader.now) (candidates base.now name.now (R.ending reader.now)) result }
    ensures cause { Counts (F.count folder.old) (F.count folder.new) (is_failed result) }
{
    search_entry(
        alloc,
        reader,
        find(alloc, folder, base, name, reader.ending()),
    )
}
