//! The file of a dotted name in a folder.

ghost use Rattle.std.specs.Prelude.{◌≡◌, ◌≤◌, [], ◌∷◌, length, IfOk, IfSome, IsUtf8};
ghost use Rattle.mpy_base.specs.declared.limits.TheConstants.{MAX_READ_BYTES};
ghost use Rattle.mpy_io.specs.Count.{Counts};
ghost use Rattle.pkg_paths.specs.Plain.{IsPlain};
ghost use Rattle.pkg_paths.specs.Paths.{candidates};
ghost use Rattle.pkg_paths.specs.Finds.{first_there, Finds, NamesOneOf, is_failed};

use crate::candidate::candidates;
use mpy_base::{Refused, Text};
use mpy_io::{Folder, ReadFault};
use std::alloc::Global;
use std::str::from_utf8;

/// A file that was found.
#[derive(Debug, Drop)]
pub struct Found {
    pub name: Text,
    pub bytes: Vec<u8>,
}

/// Why the file of a name isn't read.
#[derive(Debug, Drop)]
pub enum FindFault {
    /// The read of the file of this name failed outside.
    Failed(Text),
    /// The file of this name is longer than any file that is read.
    TooLong(Text),
}

/// Reads one file.
fn read_one<F: Folder>(
    alloc: Global,
    folder: &mut F,
    name: Text,
) -> Result<Option<Found>, Refused<FindFault>>
    requires { IsUtf8 name }
    ensures found { IfSome (F.files folder.old) (λ files. Finds (first_there files (name ∷ [])) result) }
    ensures short { IfOk result (λ found. IfSome found (λ file. length file.bytes.items ≤ MAX_READ_BYTES)) }
    ensures named { NamesOneOf (name ∷ []) result }
    ensures same { F.files folder.new ≡ F.files folder.old }
    ensures cause { Counts (F.count folder.old) (F.count folder.new) (is_failed result) }
{
    let Ok(path) = from_utf8(name.bytes()) else {
        unreachable!();
    };
    match folder.read(alloc, path) {
        Ok(bytes) => Ok(Some(Found { name, bytes })),
        Err(ReadFault::Absent) => Ok(None),
        Err(ReadFault::TooLong) => Err(Refused::Fault(FindFault::TooLong(name))),
        Err(ReadFault::Failed) => Err(Refused::Fault(FindFault::Failed(name))),
        Err(ReadFault::NoMemory) => Err(Refused::NoMemory),
    }
}

/// The file of a plain name: the package's where the folder has it, else the plain one, else none. Base folder and
/// ending are as in `candidates`. Two reads at most.
pub fn find<F: Folder>(
    alloc: Global,
    folder: &mut F,
    base: &[u8],
    name: &[u8],
    ending: &[u8],
) -> Result<Option<Found>, Refused<FindFault>>
    requires base_is { IsUtf8 base.now }
    requires name_is { IsPlain name.now }
    requires ending_is { IsUtf8 ending.now }
    ensures found { IfSome (F.files folder.old) (λ files. Finds (first_there files (candidates base.now name.now ending.now)) result) }
    ensures short { IfOk result (λ found. IfSome found (λ file. length file.bytes.items ≤ MAX_READ_BYTES)) }
    ensures named { NamesOneOf (candidates base.now name.now ending.now) result }
    ensures same { F.files folder.new ≡ F.files folder.old }
    ensures cause { Counts (F.count folder.old) (F.count folder.new) (is_failed result) }
{
    let paths = candidates(alloc, base, name, ending)?;
    match read_one(alloc, folder, paths.package) {
        Ok(None) => read_one(alloc, folder, paths.plain),
        found => {
            drop(paths.plain);
            found
        }
    }
}
