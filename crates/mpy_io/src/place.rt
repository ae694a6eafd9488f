//! Files that are held, by their names.

ghost use Rattle.std.specs.Prelude.{◌≡◌, OnOk, OnErr, bytes_eq, position, string_bytes};
ghost use Rattle.mpy_io.specs.Files.{Sets, appended};
ghost use Rattle.mpy_io.specs.Memory.{file_of, entries_of};

use std::alloc::{AllocError, Global};

/// The place of the first file of a name.
pub fn place_of(files: &[(String, Vec<u8>)], name: &str) -> Option<usize>
    ensures { result ≡ position (λ file. bytes_eq (string_bytes file.0) name.now) files.now }
{
    files.iter().position(|file| file.0.as_str() == name)
}

/// Makes a file of these bytes, in place of the file of this name where there is one.
pub fn set_file(
    files: &mut Vec<(String, Vec<u8>)>,
    alloc: Global,
    name: &str,
    bytes: &[u8],
) -> Result<(), AllocError>
    ensures ok { OnOk result (Sets (file_of (entries_of files.old.items)) (file_of (entries_of files.new.items)) name.now bytes.now) }
    ensures err { OnErr result (entries_of files.new.items ≡ entries_of files.old.items) }
{
    let copy = Vec::from_slice(alloc, bytes)?;
    match place_of(files, name) {
        Some(place) => files[place].1 = copy,
        None => files.push((String::from_str(alloc, name)?, copy))?,
    }
    Ok(())
}

/// Adds bytes to the file of this name, to none where there is none.
pub fn extend_file(
    files: &mut Vec<(String, Vec<u8>)>,
    alloc: Global,
    name: &str,
    bytes: &[u8],
) -> Result<(), AllocError>
    ensures ok { OnOk result (Sets (file_of (entries_of files.old.items)) (file_of (entries_of files.new.items)) name.now
        (appended (file_of (entries_of files.old.items) name.now) bytes.now)) }
    ensures err { OnErr result (entries_of files.new.items ≡ entries_of files.old.items) }
{
    match place_of(files, name) {
        Some(place) => files[place].1.extend_from_slice(bytes)?,
        None => set_file(files, alloc, name, bytes)?,
    }
    Ok(())
}
