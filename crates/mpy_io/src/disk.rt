//! A folder on disk.

ghost use Rattle.std.specs.Prelude.{◌≡◌, ◌⊎◌, ◌↔◌, ◌∷◌, ◌++◌, ◌≤◌, length, Some, None, string_bytes, IfSome, IfOk, is_err, if◌then◌else◌};
ghost use Rattle.mpy_base.specs.declared.limits.TheConstants.{MAX_READ_BYTES};
ghost use Rattle.mpy_io.specs.Count.{Counts};
ghost use Rattle.mpy_io.specs.Files.{Reads, is_failed};
ghost use Rattle.mpy_io.specs.Memory.{next};

use crate::whole_file::write_whole;
use crate::{Failed, Folder, ReadFault};
use mpy_base::limits::MAX_READ_BYTES;
use std::alloc::{AllocError, Allocator, Global};
use std::fs::File;
use std::io::{ErrorKind, Read, Write};
use std::rt::Files;
use std::{fs, io};

/// The files below a root on disk. What the disk does is trusted, and contracts are told nothing of it.
///
/// A file that the system does not find is `Absent`: also where a folder has its name, or the name is longer than any file's. A name
/// with a zero byte is a fault, as any other error is. A file that is written is replaced whole.
#[derive(Drop)]
pub struct DiskFolder<R: Files + Alloc + Drop> {
    rt: R,
    root: String,
    faults: u64,
}

impl<R: Files + Alloc + Drop> DiskFolder<R> {
    /// The folder below `root`, which stands in front of each name as it is. Nothing is read yet.
    pub fn new(rt: R, root: String) -> DiskFolder<R>
        ensures { result ≡ record { rt = rt; root = root; faults = 0 } }
    {
        DiskFolder {
            rt,
            root,
            faults: 0,
        }
    }

    /// Counts how a write or an append went.
    fn end(&mut self, done: io::Result<()>) -> Result<(), Failed>
        ensures failed { is_err result ≡ is_err done }
        ensures counted { self.new ≡ record self.old { faults = if is_err result then next self.old.faults else self.old.faults } }
    {
        if done.is_err() {
            self.faults = self.faults.saturating_add(1);
            return Err(Failed);
        }
        Ok(())
    }
}

impl<R: Files + Alloc + Drop> Folder for DiskFolder<R> {
    ghost files = { λ _. None };

    ghost count = { λ d. d.faults };

    fn read(&mut self, alloc: Global, name: &str) -> Result<Vec<u8>, ReadFault>
        ensures short { IfOk result (λ bytes. length bytes.items ≤ MAX_READ_BYTES) }
        ensures cause { Counts self.old.faults self.new.faults (is_failed result) }
        ensures counted { self.new ≡ record self.old { faults = if is_failed result then next self.old.faults else self.old.faults } }
    {
        let result = read_file(&self.rt, alloc, self.root.as_str(), name);
        if let Err(ReadFault::Failed) = &result {
            self.faults = self.faults.saturating_add(1);
        }
        result
    }

    fn write(&mut self, name: &str, bytes: &[u8]) -> Result<(), Failed>
        ensures cause { Counts self.old.faults self.new.faults (is_err result) }
        ensures counted { self.new ≡ record self.old { faults = if is_err result then next self.old.faults else self.old.faults } }
    {
        let done = write_file(&self.rt, self.root.as_str(), name, bytes);
        self.end(done)
    }

    fn append(&mut self, name: &str, bytes: &[u8]) -> Result<(), Failed>
        ensures cause { Counts self.old.faults self.new.faults (is_err result) }
        ensures counted { self.new ≡ record self.old { faults = if is_err result then next self.old.faults else self.old.faults } }
    {
        let done = append_file(&self.rt, self.root.as_str(), name, bytes);
        self.end(done)
    }

    fn faults(&self) -> u64 {
        self.faults
    }
}

/// The path of a name in a folder.
fn path_of<A: Allocator>(alloc: A, root: &str, name: &str) -> Result<String<A>, AllocError>
    ensures { IfOk result (λ path. string_bytes path ≡ root.now ++ 47 ∷ name.now) }
{
    let mut path = String::from_str(alloc, root)?;
    path.push('/')?;
    path.push_str(name)?;
    Ok(path)
}

/// The content of a file in a folder.
fn read_file<R: Files + Alloc>(
    rt: &R,
    alloc: Global,
    root: &str,
    name: &str,
) -> Result<Vec<u8>, ReadFault>
    ensures { IfOk result (λ bytes. length bytes.items ≤ MAX_READ_BYTES) }
{
    let Ok(path) = path_of(rt.alloc(), root, name) else {
        return Err(ReadFault::NoMemory);
    };
    match fs::open(rt, path.as_str()) {
        Ok(file) => match read_all(file, alloc) {
            Err(ReadFault::Failed) if is_folder(rt, path.as_str()) => Err(ReadFault::Absent),
            result => result,
        },
        Err(error) => Err(opening_fault(error.kind())),
    }
}

/// Whether a path leads to a folder. The system opens one as a file, and then doesn't read it.
fn is_folder<R: Files>(rt: &R, path: &str) -> bool {
    fs::metadata(rt, path).is_ok_and(|found| found.is_dir())
}

/// What is left to read, but for more than any file that is read has.
fn read_all<F: Read + Drop>(file: F, alloc: Global) -> Result<Vec<u8>, ReadFault>
    ensures content { IfSome (F.remaining file) (λ bytes. Reads (Some bytes) result) }
    ensures short { IfOk result (λ bytes. length bytes.items ≤ MAX_READ_BYTES) }
{
    let mut bytes = Vec::new(alloc);
    match file.take(MAX_READ_BYTES as u64 + 1).read_to_end(&mut bytes) {
        Ok(_) if bytes.len() > MAX_READ_BYTES => Err(ReadFault::TooLong),
        Ok(_) => Ok(bytes),
        Err(error) if error.kind() == ErrorKind::OutOfMemory => Err(ReadFault::NoMemory),
        Err(_) => Err(ReadFault::Failed),
    }
}

/// Why a file isn't read that wasn't opened: it is absent also where a part of its path is no folder, where it is a folder itself, and
/// where no file can have so long a name.
fn opening_fault(kind: ErrorKind) -> ReadFault
    ensures absent { (result ≡ ReadFault.Absent)
        ↔ ((kind ≡ ErrorKind.NotFound) ⊎ (kind ≡ ErrorKind.NotADirectory) ⊎ (kind ≡ ErrorKind.IsADirectory)
        ⊎ (kind ≡ ErrorKind.InvalidFilename)) }
    ensures no_memory { (result ≡ ReadFault.NoMemory) ↔ (kind ≡ ErrorKind.OutOfMemory) }
{
    match kind {
        ErrorKind::NotFound
        | ErrorKind::NotADirectory
        | ErrorKind::IsADirectory
        | ErrorKind::InvalidFilename => ReadFault::Absent,
        ErrorKind::OutOfMemory => ReadFault::NoMemory,
        _ => ReadFault::Failed,
    }
}

/// Makes these bytes the content of a file in a folder.
fn write_file<R: Files + Alloc>(rt: &R, root: &str, name: &str, bytes: &[u8]) -> io::Result<()> {
    let path = path_of(rt.alloc(), root, name)?;
    write_whole(rt, path.as_str(), bytes)
}

/// Adds these bytes to a file in a folder, which is made where it is absent.
fn append_file<R: Files + Alloc>(rt: &R, root: &str, name: &str, bytes: &[u8]) -> io::Result<()> {
    let path = path_of(rt.alloc(), root, name)?;
    let mut file = File::options()
        .append(true)
        .create(true)
        .open(rt, path.as_str())?;
    file.write_all(bytes)
}
