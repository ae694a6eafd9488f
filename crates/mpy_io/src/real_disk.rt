//! A folder of a disk's files.

ghost use Rattle.std.specs.Prelude.{◌≡◌, ◌≤◌, length, None, IfOk, is_err};
ghost use Rattle.mpy_base.specs.declared.limits.TheConstants.{MAX_READ_BYTES};
ghost use Rattle.mpy_io.specs.Count.{Counts};
ghost use Rattle.mpy_io.specs.Files.{is_failed};

use crate::disk::DiskFolder;
use crate::fault::{Failed, ReadFault};
use crate::folder::Folder;
use std::alloc::{AllocError, Global};
use std::rt::Files;

/// The files of a disk: a name that begins with `/` is one on all of it, and another lies below the working folder. What
/// the disk does is trusted, and contracts are told nothing of it.
#[derive(Drop)]
pub struct Disk<R: Files + Alloc + Drop> {
    here: DiskFolder<R>,
    whole: DiskFolder<R>,
    faults: u64,
}

/// Whether a name begins at the disk's root.
fn begins_at_root(name: &str) -> bool {
    name.as_bytes().first() == Some(&b'/')
}

impl<R: Files + Alloc + Drop> Disk<R> {
    /// The disk of a system, which is given twice: once for each of the two ways in which a name is meant.
    pub fn new(alloc: Global, rt: R, again: R) -> Result<Disk<R>, AllocError> {
        let here = DiskFolder::new(rt, String::from_str(alloc, ".")?);
        let whole = DiskFolder::new(again, String::from_str(alloc, "/")?);
        Ok(Disk {
            here,
            whole,
            faults: 0,
        })
    }

    /// Counts how a write or an append went.
    fn end(&mut self, done: Result<(), Failed>) -> Result<(), Failed>
        ensures same { result ≡ done }
        ensures cause { Counts self.old.faults self.new.faults (is_err result) }
    {
        if done.is_err() {
            self.faults = self.faults.saturating_add(1);
        }
        done
    }
}

impl<R: Files + Alloc + Drop> Folder for Disk<R> {
    ghost files = { λ _. None };

    ghost count = { λ d. d.faults };

    fn read(&mut self, alloc: Global, name: &str) -> Result<Vec<u8>, ReadFault>
        ensures short { IfOk result (λ bytes. length bytes.items ≤ MAX_READ_BYTES) }
        ensures cause { Counts self.old.faults self.new.faults (is_failed result) }
    {
        let result = if begins_at_root(name) {
            self.whole.read(alloc, name)
        } else {
            self.here.read(alloc, name)
        };
        if let Err(ReadFault::Failed) = &result {
            self.faults = self.faults.saturating_add(1);
        }
        result
    }

    fn write(&mut self, name: &str, bytes: &[u8]) -> Result<(), Failed>
        ensures cause { Counts self.old.faults self.new.faults (is_err result) }
    {
        let done = if begins_at_root(name) {
            self.whole.write(name, bytes)
        } else {
            self.here.write(name, bytes)
        };
        self.end(done)
    }

    fn append(&mut self, name: &str, bytes: &[u8]) -> Result<(), Failed>
        ensures cause { Counts self.old.faults self.new.faults (is_err result) }
    {
        let done = if begins_at_root(name) {
            self.whole.append(name, bytes)
        } else {
            self.here.append(name, bytes)
        };
        self.end(done)
    }

    fn faults(&self) -> u64 {
        self.faults
    }
}
