//! A folder in memory, some of whose calls fail.

ghost use Rattle.std.specs.Prelude.{◌≡◌, ◌≢◌, ◌⊎◌, ◌↔◌, ◌||◌, ◌≤◌, Some, not, length, option_map, Contains, IsTrue, IfOk};
ghost use Rattle.std.specs.Prelude.{IsSomeAnd, OnOk, OnErr, IsOk, IsErr, IsErrOf, is_err, if◌then◌else◌};
ghost use Rattle.mpy_base.specs.declared.limits.TheConstants.{MAX_READ_BYTES};
ghost use Rattle.mpy_io.specs.Count.{Counts, Rose};
ghost use Rattle.mpy_io.specs.Files.{Reads, is_failed, Sets, BecomesFront, appended, AppendsFileFront};
ghost use Rattle.mpy_io.specs.Memory.{next, half, file_of, entries_of};

use crate::cut::cut;
use crate::place::{extend_file, place_of, set_file};
use crate::{Failed, Folder, ReadFault};
use mpy_base::limits::MAX_READ_BYTES;
use std::alloc::Global;
use std::marker::Model;

/// Keeps files. The calls of the given numbers, counted from 0 over reads, writes and appends, fail; a write or an
/// append that fails so leaves the first half of its bytes. Of two files of one name the first is seen.
#[derive(Debug, Drop)]
pub struct MemFolder {
    alloc: Global,
    files: Vec<(String, Vec<u8>)>,
    fail: Vec<u64>,
    calls: u64,
    faults: u64,
    starved: u64,
}

impl Model for MemFolder {
    ghost use Rattle.mpy_io.specs.Memory.{FolderState, entries_of};

    ghost Value = { FolderState };

    ghost view = { λ f. record { files = entries_of f.files.items; fail = f.fail.items; calls = f.calls; faults = f.faults; starved = f.starved } };
}

impl MemFolder {
    /// A folder with these files, of whose calls those fail that have these numbers, counted from 0.
    pub fn new(alloc: Global, files: Vec<(String, Vec<u8>)>, fail: Vec<u64>) -> MemFolder
        ensures { result ≡ record { files = entries_of files.items; fail = fail.items; calls = 0; faults = 0; starved = 0 } }
    {
        MemFolder {
            alloc,
            files,
            fail,
            calls: 0,
            faults: 0,
            starved: 0,
        }
    }

    /// The bytes of a file.
    pub fn get(&self, name: &str) -> Option<&[u8]>
        ensures { option_map (λ bytes. bytes.now) result ≡ file_of self.now.files name.now }
    {
        let place = place_of(&self.files, name)?;
        Some(self.files[place].1.as_slice())
    }

    /// How many calls failed for want of memory.
    pub fn starved(&self) -> u64
        ensures { result ≡ self.now.starved }
    {
        self.starved
    }

    /// Counts a call, and tells whether it is listed.
    fn begin(&mut self) -> bool
        ensures listed { IsTrue result ↔ Contains self.old.fail self.old.calls }
        ensures counted { self.new ≡ record self.old { calls = next self.old.calls } }
    {
        let listed = self.fail.contains(&self.calls);
        self.calls = self.calls.saturating_add(1);
        listed
    }

    /// Counts a call that failed.
    fn count_fault(&mut self)
        ensures { self.new ≡ record self.old { faults = next self.old.faults } }
    {
        self.faults = self.faults.saturating_add(1);
    }

    /// Counts how a write or an append went.
    fn end(&mut self, listed: bool, is_stored: bool) -> Result<(), Failed>
        ensures failed { is_err result ≡ (listed || not is_stored) }
        ensures counted { self.new ≡ record self.old {
          faults = if is_err result then next self.old.faults else self.old.faults;
          starved = if is_stored then self.old.starved else next self.old.starved;
        } }
    {
        if !is_stored {
            self.starved = self.starved.saturating_add(1);
        }
        if listed || !is_stored {
            self.count_fault();
            return Err(Failed);
        }
        Ok(())
    }
}

impl Folder for MemFolder {
    ghost files = { λ f. Some (file_of f.files) };

    ghost count = { λ f. f.faults };

    fn read(&mut self, alloc: Global, name: &str) -> Result<Vec<u8>, ReadFault>
        ensures content { Reads (file_of self.old.files name.now) result }
        ensures short { IfOk result (λ bytes. length bytes.items ≤ MAX_READ_BYTES) }
        ensures same { Some (file_of self.new.files) ≡ Some (file_of self.old.files) }
        ensures cause { Counts self.old.faults self.new.faults (is_failed result) }

        // A call fails where its number is listed, and finds no memory only for a file that is not too long.
        ensures listed { IsErrOf result ReadFault.Failed ↔ Contains self.old.fail self.old.calls }
        ensures starved { IsErrOf result ReadFault.NoMemory
            → IsSomeAnd (file_of self.old.files name.now) (λ bytes. length bytes ≤ MAX_READ_BYTES) }

        ensures counted { self.new ≡ record self.old {
          calls = next self.old.calls;
          faults = if is_failed result then next self.old.faults else self.old.faults;
        } }
    {
        if self.begin() {
            self.count_fault();
            return Err(ReadFault::Failed);
        }
        match self.get(name) {
            None => Err(ReadFault::Absent),
            Some(bytes) if bytes.len() > MAX_READ_BYTES => Err(ReadFault::TooLong),
            Some(bytes) => match Vec::from_slice(alloc, bytes) {
                Ok(copy) => Ok(copy),
                Err(_) => Err(ReadFault::NoMemory),
            },
        }
    }

    fn write(&mut self, name: &str, bytes: &[u8]) -> Result<(), Failed>
        ensures ok { OnOk result (Sets (file_of self.old.files) (file_of self.new.files) name.now bytes.now) }
        ensures err { OnErr result (BecomesFront (Some (file_of self.old.files)) (Some (file_of self.new.files)) name.now bytes.now) }
        ensures cause { Counts self.old.faults self.new.faults (is_err result) }

        // A call fails where its number is listed, and else only where memory isn't found.
        ensures listed { Contains self.old.fail self.old.calls → IsErr result }
        ensures starved { IsErr result → Contains self.old.fail self.old.calls ⊎ Rose self.old.starved self.new.starved }

        // A listed call leaves the half of its bytes, and one that finds no memory leaves the files as they were.
        ensures half { Contains self.old.fail self.old.calls
            → Sets (file_of self.old.files) (file_of self.new.files) name.now (half bytes.now) ⊎ Rose self.old.starved self.new.starved }
        ensures unfed { self.new.starved ≢ self.old.starved → self.new.files ≡ self.old.files }
        ensures fed { IsOk result → self.new.starved ≡ self.old.starved }
        ensures by_one { (self.new.starved ≡ self.old.starved) ⊎ (self.new.starved ≡ next self.old.starved) }

        ensures counted { self.new.faults ≡ (if is_err result then next self.old.faults else self.old.faults) }
        ensures next { (self.new.calls ≡ next self.old.calls) × (self.new.fail ≡ self.old.fail) }
    {
        let listed = self.begin();
        let piece = cut(bytes, listed);
        let stored = set_file(&mut self.files, self.alloc, name, piece);
        self.end(listed, stored.is_ok())
    }

    fn append(&mut self, name: &str, bytes: &[u8]) -> Result<(), Failed>
        ensures ok { OnOk result (Sets (file_of self.old.files) (file_of self.new.files) name.now
            (appended (file_of self.old.files name.now) bytes.now)) }
        ensures err { OnErr result (AppendsFileFront (Some (file_of self.old.files)) (Some (file_of self.new.files)) name.now bytes.now) }
        ensures cause { Counts self.old.faults self.new.faults (is_err result) }

        // A call fails where its number is listed, and else only where memory isn't found.
        ensures listed { Contains self.old.fail self.old.calls → IsErr result }
        ensures starved { IsErr result → Contains self.old.fail self.old.calls ⊎ Rose self.old.starved self.new.starved }

        // A listed call leaves the half of its bytes, and one that finds no memory leaves the files as they were.
        ensures half { Contains self.old.fail self.old.calls
            → Sets (file_of self.old.files) (file_of self.new.files) name.now (appended (file_of self.old.files name.now) (half bytes.now))
            ⊎ Rose self.old.starved self.new.starved }
        ensures unfed { self.new.starved ≢ self.old.starved → self.new.files ≡ self.old.files }
        ensures fed { IsOk result → self.new.starved ≡ self.old.starved }
        ensures by_one { (self.new.starved ≡ self.old.starved) ⊎ (self.new.starved ≡ next self.old.starved) }

        ensures counted { self.new.faults ≡ (if is_err result then next self.old.faults else self.old.faults) }
        ensures next { (self.new.calls ≡ next self.old.calls) × (self.new.fail ≡ self.old.fail) }
    {
        let listed = self.begin();
        let piece = cut(bytes, listed);
        let stored = extend_file(&mut self.files, self.alloc, name, piece);
        self.end(listed, stored.is_ok())
    }

    fn faults(&self) -> u64 {
        self.faults
    }
}
