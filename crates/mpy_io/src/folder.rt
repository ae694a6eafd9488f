//! A folder of files.

ghost use Rattle.std.specs.Prelude.{◌≡◌, ℕ, ◌≤◌, List, Option, length, IfSome, IfOk, OnOk, OnErr, is_err};
ghost use Rattle.mpy_base.specs.declared.limits.TheConstants.{MAX_READ_BYTES};
ghost use Rattle.mpy_io.specs.Count.{Counts};
ghost use Rattle.mpy_io.specs.Files.{Reads, is_failed, Becomes, BecomesFront, AppendsFile, AppendsFileFront};

use crate::{Failed, ReadFault};
use std::alloc::Global;

/// A folder: files by their names.
pub trait Folder {
    /// What each name stands for, where the folder tells it.
    ghost files: { Self → Option (List ℕ → Option (List ℕ)) };

    /// How often a call has failed. It never falls, and stands still at 2^64 - 1.
    ghost count: { Self → ℕ };

    /// The bytes of a file.
    fn read(&mut self, alloc: Global, name: &str) -> Result<Vec<u8>, ReadFault>
        ensures content { IfSome (files self.old) (λ file. Reads (file name.now) result) }
        ensures short { IfOk result (λ bytes. length bytes.items ≤ MAX_READ_BYTES) }
        ensures same { files self.new ≡ files self.old }
        ensures cause { Counts (count self.old) (count self.new) (is_failed result) };

    /// Makes the file these bytes. After an `Err` it is as it was, or a front of them.
    fn write(&mut self, name: &str, bytes: &[u8]) -> Result<(), Failed>
        ensures ok { OnOk result (Becomes (files self.old) (files self.new) name.now bytes.now) }
        ensures err { OnErr result (BecomesFront (files self.old) (files self.new) name.now bytes.now) }
        ensures cause { Counts (count self.old) (count self.new) (is_err result) };

    /// Adds bytes to the file, to none where it is absent. After an `Err` a front of them may stand there.
    fn append(&mut self, name: &str, bytes: &[u8]) -> Result<(), Failed>
        ensures ok { OnOk result (AppendsFile (files self.old) (files self.new) name.now bytes.now) }
        ensures err { OnErr result (AppendsFileFront (files self.old) (files self.new) name.now bytes.now) }
        ensures cause { Counts (count self.old) (count self.new) (is_err result) };

    /// How many calls have failed so far.
    fn faults(&self) -> u64
        ensures { result ≡ count self.now };
}
