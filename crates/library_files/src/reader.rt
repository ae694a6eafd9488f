//! How files of names are read.

ghost use Rattle.std.specs.Prelude.{◌≡◌, ℕ, ◌<◌, List, length, Result, IsUtf8};
ghost use Rattle.mpy_base.specs.declared.limits.TheConstants.{MAX_READ_BYTES};
ghost use Rattle.mpy_base.specs.declared.source.SourceFault.{SourceFault as Fault};
ghost use Rattle.library_files.specs.declared.entry.Entry.{Entry as AnEntry};
ghost use Rattle.library_files.specs.Comes.{Answers};

use crate::entry::Entry;
use mpy_base::{Refused, SourceFault};
use std::alloc::Global;

/// How the files of names are read: which they are, and what each comes to.
pub trait Reader {
    /// How the paths of the files end.
    ghost ending: { Self → List ℕ };

    /// What a file of a path and of these bytes comes to.
    ghost comes: { Self → (path bytes : List ℕ) → Result AnEntry Fault → Type 0 };

    /// How the paths of the files end.
    fn ending(&self) -> &'static [u8]
        ensures ending { result.now ≡ ending self.now }
        ensures text { IsUtf8 result.now };

    /// What a file comes to, or the fault of a source that isn't accepted.
    fn read(&self, alloc: Global, path: &[u8], bytes: &[u8]) -> Result<Entry, Refused<SourceFault>>
        ensures { Answers (comes self.now path.now bytes.now) result };

    /// What a file comes to that is longer than any that is read, or the fault of a source that isn't accepted.
    fn read_long(&self, alloc: Global, path: &[u8]) -> Result<Entry, SourceFault>
        ensures { (bytes : List ℕ) → MAX_READ_BYTES < length bytes → comes self.now path.now bytes result };
}
