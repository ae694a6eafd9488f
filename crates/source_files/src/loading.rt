//! Loading a library from sources: each name that is asked for is found, compiled, and read back as a file.

ghost use Rattle.std.specs.Prelude.{◌≡◌, ◌≤◌, IfOk, IfSome, IsUtf8};
ghost use Rattle.mpy_io.specs.Count.{Counts};
ghost use Rattle.library_files.specs.Ends.{BeginsWith, EndsIn, FailsAmong, HoldsModules, is_failed};
ghost use Rattle.source_files.specs.Sources.{LoadsFromSources, SourceComesTo, source_ending};

use crate::source::source_module;
use bc_verify::Verified;
use library_files::{Entry, Library, LoadFault, Reader, load_by};
use mpy_base::{Refused, SourceFault};
use mpy_io::Folder;
use std::alloc::Global;

/// Sources, which are compiled at a level of optimization: one that is too long, or isn't accepted, is a fault.
#[derive(Drop)]
pub struct Sources {
    level: u8,
    ghost is_level: { level ≤ 3 },
}

impl Sources {
    /// Sources that are compiled at the level of optimization `level`.
    pub fn new(level: u8) -> Sources
        requires { level ≤ 3 }
        ensures { result.level ≡ level }
    {
        Sources { level }
    }
}

impl Reader for Sources {
    ghost ending = { λ _. source_ending };

    ghost comes = { λ sources. SourceComesTo sources.level };

    fn ending(&self) -> &'static [u8] {
        b".py"
    }

    fn read(
        &self,
        alloc: Global,
        path: &[u8],
        bytes: &[u8],
    ) -> Result<Entry, Refused<SourceFault>> {
        match source_module(alloc, self.level, path, bytes) {
            Ok((verified, size)) => Ok(Entry::Held(verified, size)),
            Err(refused) => Err(refused),
        }
    }

    fn read_long(&self, alloc: Global, _path: &[u8]) -> Result<Entry, SourceFault> {
        Err(SourceFault::too_long(alloc))
    }
}

/// Loads the library of a main module, whose file has `size` bytes, from the sources of a folder, each compiled at the
/// level with the stored name of its path. The base folder stands in front of their names as it is: with its `/`, or empty.
/// Each name that is asked for takes two reads at most, and all sources that are read are compiled.
pub fn load_sources<F: Folder>(
    alloc: Global,
    folder: &mut F,
    base: &[u8],
    level: u8,
    main: Verified,
    size: usize,
) -> Result<Library, Refused<LoadFault>>
    requires level_is { level ≤ 3 }
    requires base_is { IsUtf8 base.now }
    ensures loaded { IfSome (F.files folder.old) (λ files. EndsIn (LoadsFromSources level files base.now main size) result) }
    ensures main_first { IfOk result (BeginsWith main) }
    ensures holds { IfOk result HoldsModules }
    ensures same { F.files folder.new ≡ F.files folder.old }
    ensures at { FailsAmong source_ending (SourceComesTo level) base.now result }
    ensures cause { Counts (F.count folder.old) (F.count folder.new) (is_failed result) }
{
    load_by(alloc, &Sources::new(level), folder, base, main, size)
}
