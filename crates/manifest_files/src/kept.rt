//! The manifests that were read whole and gave nothing.

ghost use Rattle.std.specs.Prelude.{◌≡◌, true, OnOk};
ghost use Rattle.mpy_io.specs.Files.{FileOf};
ghost use Rattle.manifest_files.specs.Quiet.{IsQuiet, AreQuiet};

use indexmap::IndexMap;
use mpy_base::NoMemory;
use std::alloc::Global;

/// Their names, each with how many manifests might be opened when it gave nothing.
pub(crate) type Quiet = IndexMap<Vec<u8>, usize>;

/// Is it known that the manifest gives nothing, where so many may be opened?
pub(crate) fn is_known(quiet: &Quiet, left: usize, name: &[u8]) -> bool
    ensures { (files : FileOf) → AreQuiet files quiet.now.entries → result ≡ true → IsQuiet files left name.now }
{
    match quiet.get(name) {
        Some(known) => *known <= left,
        None => false,
    }
}

/// Keeps of a manifest that it gave nothing, where so many might be opened.
pub(crate) fn keep(
    alloc: Global,
    quiet: &mut Quiet,
    left: usize,
    name: &[u8],
) -> Result<(), NoMemory>
    ensures { (files : FileOf) → AreQuiet files quiet.old.entries → IsQuiet files left name.now → OnOk result (AreQuiet files quiet.new.entries) }
{
    quiet.insert(Vec::from_slice(alloc, name)?, left)?;
    Ok(())
}
