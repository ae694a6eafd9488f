//! Freezing: the sources that a manifest names are compiled one after another, and their modules become an image.

ghost use Rattle.std.specs.Prelude.{◌≡◌, []};
ghost use Rattle.mpy_io.specs.Count.{Counts};
ghost use Rattle.manifest_files.specs.image_grammar.Base.{base_of};
ghost use Rattle.image_freeze.specs.Fronts.{MayLieOver};
ghost use Rattle.manifest_files.specs.FrozenFaults.{failed_by, is_read_failure};
ghost use Rattle.frozen_files.specs.Frozen.{Freezes};

use crate::sources::read_sources;
use bc_library::Library;
use image_freeze::freeze;
use manifest_files::FrozenFault;
use mpy_base::Refused;
use mpy_io::Folder;
use std::alloc::Global;

/// The image of this version over the library below of the sources of the manifest of this name, or why there is none. Nothing is
/// written.
pub fn freeze_files<F: Folder>(
    alloc: Global,
    version: u8,
    below: &Library,
    manifest: &str,
    folder: &mut F,
) -> Result<Vec<u8>, Refused<FrozenFault>>
    requires version { MayLieOver (base_of below.now) version }
    requires alone { below.now.refused ≡ [] }
    ensures frozen { Freezes version below.now (F.files folder.old) manifest.now result }
    ensures counts { Counts (F.count folder.old) (F.count folder.new) (failed_by is_read_failure result) }
    ensures files { F.files folder.new ≡ F.files folder.old }
{
    let modules = match read_sources(alloc, manifest, folder) {
        Ok(modules) => modules,
        Err(Refused::Fault(fault)) => return Err(Refused::Fault(FrozenFault::Sources(fault))),
        Err(Refused::NoMemory) => return Err(Refused::NoMemory),
    };
    match freeze(alloc, version, below, &modules) {
        Ok(bytes) => Ok(bytes),
        Err(Refused::Fault(fault)) => Err(Refused::Fault(FrozenFault::Image(fault))),
        Err(Refused::NoMemory) => Err(Refused::NoMemory),
    }
}
