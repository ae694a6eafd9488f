//! The command `freeze`: the image of a manifest's sources is made, and written as a file.

ghost use Rattle.std.specs.Prelude.{◌≡◌, [], false};
ghost use Rattle.mpy_io.specs.Count.{Counts};
ghost use Rattle.command_files.specs.mpy_endings.Ending.{is_folder_fault, is_out_fault};
ghost use Rattle.manifest_files.specs.image_grammar.Base.{base_of};
ghost use Rattle.frozen_files.specs.image_freeze.Fronts.{MayLieOver};
ghost use Rattle.file_commands.specs.Freeze.{Freezes};

use bc_library::Library;
use command_files::Ending;
use frozen_files::freeze_files;
use mpy_base::Refused;
use mpy_io::{Failed, Folder};
use std::alloc::Global;

/// Writes the image of this version over the library below of the sources of the manifest of this name.
pub fn freeze<F: Folder>(
    alloc: Global,
    version: u8,
    below: &Library,
    manifest: &str,
    written: &str,
    folder: &mut F,
) -> Ending
    requires version { MayLieOver (base_of below.now) version }
    requires alone { below.now.refused ≡ [] }
    ensures went { Freezes version below.now manifest.now written.now (F.files folder.old) (F.files folder.new) result }
    ensures folder_counts { Counts (F.count folder.old) (F.count folder.new) (is_folder_fault result) }
    ensures prints_nothing { is_out_fault result ≡ false }
{
    match freeze_files(alloc, version, below, manifest, folder) {
        Ok(bytes) => match folder.write(written, &bytes) {
            Ok(()) => Ending::Done,
            Err(Failed) => Ending::Unwritten,
        },
        Err(Refused::Fault(fault)) => Ending::Unfrozen(fault),
        Err(Refused::NoMemory) => Ending::NoMemory,
    }
}
