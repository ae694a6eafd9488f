//! The command `migrate`: an image is read, and written once more in version 2.

ghost use Rattle.std.specs.Prelude.{◌≡◌, false};
ghost use Rattle.mpy_io.specs.Count.{Counts};
ghost use Rattle.command_files.specs.mpy_endings.Ending.{is_folder_fault, is_out_fault};
ghost use Rattle.file_commands.specs.Migrate.{Migrates, refused_end};

use command_files::{Ending, read_file};
use frozen_files::{MigrateFault, migrate_image};
use image_runs::MainFault;
use manifest_files::FrozenFault;
use mpy_base::Refused;
use mpy_io::{Failed, Folder};
use std::alloc::Global;

/// How a migration ends that is refused so.
fn refused(refusal: Refused<MigrateFault>) -> Ending
    ensures { result ≡ refused_end refusal }
{
    match refusal {
        Refused::Fault(MigrateFault::Opening(fault)) => Ending::Unopened(MainFault::Image(fault)),
        Refused::Fault(MigrateFault::Freezing(fault)) => Ending::Unfrozen(FrozenFault::Image(
            fault,
        )),
        Refused::NoMemory => Ending::NoMemory,
    }
}

/// Writes the image of this name, which lies over nothing, once more in version 2.
pub fn migrate<F: Folder>(alloc: Global, name: &str, written: &str, folder: &mut F) -> Ending
    ensures went { Migrates name.now written.now (F.files folder.old) (F.files folder.new) result }
    ensures folder_counts { Counts (F.count folder.old) (F.count folder.new) (is_folder_fault result) }
    ensures prints_nothing { is_out_fault result ≡ false }
{
    let bytes = match read_file(alloc, name, folder) {
        Ok(bytes) => bytes,
        Err(ending) => return ending,
    };
    match migrate_image(alloc, &bytes) {
        Ok(image) => match folder.write(written, &image) {
            Ok(()) => Ending::Done,
            Err(Failed) => Ending::Unwritten,
        },
        Err(refusal) => refused(refusal),
    }
}
