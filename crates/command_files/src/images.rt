//! The libraries of image files.

ghost use Rattle.std.specs.Prelude.{◌≡◌, IfErr, IfOk};
ghost use Rattle.mpy_io.specs.Count.{Counts};
ghost use Rattle.mpy_endings.specs.image_open.bc_library.Shelf.{no_entries};
ghost use Rattle.mpy_endings.specs.image_open.image_grammar.Base.{IsOpened};
ghost use Rattle.command_files.specs.Images.{HoldsImage, RefusesImage};
ghost use Rattle.command_files.specs.Opened.{failed_in};

use crate::reading::read_file;
use bc_library::Library;
use mpy_base::{NoMemory, Refused};
use mpy_endings::{Ending, MainFault, open_image, over_law};
use mpy_io::Folder;
use std::alloc::Global;

/// The library of the file of this name, taken as an image over the library below whatever its bytes are; or what keeps it from being
/// opened.
pub fn open_image_file<F: Folder>(
    alloc: Global,
    below: &Library,
    name: &str,
    folder: &mut F,
) -> Result<Library, Ending>
    requires { IsOpened below.now }
    ensures holds { IfOk result (HoldsImage below.now (F.files folder.old) name.now) }
    ensures opened { IfOk result IsOpened }
    ensures refused { IfErr result (RefusesImage below.now (F.files folder.old) name.now) }
    ensures counts { Counts (F.count folder.old) (F.count folder.new) (failed_in result) }
    ensures files { F.files folder.new ≡ F.files folder.old }
{
    let bytes = match read_file(alloc, name, folder) {
        Ok(bytes) => bytes,
        Err(ending) => return Err(ending),
    };
    match open_image(alloc, below, &bytes) {
        Ok(library) => Ok(library),
        Err(Refused::Fault(fault)) => Err(Ending::Unopened(MainFault::Image(fault))),
        Err(Refused::NoMemory) => Err(Ending::NoMemory),
    }
}

/// The library of a base, which is the file of this name, taken as an image over nothing; or what keeps it from being opened.
pub fn open_base<F: Folder>(alloc: Global, name: &str, folder: &mut F) -> Result<Library, Ending>
    ensures holds { IfOk result (HoldsImage no_entries (F.files folder.old) name.now) }
    ensures opened { IfOk result IsOpened }
    ensures refused { IfErr result (RefusesImage no_entries (F.files folder.old) name.now) }
    ensures counts { Counts (F.count folder.old) (F.count folder.new) (failed_in result) }
    ensures files { F.files folder.new ≡ F.files folder.old }
{
    over_law();
    match Library::new(alloc) {
        Ok(nothing) => open_image_file(alloc, &nothing, name, folder),
        Err(NoMemory) => Err(Ending::NoMemory),
    }
}
