//! The library of a source.

ghost use Rattle.std.specs.Prelude.{◌≡◌, ◌≤◌, IfOk, IfErr};
ghost use Rattle.mpy_io.specs.Count.{Counts};
ghost use Rattle.bc_library.specs.mpy_tree.Raw.{Module};
ghost use Rattle.library_files.specs.Ends.{BeginsWith, HoldsModules};
ghost use Rattle.run_commands.specs.Go.{HoldsSource, RefusesSources, SourceLibrary};
ghost use Rattle.command_files.specs.Opened.{failed_in};
ghost use Rattle.command_files.specs.image_runs.Main.{IsMainAt};
ghost use Rattle.run_commands.specs.Ready.{GoLibrary};
ghost use Rattle.run_commands.specs.Run.{IsUnloaded};

use crate::base::base_of;
use crate::ready::{Ready, first_ready, main_text};
use crate::run::load_ending;
use bc_library::Library;
use bc_verify::Verified;
use command_files::{Ending, load_sources, source_module};
use mpy_base::{Refused, SourceFault};
use mpy_io::{Folder, ReadFault};
use std::alloc::Global;

/// The verified module of the source of this name at a level and how many bytes its file has, or what keeps it from being one.
fn main_of<F: Folder>(
    alloc: Global,
    level: u8,
    name: &str,
    folder: &mut F,
) -> Result<(Verified, usize), Ending>
    requires { level ≤ 3 }
    ensures main { IfOk result (λ main. HoldsSource level (F.files folder.old) name.now main.0 main.1) }
    ensures refused { IfErr result (RefusesSources level (F.files folder.old) name.now) }
    ensures counts { Counts (F.count folder.old) (F.count folder.new) (failed_in result) }
    ensures files { F.files folder.new ≡ F.files folder.old }
{
    let source = match folder.read(alloc, name) {
        Ok(source) => source,
        Err(ReadFault::Absent) => return Err(Ending::Absent),
        Err(ReadFault::TooLong) => {
            return Err(Ending::Unaccepted(SourceFault::too_long(alloc)));
        }
        Err(ReadFault::Failed) => return Err(Ending::ReadFault),
        Err(ReadFault::NoMemory) => return Err(Ending::NoMemory),
    };
    match source_module(alloc, level, name.as_bytes(), &source) {
        Ok(main) => Ok(main),
        Err(Refused::Fault(fault)) => Err(Ending::Unaccepted(fault)),
        Err(Refused::NoMemory) => Err(Ending::NoMemory),
    }
}

/// The library of the source of this name at a level, or what keeps it from being loaded.
fn source_library<F: Folder>(
    alloc: Global,
    level: u8,
    name: &str,
    folder: &mut F,
) -> Result<Library, Ending>
    requires { level ≤ 3 }
    ensures comes { SourceLibrary level (F.files folder.old) name.now result }
    ensures begins { IfOk result (λ library. (m : Module) × BeginsWith m library) }
    ensures holds { IfOk result HoldsModules }
    ensures unloaded { IfErr result IsUnloaded }
    ensures counts { Counts (F.count folder.old) (F.count folder.new) (failed_in result) }
    ensures files { F.files folder.new ≡ F.files folder.old }
{
    let (main, size) = match main_of(alloc, level, name, folder) {
        Ok(main) => main,
        Err(ending) => return Err(ending),
    };
    match load_sources(alloc, folder, base_of(name.as_bytes()), level, main, size) {
        Ok(library) => Ok(library),
        Err(refused) => Err(load_ending(refused)),
    }
}

/// The library of the source of this name at a level with its main module, the first one, or what keeps it from being loaded.
pub fn source_ready<F: Folder>(
    alloc: Global,
    level: u8,
    name: &str,
    folder: &mut F,
) -> Result<Ready, Ending>
    requires { level ≤ 3 }
    ensures comes { GoLibrary level (F.files folder.old) name.now result }
    ensures there { IfOk result (λ ready. (m : Module) × IsMainAt ready.main ready.place m ready.library) }
    ensures holds { IfOk result (λ ready. HoldsModules ready.library) }
    ensures unloaded { IfErr result IsUnloaded }
    ensures counts { Counts (F.count folder.old) (F.count folder.new) (failed_in result) }
    ensures files { F.files folder.new ≡ F.files folder.old }
{
    let main = match main_text(alloc) {
        Ok(main) => main,
        Err(ending) => return Err(ending),
    };
    let loaded = source_library(alloc, level, name, folder);
    first_ready(loaded, main)
}
