//! Libraries that are ready to be run.

ghost use Rattle.std.specs.Prelude.{◌≡◌, Ok, Err, IfOk, IfErr};
ghost use Rattle.command_files.specs.mpy_endings.declared.ending.Ending.TheVariants.{NoMemory as WithoutMemory};
ghost use Rattle.bc_library.specs.mpy_tree.Raw.{Module};
ghost use Rattle.command_files.specs.image_runs.Main.{IsMainAt};
ghost use Rattle.library_files.specs.Ends.{BeginsWith, HoldsModules};
ghost use Rattle.library_files.specs.Loads.{main_name};
ghost use Rattle.command_files.specs.manifest_files.image_grammar.Base.{IsOpened};
ghost use Rattle.run_commands.specs.Ready.{ImageStart, IsFirst};

use bc_library::Library;
use command_files::{Ending, image_library};
use mpy_base::{NoMemory, Refused, Text};
use std::alloc::Global;

/// A library and its main module.
#[derive(Drop)]
pub struct Ready {
    pub library: Library,
    /// The number of the main module.
    pub place: u32,
    /// Its name in the library.
    pub main: Text,
}

/// The name of the main module of a library of files or sources.
pub(crate) fn main_text(alloc: Global) -> Result<Text, Ending>
    ensures name { IfOk result (λ main. main ≡ main_name) }
    ensures starved { IfErr result (λ ending. ending ≡ WithoutMemory) }
{
    match Text::new(alloc, b"__main__") {
        Ok(main) => Ok(main),
        Err(NoMemory) => Err(Ending::NoMemory),
    }
}

/// A library of files or sources, of which the first module is the main one, under its name.
pub(crate) fn first_ready(loaded: Result<Library, Ending>, main: Text) -> Result<Ready, Ending>
    requires begins { IfOk loaded (λ library. (m : Module) × BeginsWith m library) }
    requires holds { IfOk loaded HoldsModules }
    requires name { main ≡ main_name }
    ensures ready { IfOk result (λ ready. (loaded ≡ Ok ready.library) × IsFirst ready) }
    ensures there { IfOk result (λ ready. (m : Module) × IsMainAt ready.main ready.place m ready.library) }
    ensures holds { IfOk result (λ ready. HoldsModules ready.library) }
    ensures refused { IfErr result (λ ending. loaded ≡ Err ending) }
{
    match loaded {
        Ok(library) => Ok(Ready {
            library,
            place: 0,
            main,
        }),
        Err(ending) => Err(ending),
    }
}

/// The library of an image over the library below and the module of this name, of either, or what keeps it from being run.
pub(crate) fn image_ready(
    alloc: Global,
    below: &Library,
    bytes: &[u8],
    main: &[u8],
) -> Result<Ready, Ending>
    requires { IsOpened below.now }
    ensures start { ImageStart below.now main.now bytes.now result }
    ensures there { IfOk result (λ ready. (m : Module) × IsMainAt ready.main ready.place m ready.library) }
    ensures holds { IfOk result (λ ready. HoldsModules ready.library) }
{
    let name = match Text::new(alloc, main) {
        Ok(name) => name,
        Err(NoMemory) => return Err(Ending::NoMemory),
    };
    match image_library(alloc, below, bytes, main) {
        Ok((library, place)) => Ok(Ready {
            library,
            place,
            main: name,
        }),
        Err(Refused::Fault(fault)) => Err(Ending::Unopened(fault)),
        Err(Refused::NoMemory) => Err(Ending::NoMemory),
    }
}
