//! The library of a file, and the run of a library.

ghost use Rattle.library_runs.specs.Runs.{sight};
ghost use Rattle.std.specs.Prelude.{◌≡◌, List, ℕ, [], Some, false, IfOk, IfErr};
ghost use Rattle.mpy_io.specs.Count.{Counts};
ghost use Rattle.library_files.specs.Ends.{BeginsWith, HoldsModules};
ghost use Rattle.bc_library.specs.mpy_tree.Raw.{Module};
ghost use Rattle.command_files.specs.mpy_endings.Line.{Says};
ghost use Rattle.command_files.specs.mpy_endings.Ending.{IsRunStatus, is_folder_fault, is_out_fault, is_said, status_of};
ghost use Rattle.command_files.specs.image_runs.Main.{IsMainAt};
ghost use Rattle.command_files.specs.Folder.{MayHold};
ghost use Rattle.command_files.specs.Opened.{failed_in};
ghost use Rattle.command_files.specs.manifest_files.image_grammar.Base.{IsOpened};
ghost use Rattle.run_commands.specs.Ready as starts;
ghost use Rattle.run_commands.specs.Ready.{FirstOf, OpensMain, RunLibrary};
ghost use Rattle.run_commands.specs.Run as spec;
ghost use Rattle.run_commands.specs.Run.{FileLibrary, IsUnloaded, Runs};

use crate::base::base_of;
use crate::ready::{Ready, first_ready, image_ready, main_text};
use bc_library::Library;
use bc_verify::Verified;
use command_files::{Ending, Stop, read_file, verified};
use library_files::{LoadFault, load};
use library_runs::{RunEnd, run_library};
use mpy_base::{Refused, Room};
use mpy_io::{Folder, Port, Sink};
use port_set::PortSet;
use std::alloc::Global;

/// Whether bytes begin as those of an image.
pub(crate) fn begins_image(bytes: &[u8]) -> bool
    ensures { result ≡ starts.begins_image bytes.now }
{
    match bytes {
        [first, second, ..] => *first == b'M' && *second == b'I',
        [] | [_] => false,
    }
}

/// The verified module of a file's bytes and how many they are, or what keeps it from being one.
fn main_of(alloc: Global, bytes: &[u8]) -> Result<(Verified, usize), Ending>
    ensures { OpensMain bytes.now result }
{
    match verified(alloc, bytes) {
        Ok(main) => Ok((main, bytes.len())),
        Err(ending) => Err(ending),
    }
}

/// Why a library isn't loaded.
pub(crate) fn load_ending(refused: Refused<LoadFault>) -> Ending
    ensures { result ≡ spec.load_end refused }
{
    match refused {
        Refused::Fault(LoadFault::Past(limit)) => Ending::Stopped(Stop::Past(limit)),
        Refused::Fault(LoadFault::Failed(read)) => Ending::Stopped(Stop::LibraryFault(read.path)),
        Refused::Fault(LoadFault::Unaccepted(source)) => {
            Ending::Stopped(Stop::LibraryUnaccepted(source))
        }
        Refused::NoMemory => Ending::NoMemory,
    }
}

/// The library of the file of this name, which has these bytes, or what keeps it from being loaded.
pub(crate) fn file_library<F: Folder>(
    alloc: Global,
    name: &str,
    bytes: &[u8],
    folder: &mut F,
) -> Result<Library, Ending>
    requires { MayHold (F.files folder.old) name.now (Some bytes.now) }
    ensures comes { FileLibrary (F.files folder.old) name.now result }
    ensures begins { IfOk result (λ library. (m : Module) × BeginsWith m library) }
    ensures holds { IfOk result HoldsModules }
    ensures unloaded { IfErr result IsUnloaded }
    ensures counts { Counts (F.count folder.old) (F.count folder.new) (failed_in result) }
    ensures files { F.files folder.new ≡ F.files folder.old }
{
    let (main, size) = match main_of(alloc, bytes) {
        Ok(main) => main,
        Err(ending) => return Err(ending),
    };
    match load(alloc, folder, base_of(name.as_bytes()), main, size) {
        Ok(library) => Ok(library),
        Err(refused) => Err(load_ending(refused)),
    }
}

/// The library of the file of this name, which has these bytes, with its first module as the main one, or what keeps it from being run.
fn file_ready<F: Folder>(
    alloc: Global,
    name: &str,
    bytes: &[u8],
    folder: &mut F,
) -> Result<Ready, Ending>
    requires { MayHold (F.files folder.old) name.now (Some bytes.now) }
    ensures comes { FirstOf (FileLibrary (F.files folder.old) name.now) result }
    ensures there { IfOk result (λ ready. (m : Module) × IsMainAt ready.main ready.place m ready.library) }
    ensures holds { IfOk result (λ ready. HoldsModules ready.library) }
    ensures unloaded { IfErr result IsUnloaded }
    ensures counts { Counts (F.count folder.old) (F.count folder.new) (failed_in result) }
    ensures files { F.files folder.new ≡ F.files folder.old }
{
    let first = match main_text(alloc) {
        Ok(first) => first,
        Err(ending) => return Err(ending),
    };
    let loaded = file_library(alloc, name, bytes, folder);
    first_ready(loaded, first)
}

/// The library of the file of this name: as an image over the library below, whose module of the name `main` is run, where its bytes
/// begin as one, and else of the file's own folder. Or what keeps it from being run.
pub fn run_ready<F: Folder>(
    alloc: Global,
    below: &Library,
    name: &str,
    main: &str,
    folder: &mut F,
) -> Result<Ready, Ending>
    requires { IsOpened below.now }
    ensures comes { RunLibrary below.now main.now (F.files folder.old) name.now result }
    ensures there { IfOk result (λ ready. (m : Module) × IsMainAt ready.main ready.place m ready.library) }
    ensures holds { IfOk result (λ ready. HoldsModules ready.library) }
    ensures unloaded { IfErr result IsUnloaded }
    ensures counts { Counts (F.count folder.old) (F.count folder.new) (failed_in result) }
    ensures files { F.files folder.new ≡ F.files folder.old }
{
    let bytes = match read_file(alloc, name, folder) {
        Ok(bytes) => bytes,
        Err(ending) => return Err(ending),
    };
    if begins_image(&bytes) {
        return image_ready(alloc, below, &bytes, main.as_bytes());
    }
    file_ready(alloc, name, &bytes, folder)
}

/// How a run ended whose library's run ended so.
pub(crate) fn ending_of(end: RunEnd, steps: u64) -> Ending
    ensures { result ≡ spec.ending_of end steps }
{
    match end {
        RunEnd::Ended => Ending::Done,
        RunEnd::Raised => Ending::Stopped(Stop::Raised),
        RunEnd::Memory => Ending::Stopped(Stop::Memory),
        RunEnd::Limit => Ending::Stopped(Stop::Steps(steps)),
        RunEnd::WriteFault => Ending::WriteFault,
        RunEnd::NoMemory => Ending::NoMemory,
    }
}

/// Runs what was loaded, in an arena of this room, for these steps at most. What is printed is handed on before anything is said of
/// the run's end.
pub fn run_loaded<S: Sink, P: Port, E: Sink>(
    alloc: Global,
    loaded: Result<Ready, Ending>,
    room: Room,
    steps: u64,
    out: &mut S,
    ports: &mut PortSet<P>,
    say: &mut E,
) -> Ending
    requires there { IfOk loaded (λ ready. (m : Module) × IsMainAt ready.main ready.place m ready.library) }
    requires holds { IfOk loaded (λ ready. HoldsModules ready.library) }
    requires unloaded { IfErr loaded IsUnloaded }
    ensures went { (said : List ℕ)
        × Runs (λ ready. ready ≡ loaded) room steps (sight S.told P.seen out.old ports.old) (sight S.told P.seen out.new ports.new) said result
        × Says (E.told say.old) (E.told say.new) (E.count say.old) (E.count say.new) said }
    ensures flushed { IsRunStatus (status_of result) → S.held out.new ≡ [] }
    ensures silent { is_said result ≡ false → say.new ≡ say.old }
    ensures reads { failed_in loaded ≡ is_folder_fault result }
    ensures out_counts { Counts (S.count out.old) (S.count out.new) (is_out_fault result) }
{
    match loaded {
        Ok(ready) => {
            let end = run_library(
                alloc,
                &ready.library,
                ready.place,
                room,
                steps,
                out,
                ports,
                say,
            );
            ending_of(end, steps)
        }
        Err(ending) => ending,
    }
}
