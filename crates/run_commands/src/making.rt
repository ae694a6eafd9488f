//! The made source and its library.

ghost use Rattle.std.specs.Prelude.{◌≡◌, ◌≤◌, ◌⊎◌, [], ◌∷◌, false, length, IfOk, IfErr, Ok, Err, Some};
ghost use Rattle.command_files.specs.mpy_endings.declared.ending.Ending.TheVariants.{NoMemory as WithoutMemory};
ghost use Rattle.command_files.specs.mpy_endings.Ending.{is_folder_fault};
ghost use Rattle.bc_library.specs.mpy_tree.Raw.{Module};
ghost use Rattle.command_files.specs.image_runs.Main.{IsMainAt};
ghost use Rattle.library_files.specs.Ends.{HoldsModules};
ghost use Rattle.run_commands.specs.Source.{stress_text};
ghost use Rattle.mpy_io.specs.Memory.{file_of};
ghost use Rattle.command_files.specs.Opened.{failed_in};
ghost use Rattle.run_commands.specs.Ready.{GoLibrary};
ghost use Rattle.run_commands.specs.Run.{IsUnloaded};
ghost use Rattle.run_commands.specs.Stress.{HasCodes, most_assignments, stress_files, stress_name};

use crate::go::source_ready;
use crate::ready::Ready;
use crate::source::stress_source;
use command_files::Ending;
use mpy_base::NoMemory;
use mpy_io::{Folder, MemFolder};
use std::alloc::Global;

/// The name of the made source.
pub(crate) const NAME: &str = "stress.py";

/// A folder that has the source of this text alone.
fn folder_of(alloc: Global, source: Vec<u8>) -> Result<MemFolder, NoMemory>
    ensures files { IfOk result (λ folder. folder.files ≡ (stress_name, source.items) ∷ []) }
    ensures faults { IfOk result (λ folder. folder.faults ≡ 0) }
{
    let name = String::from_str(alloc, NAME)?;
    let mut files = Vec::new(alloc);
    files.push((name, source))?;
    Ok(MemFolder::new(alloc, files, Vec::new(alloc)))
}

/// A folder that has the made source alone, and how many bytes the source has.
fn made_folder(alloc: Global, seed: u32, count: u32) -> Result<(usize, MemFolder), NoMemory>
    requires { count ≤ most_assignments }
    ensures bytes { IfOk result (λ made. made.0 ≡ length (stress_text seed count)) }
    ensures files { IfOk result (λ made. made.1.files ≡ (stress_name, stress_text seed count) ∷ []) }
    ensures faults { IfOk result (λ made. made.1.faults ≡ 0) }
{
    let source = stress_source(alloc, seed, count)?;
    let bytes = source.len();
    let folder = folder_of(alloc, source)?;
    Ok((bytes, folder))
}

/// Why the source of a folder in memory has no library, this many of whose calls failed: these do so for want of memory.
fn ending_in(ending: Ending, faults: u64) -> Ending
    ensures { ((faults ≡ 0) × (result ≡ ending)) ⊎ (result ≡ WithoutMemory) }
{
    if faults > 0 { Ending::NoMemory } else { ending }
}

/// The library of the source of a folder in memory, with its main module, or what keeps it from being run.
fn ready_in(alloc: Global, folder: &mut MemFolder) -> Result<Ready, Ending>
    requires { folder.old.faults ≡ 0 }
    ensures comes { GoLibrary 0 (Some (file_of folder.old.files)) stress_name result }
    ensures there { IfOk result (λ ready. (m : Module) × IsMainAt ready.main ready.place m ready.library) }
    ensures holds { IfOk result (λ ready. HoldsModules ready.library) }
    ensures unloaded { IfErr result IsUnloaded }
    ensures reads { failed_in result ≡ false }
{
    match source_ready(alloc, 0, NAME, folder) {
        Ok(ready) => Ok(ready),
        Err(ending) => Err(ending_in(ending, folder.faults())),
    }
}

/// The same of a folder that is let go.
fn ready_of(alloc: Global, mut folder: MemFolder) -> Result<Ready, Ending>
    requires { folder.faults ≡ 0 }
    ensures comes { GoLibrary 0 (Some (file_of folder.files)) stress_name result }
    ensures there { IfOk result (λ ready. (m : Module) × IsMainAt ready.main ready.place m ready.library) }
    ensures holds { IfOk result (λ ready. HoldsModules ready.library) }
    ensures unloaded { IfErr result IsUnloaded }
    ensures reads { failed_in result ≡ false }
{
    ready_in(alloc, &mut folder)
}

/// The library of the made source with its main module, and how many bytes the source has; or what keeps it from being run.
pub(crate) fn made_ready(alloc: Global, seed: u32, count: u32) -> Result<(usize, Ready), Ending>
    requires { count ≤ most_assignments }
    ensures bytes { IfOk result (λ made. made.0 ≡ length (stress_text seed count)) }
    ensures comes { IfOk result (λ made. GoLibrary 0 (Some (stress_files seed count)) stress_name (Ok made.1)) }
    ensures there { IfOk result (λ made. (m : Module) × IsMainAt made.1.main made.1.place m made.1.library) }
    ensures holds { IfOk result (λ made. HoldsModules made.1.library) }
    ensures refused { IfErr result (λ ending. GoLibrary 0 (Some (stress_files seed count)) stress_name (Err ending)) }
    ensures unloaded { IfErr result IsUnloaded }
    ensures reads { IfErr result (λ ending. is_folder_fault ending ≡ false) }
{
    let (bytes, folder) = match made_folder(alloc, seed, count) {
        Ok(made) => made,
        Err(NoMemory) => return Err(Ending::NoMemory),
    };
    match ready_of(alloc, folder) {
        Ok(ready) => Ok((bytes, ready)),
        Err(ending) => Err(ending),
    }
}

/// How many codes the main module of a library has, or 2^64 - 1 where there are more.
pub(crate) fn codes_of(ready: &Ready) -> u64
    requires { (m : Module) × IsMainAt ready.now.main ready.now.place m ready.now.library }
    ensures { HasCodes ready.now result }
{
    match ready.library.module(ready.place) {
        Some(main) => main.codes(),
        None => unreachable!(),
    }
}
