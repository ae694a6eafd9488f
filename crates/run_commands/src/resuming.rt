//! Runs that go on from a snapshot.

ghost use Rattle.std.specs.Prelude.{◌≡◌, ◌+◌, ◌<◌, ◌^◌, [], false, List, ℕ, Option, Some, Ok, IfErr, IfOk, map, string_bytes};
ghost use Rattle.mpy_io.specs.Count.{Counts};
ghost use Rattle.mpy_io.specs.Files.{FileOf};
ghost use Rattle.bc_library.specs.Shelf.{Shelf};
ghost use Rattle.command_files.specs.Folder.{MayHold};
ghost use Rattle.command_files.specs.Opened.{failed_in};
ghost use Rattle.command_files.specs.manifest_files.image_grammar.Base.{IsOpened};
ghost use Rattle.command_files.specs.mpy_endings.declared.ending.Ending.TheVariants.{Stopped};
ghost use Rattle.command_files.specs.mpy_endings.declared.ending.Stop.TheVariants.{Unsaved};
ghost use Rattle.command_files.specs.mpy_endings.Ending.{IsRunStatus, is_folder_fault, is_out_fault, is_said, status_of};
ghost use Rattle.command_files.specs.mpy_endings.Line.{Says};
ghost use Rattle.command_files.specs.mpy_words.Words.{first_name, saved_name, second_name};
ghost use Rattle.library_files.specs.Ends.{HoldsModules};
ghost use Rattle.library_runs.specs.Runs.{sight};
ghost use Rattle.library_runs.specs.vm_machine.Machine.{IsVm};
ghost use Rattle.library_runs.specs.vm_starting.Programs.{IsRunnable};
ghost use Rattle.snap_loading.specs.Given.{IsTabled};
ghost use Rattle.snap_loading.specs.Loaded.{IsLoaded};
ghost use Rattle.run_commands.specs.Run.{IsUnloaded};
ghost use Rattle.run_commands.specs.Resume.{ImageLibrary, RefusesState, ResumeLibrary, Resumes, WentOn};
ghost use Rattle.run_commands.specs.Save.{is_unwritten, place_to};

use crate::run::{begins_image, ending_of, file_library};
use crate::saving::save_state;
use bc_library::{Library, modules_law};
use command_files::{Ended, Ending, MainFault, Stop, open_image, read_file, word_at};
use library_runs::{Rows, Vm, run_on};
use mpy_base::{NoMemory, Refused};
use mpy_io::{Folder, Port, ReadFault, Sink};
use port_set::PortSet;
use snap_grammar::SnapFault;
use snap_loading::{load, tables_law};
use std::alloc::Global;

/// The library of an image over the library below, or what keeps it from being opened.
fn opened_image(alloc: Global, below: &Library, bytes: &[u8]) -> Result<Library, Ending>
    requires { IsOpened below.now }
    ensures comes { ImageLibrary below.now bytes.now result }
    ensures holds { IfOk result HoldsModules }
{
    match open_image(alloc, below, bytes) {
        Ok(library) => {
            modules_law(&library);
            Ok(library)
        }
        Err(Refused::Fault(fault)) => Err(Ending::Unopened(MainFault::Image(fault))),
        Err(Refused::NoMemory) => Err(Ending::NoMemory),
    }
}

/// The library of the file of this name: as an image over the library below where its bytes begin as one, and else of the file's own
/// folder. Or what keeps it from being loaded.
fn resume_library<F: Folder>(
    alloc: Global,
    below: &Library,
    name: &str,
    folder: &mut F,
) -> Result<Library, Ending>
    requires { IsOpened below.now }
    ensures comes { ResumeLibrary below.now (F.files folder.old) name.now result }
    ensures holds { IfOk result HoldsModules }
    ensures unloaded { IfErr result IsUnloaded }
    ensures counts { Counts (F.count folder.old) (F.count folder.new) (failed_in result) }
    ensures files { F.files folder.new ≡ F.files folder.old }
{
    let bytes = match read_file(alloc, name, folder) {
        Ok(bytes) => bytes,
        Err(ending) => return Err(ending),
    };
    if begins_image(&bytes) {
        return opened_image(alloc, below, &bytes);
    }
    file_library(alloc, name, &bytes, folder)
}

/// The bytes of the snapshot of this name, or what keeps a run from going on from it.
fn read_snapshot<F: Folder>(alloc: Global, name: &str, folder: &mut F) -> Result<Vec<u8>, Ending>
    ensures read { IfOk result (λ bytes. MayHold (F.files folder.old) name.now (Some bytes.items)) }
    ensures refused { (shelf : Shelf) → IfErr result (RefusesState shelf (F.files folder.old) name.now) }
    ensures counts { Counts (F.count folder.old) (F.count folder.new) (failed_in result) }
    ensures files { F.files folder.new ≡ F.files folder.old }
{
    match folder.read(alloc, name) {
        Ok(bytes) => Ok(bytes),
        Err(ReadFault::Absent) => Err(Ending::Absent),
        Err(ReadFault::TooLong) => Err(Ending::Stopped(Stop::Unresumed(SnapFault::BadForm))),
        Err(ReadFault::Failed) => Err(Ending::ReadFault),
        Err(ReadFault::NoMemory) => Err(Ending::NoMemory),
    }
}

/// The machine of a snapshot's bytes, or what keeps a run from going on from them.
fn load_state(alloc: Global, library: &Library, rows: &Rows<'_>, bytes: &[u8]) -> Result<Vm, Ending>
    requires runnable { IsRunnable library.now }
    requires rows { rows.now ≡ library.now }
    ensures loaded { IfOk result (λ vm. IsLoaded library.now bytes.now vm) }
    ensures ready { IfOk result (IsVm library.now) }
    ensures refused { (files : Option FileOf) (name : List ℕ) → MayHold files name (Some bytes.now)
        → IfErr result (RefusesState library.now files name) }
    ensures tabled { IsTabled library.now }
    ensures read { failed_in result ≡ false }
{
    tables_law(library, rows);
    match load(alloc, library, rows, bytes) {
        Ok(vm) => Ok(vm),
        Err(Refused::Fault(fault)) => Err(Ending::Stopped(Stop::Unresumed(fault))),
        Err(Refused::NoMemory) => Err(Ending::NoMemory),
    }
}

/// What keeps a run from going on from the snapshot, which the line names.
fn not_resumed(ending: Ending) -> Ended
    ensures ending { result.ending ≡ ending }
    ensures place { result.place ≡ 2 }
{
    Ended { ending, place: 2 }
}

/// The place of the word that the line of a run names which saves to the word at a place, if it does.
pub fn place_of(save: Option<usize>, ending: &Ending) -> usize
    ensures { result ≡ place_to save ending.now }
{
    match (save, ending) {
        (Some(at), Ending::Unwritten) => at,
        _ => 1,
    }
}

/// Lets the machine go on for these steps at most, and saves its state under the word at the place, if one is given, where it takes them
/// all and doesn't end. What is printed is handed on before anything is saved or said.
fn go_on<F: Folder, S: Sink, P: Port, E: Sink>(
    alloc: Global,
    library: &Library,
    rows: &Rows<'_>,
    vm: Vm,
    steps: u64,
    words: &[String],
    save: Option<usize>,
    folder: &mut F,
    out: &mut S,
    ports: &mut PortSet<P>,
    say: &mut E,
) -> Ending
    requires vm { IsVm library.now vm }
    requires rows { rows.now ≡ library.now }
    requires countable { vm.paid + steps < 2 ^ 64 }
    ensures went { (said : List ℕ)
        × WentOn library.now vm steps (sight S.told P.seen out.old ports.old) (sight S.told P.seen out.new ports.new) said
        (F.files folder.old) (F.files folder.new) (saved_name (map string_bytes words.now) save) result
        × Says (E.told say.old) (E.told say.new) (E.count say.old) (E.count say.new) said }
    ensures flushed { IsRunStatus (status_of result) → S.held out.new ≡ [] }
    ensures handed_on { result ≡ Stopped Unsaved → S.held out.new ≡ [] }
    ensures silent { is_said result ≡ false → say.new ≡ say.old }
    ensures unwritten { Counts (F.count folder.old) (F.count folder.new) (is_unwritten result) }
    ensures folder { is_unwritten result ≡ is_folder_fault result }
    ensures out_counts { Counts (S.count out.old) (S.count out.new) (is_out_fault result) }
{
    let (end, left) = run_on(alloc, library, rows, vm, steps, out, ports, say);
    let Some(at) = save else {
        return ending_of(end, steps);
    };
    match left {
        Some(vm) => save_state(alloc, library, &vm, steps, word_at(words, at), folder),
        None => ending_of(end, steps),
    }
}

/// Lets the machine of a snapshot's bytes go on, or answers what keeps it from that.
fn resume_bytes<F: Folder, S: Sink, P: Port, E: Sink>(
    alloc: Global,
    library: &Library,
    bytes: &[u8],
    steps: u64,
    words: &[String],
    save: Option<usize>,
    folder: &mut F,
    out: &mut S,
    ports: &mut PortSet<P>,
    say: &mut E,
) -> Ended
    requires holds { HoldsModules library.now }
    requires steps { steps < 2 ^ 63 }
    requires read { MayHold (F.files folder.old) (second_name (map string_bytes words.now)) (Some bytes.now) }
    ensures went { let given = map string_bytes words.now in (said : List ℕ)
        × Resumes (λ answer. answer ≡ Ok library.now) (second_name given) given save steps
        (sight S.told P.seen out.old ports.old) (sight S.told P.seen out.new ports.new) said (F.files folder.old)
        (F.files folder.new) result.place result.ending
        × Says (E.told say.old) (E.told say.new) (E.count say.old) (E.count say.new) said }
    ensures flushed { IsRunStatus (status_of result.ending) → S.held out.new ≡ [] }
    ensures handed_on { result.ending ≡ Stopped Unsaved → S.held out.new ≡ [] }
    ensures silent { is_said result.ending ≡ false → say.new ≡ say.old }
    ensures folder_counts { Counts (F.count folder.old) (F.count folder.new) (is_folder_fault result.ending) }
    ensures out_counts { Counts (S.count out.old) (S.count out.new) (is_out_fault result.ending) }
{
    let rows = match Rows::new(alloc, library) {
        Ok(rows) => rows,
        Err(NoMemory) => return not_resumed(Ending::NoMemory),
    };
    let vm = match load_state(alloc, library, &rows, bytes) {
        Ok(vm) => vm,
        Err(ending) => return not_resumed(ending),
    };
    let ending = go_on(
        alloc, library, &rows, vm, steps, words, save, folder, out, ports, say,
    );
    let place = place_of(save, &ending);
    Ended { ending, place }
}

/// Lets the machine of the snapshot that the second name names go on in the library, or answers what keeps it from that.
fn resume_in<F: Folder, S: Sink, P: Port, E: Sink>(
    alloc: Global,
    library: &Library,
    steps: u64,
    words: &[String],
    save: Option<usize>,
    folder: &mut F,
    out: &mut S,
    ports: &mut PortSet<P>,
    say: &mut E,
) -> Ended
    requires holds { HoldsModules library.now }
    requires steps { steps < 2 ^ 63 }
    ensures went { let given = map string_bytes words.now in (said : List ℕ)
        × Resumes (λ answer. answer ≡ Ok library.now) (second_name given) given save steps
        (sight S.told P.seen out.old ports.old) (sight S.told P.seen out.new ports.new) said (F.files folder.old)
        (F.files folder.new) result.place result.ending
        × Says (E.told say.old) (E.told say.new) (E.count say.old) (E.count say.new) said }
    ensures flushed { IsRunStatus (status_of result.ending) → S.held out.new ≡ [] }
    ensures handed_on { result.ending ≡ Stopped Unsaved → S.held out.new ≡ [] }
    ensures silent { is_said result.ending ≡ false → say.new ≡ say.old }
    ensures folder_counts { Counts (F.count folder.old) (F.count folder.new) (is_folder_fault result.ending) }
    ensures out_counts { Counts (S.count out.old) (S.count out.new) (is_out_fault result.ending) }
{
    let bytes = match read_snapshot(alloc, word_at(words, 2), folder) {
        Ok(bytes) => bytes,
        Err(ending) => return not_resumed(ending),
    };
    resume_bytes(
        alloc, library, &bytes, steps, words, save, folder, out, ports, say,
    )
}

/// Goes on from the snapshot that the second name names, in the library of the file that the first one names, over the library below, for
/// these steps at most; saves the state under the word at the place, if one is given, where it takes them all and doesn't end. What is
/// printed is handed on before anything is saved or said.
pub fn resume<F: Folder, S: Sink, P: Port, E: Sink>(
    alloc: Global,
    below: &Library,
    steps: u64,
    words: &[String],
    save: Option<usize>,
    folder: &mut F,
    out: &mut S,
    ports: &mut PortSet<P>,
    say: &mut E,
) -> Ended
    requires opened { IsOpened below.now }
    requires steps { steps < 2 ^ 63 }
    ensures went { let given = map string_bytes words.now in (said : List ℕ)
        × Resumes (ResumeLibrary below.now (F.files folder.old) (first_name given)) (second_name given) given save steps
        (sight S.told P.seen out.old ports.old) (sight S.told P.seen out.new ports.new) said (F.files folder.old)
        (F.files folder.new) result.place result.ending
        × Says (E.told say.old) (E.told say.new) (E.count say.old) (E.count say.new) said }
    ensures flushed { IsRunStatus (status_of result.ending) → S.held out.new ≡ [] }
    ensures handed_on { result.ending ≡ Stopped Unsaved → S.held out.new ≡ [] }
    ensures silent { is_said result.ending ≡ false → say.new ≡ say.old }
    ensures folder_counts { Counts (F.count folder.old) (F.count folder.new) (is_folder_fault result.ending) }
    ensures out_counts { Counts (S.count out.old) (S.count out.new) (is_out_fault result.ending) }
{
    let library = match resume_library(alloc, below, word_at(words, 1), folder) {
        Ok(library) => library,
        Err(ending) => return Ended { ending, place: 1 },
    };
    resume_in(alloc, &library, steps, words, save, folder, out, ports, say)
}
