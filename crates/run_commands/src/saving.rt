//! Runs whose state is saved where they take all their steps and don't end.

ghost use Rattle.std.specs.Prelude.{◌≡◌, ◌||◌, [], false, List, ℕ, IfErr, IfOk};
ghost use Rattle.mpy_io.specs.Count.{Counts};
ghost use Rattle.bc_library.specs.mpy_tree.Raw.{Module};
ghost use Rattle.command_files.specs.image_runs.Main.{IsMainAt};
ghost use Rattle.command_files.specs.mpy_endings.declared.ending.Ending.TheVariants.{Stopped};
ghost use Rattle.command_files.specs.mpy_endings.declared.ending.Stop.TheVariants.{Unsaved};
ghost use Rattle.command_files.specs.mpy_endings.Ending.{IsRunStatus, is_out_fault, is_folder_fault, is_said, status_of};
ghost use Rattle.command_files.specs.mpy_endings.Line.{Says};
ghost use Rattle.command_files.specs.Opened.{failed_in};
ghost use Rattle.library_files.specs.Ends.{HoldsModules};
ghost use Rattle.library_runs.specs.Runs.{sight};
ghost use Rattle.run_commands.specs.Run.{IsUnloaded};
ghost use Rattle.run_commands.specs.Save.{RunsSaving, SavesState, is_unwritten};

use crate::ready::Ready;
use crate::run::ending_of;
use bc_library::Library;
use command_files::{Ending, Stop};
use library_runs::{Vm, run_for};
use mpy_base::{Refused, Room};
use mpy_io::{Failed, Folder, Port, Sink};
use port_set::PortSet;
use snap_loading::held_law;
use snap_saving::{SaveFault, save};
use std::alloc::Global;

/// Writes the snapshot of a machine's state, which took these steps, under this name.
pub(crate) fn save_state<F: Folder>(
    alloc: Global,
    library: &Library,
    vm: &Vm,
    steps: u64,
    snap: &str,
    folder: &mut F,
) -> Ending
    ensures saves { SavesState snap.now (F.files folder.old) (F.files folder.new) library.now vm.now steps result }
    ensures unwritten { Counts (F.count folder.old) (F.count folder.new) (is_unwritten result) }
{
    held_law(vm);
    match save(alloc, library, &vm.arena, &vm.modules, &vm.frames, vm.paid) {
        Ok(bytes) => match folder.write(snap, &bytes) {
            Ok(()) => Ending::Stopped(Stop::Steps(steps)),
            Err(Failed) => Ending::Unwritten,
        },
        Err(Refused::Fault(SaveFault::TooBig)) => Ending::Stopped(Stop::Unsaved),
        Err(Refused::NoMemory) => Ending::NoMemory,
    }
}

/// Runs what was loaded, in an arena of this room, for these steps at most, and saves its state under this name where it takes them all and
/// doesn't end. What is printed is handed on before anything is saved or said.
pub fn run_saving<F: Folder, S: Sink, P: Port, E: Sink>(
    alloc: Global,
    loaded: Result<Ready, Ending>,
    room: Room,
    steps: u64,
    snap: &str,
    folder: &mut F,
    out: &mut S,
    ports: &mut PortSet<P>,
    say: &mut E,
) -> Ending
    requires there { IfOk loaded (λ ready. (m : Module) × IsMainAt ready.main ready.place m ready.library) }
    requires holds { IfOk loaded (λ ready. HoldsModules ready.library) }
    requires unloaded { IfErr loaded IsUnloaded }
    ensures went { (said : List ℕ)
        × RunsSaving (λ ready. ready
        ≡ loaded) room steps (sight S.told P.seen out.old ports.old) (sight S.told P.seen out.new ports.new) said snap.now
        (F.files folder.old) (F.files folder.new) result
        × Says (E.told say.old) (E.told say.new) (E.count say.old) (E.count say.new) said }
    ensures flushed { IsRunStatus (status_of result) → S.held out.new ≡ [] }
    ensures handed_on { result ≡ Stopped Unsaved → S.held out.new ≡ [] }
    ensures silent { is_said result ≡ false → say.new ≡ say.old }
    ensures unwritten { Counts (F.count folder.old) (F.count folder.new) (is_unwritten result) }
    ensures folder { (failed_in loaded || is_unwritten result) ≡ is_folder_fault result }
    ensures out_counts { Counts (S.count out.old) (S.count out.new) (is_out_fault result) }
{
    match loaded {
        Ok(ready) => {
            let library = &ready.library;
            let (end, left) = run_for(alloc, library, ready.place, room, steps, out, ports, say);
            match left {
                Some(vm) => save_state(alloc, library, &vm, steps, snap, folder),
                None => ending_of(end, steps),
            }
        }
        Err(ending) => ending,
    }
}
