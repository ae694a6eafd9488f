//! Orders that run a library.

ghost use Rattle.std.specs.Prelude.{◌≡◌, ◌≤◌, ◌||◌, ℕ, List, [], Some, false, true, IfSome, IfOk, IfErr};
ghost use Rattle.mpy_io.specs.Count.{Counts};
ghost use Rattle.image_open.specs.mpy_tree.Raw.{Module};
ghost use Rattle.meant_commands.specs.library_files.Ends.{HoldsModules};
ghost use Rattle.image_open.specs.image_grammar.Base.{IsOpened};
ghost use Rattle.mpy_endings.specs.image_runs.Main.{IsMainAt};
ghost use Rattle.mpy_words.specs.Words.{first_name, saved_name};
ghost use Rattle.mpy_endings.specs.declared.ending.Ending.TheVariants.{Stopped};
ghost use Rattle.mpy_endings.specs.declared.ending.Stop.TheVariants.{Unsaved};
ghost use Rattle.mpy_endings.specs.Ending.{IsRunStatus, is_folder_fault, is_out_fault, is_said, status_of};
ghost use Rattle.mpy_endings.specs.Line.{Says};
ghost use Rattle.meant_commands.specs.run_commands.library_runs.Runs.{sight};
ghost use Rattle.board_command.specs.command_files.Opened.{failed_in};
ghost use Rattle.meant_commands.specs.run_commands.Run.{IsUnloaded, room_of};
ghost use Rattle.meant_commands.specs.run_commands.Save.{RunsTo, is_unwritten, place_to};
ghost use Rattle.meant_commands.specs.run_commands.Ready.{RunLibrary};
ghost use Rattle.mpy_tool.specs.Below.{MayLieBelow, library_below};
ghost use Rattle.mpy_tool.specs.Call.{call_of, texts};
ghost use Rattle.mpy_tool.specs.Doing.{LibraryBy, RunsOrSaves};
ghost use Rattle.mpy_tool.specs.Order.{ChangesBy, runs_library, save_by};

use crate::below::{or_nothing, release};
use crate::outside::Outside;
use bc_library::Library;
use meant_commands::{Ready, place_of, run_loaded, run_ready, run_saving, source_ready};
use mpy_base::{NoMemory, Room};
use mpy_endings::{Ended, Ending, main_name, say_ending, word_at};
use mpy_io::{Folder, Port, Sink};
use mpy_words::{Command, Order};
use std::alloc::Global;

/// The library of the file of this name, an image over the library of a base, if one is ordered, or what keeps it from being run.
fn ready_below<F: Folder>(
    alloc: Global,
    below: Option<Library>,
    name: &str,
    main: &str,
    folder: &mut F,
) -> Result<Ready, Ending>
    requires { IfSome below IsOpened }
    ensures comes { RunLibrary (library_below below) main.now (F.files folder.old) name.now result }
    ensures there { IfOk result (λ ready. (m : Module) × IsMainAt ready.main ready.place m ready.library) }
    ensures holds { IfOk result (λ ready. HoldsModules ready.library) }
    ensures unloaded { IfErr result IsUnloaded }
    ensures counts { Counts (F.count folder.old) (F.count folder.new) (failed_in result) }
    ensures files { F.files folder.new ≡ F.files folder.old }
{
    match or_nothing(alloc, below) {
        Ok(below) => run_ready(alloc, &below, name, main, folder),
        Err(NoMemory) => Err(Ending::NoMemory),
    }
}

/// The library of the source, the file or the image that the words name, whichever is ordered, or what keeps it from being run.
fn library_of<F: Folder>(
    order: Order,
    alloc: Global,
    words: &[String],
    below: Option<Library>,
    folder: &mut F,
) -> Result<Ready, Ending>
    requires level { order.level ≤ 3 }
    requires runs { runs_library order.command ≡ true }
    requires below { MayLieBelow below order.base }
    ensures comes { let given = texts words.now in
        LibraryBy order given (library_below below) order.command (F.files folder.old) (first_name given) result }
    ensures there { IfOk result (λ ready. (m : Module) × IsMainAt ready.main ready.place m ready.library) }
    ensures holds { IfOk result (λ ready. HoldsModules ready.library) }
    ensures unloaded { IfErr result IsUnloaded }
    ensures counts { Counts (F.count folder.old) (F.count folder.new) (failed_in result) }
    ensures files { F.files folder.new ≡ F.files folder.old }
{
    let name = word_at(words, 1);
    match order.command {
        Command::Go => {
            release(below);
            source_ready(alloc, order.level, name, folder)
        }
        Command::Run => {
            let main = main_name(words, order.main_name);
            ready_below(alloc, below, name, main, folder)
        }
        Command::Check | Command::CheckAs | Command::Dump => unreachable!(),
        Command::Cross | Command::Merge => unreachable!(),
        Command::Freeze | Command::Migrate | Command::Resume => unreachable!(),
        Command::Board | Command::Stress => unreachable!(),
    }
}

/// The place of the name of the file that a run saves to, of a command that may save.
fn save_place(order: Order) -> Option<usize>
    ensures { result ≡ save_by order.command order.save }
{
    match order.command {
        Command::Run | Command::Resume => order.save,
        Command::Go | Command::Check | Command::CheckAs | Command::Dump => None,
        Command::Cross | Command::Merge | Command::Freeze => None,
        Command::Migrate | Command::Board | Command::Stress => None,
    }
}

/// Runs what was loaded, saves its state where it takes all its steps and a file for that is named, and answers how that ended.
fn run_to<F: Folder, S: Sink, P: Port, E: Sink>(
    order: Order,
    save: Option<usize>,
    loaded: Result<Ready, Ending>,
    alloc: Global,
    words: &[String],
    outside: &mut Outside<F, S, P, E>,
) -> Ended
    requires there { IfOk loaded (λ ready. (m : Module) × IsMainAt ready.main ready.place m ready.library) }
    requires holds { IfOk loaded (λ ready. HoldsModules ready.library) }
    requires unloaded { IfErr loaded IsUnloaded }
    ensures went { (said : List ℕ)
        × RunsTo (saved_name (texts words.now) save) (λ ready. ready ≡ loaded) (room_of order) order.steps
        (sight S.told P.seen outside.old.out outside.old.ports) (sight S.told P.seen outside.new.out outside.new.ports)
        said (F.files outside.old.folder) (F.files outside.new.folder) result.ending
        × Says (E.told outside.old.say) (E.told outside.new.say) (E.count outside.old.say) (E.count outside.new.say) said }
    ensures place { result.place ≡ place_to save result.ending }
    ensures flushed { IsRunStatus (status_of result.ending) → S.held outside.new.out ≡ [] }
    ensures handed_on { result.ending ≡ Stopped Unsaved → S.held outside.new.out ≡ [] }
    ensures silent { is_said result.ending ≡ false → outside.new.say ≡ outside.old.say }
    ensures unwritten { Counts (F.count outside.old.folder) (F.count outside.new.folder) (is_unwritten result.ending) }
    ensures folder { (failed_in loaded || is_unwritten result.ending) ≡ is_folder_fault result.ending }
    ensures out_counts { Counts (S.count outside.old.out) (S.count outside.new.out) (is_out_fault result.ending) }
{
    let room = Room {
        cells: order.cells,
        bytes: order.bytes,
    };
    match save {
        Some(at) => {
            let ending = run_saving(
                alloc,
                loaded,
                room,
                order.steps,
                word_at(words, at),
                &mut outside.folder,
                &mut outside.out,
                &mut outside.ports,
                &mut outside.say,
            );
            let place = place_of(save, &ending);
            Ended { ending, place }
        }
        None => Ended {
            ending: run_loaded(
                alloc,
                loaded,
                room,
                order.steps,
                &mut outside.out,
                &mut outside.ports,
                &mut outside.say,
            ),
            place: 1,
        },
    }
}

/// Runs the library that is ordered, over the library of a base, if one is ordered, says how that ended, and answers the exit status.
pub(crate) fn run_order<F: Folder, S: Sink, P: Port, E: Sink>(
    order: Order,
    alloc: Global,
    words: &[String],
    below: Option<Library>,
    outside: &mut Outside<F, S, P, E>,
) -> u8
    requires level { order.level ≤ 3 }
    requires runs { runs_library order.command ≡ true }
    requires below { MayLieBelow below order.base }
    ensures ended { let call = call_of F.Folder S.Sink P.Port E.Sink words.now outside.old outside.new result in
        RunsOrSaves order call (library_below below) order.command }
    ensures flushed { IsRunStatus result → S.held outside.new.out ≡ [] }
    ensures handed_on { result ≡ 13 → S.held outside.new.out ≡ [] }
    ensures files { ChangesBy (texts words.now) order.save order.command (F.files outside.old.folder) (F.files outside.new.folder) }
{
    let save = save_place(order);
    let loaded = library_of(order, alloc, words, below, &mut outside.folder);
    let ended = run_to(order, save, loaded, alloc, words, outside);
    let name = word_at(words, ended.place);
    let _ = say_ending(&mut outside.say, name, &ended.ending);
    ended.ending.status()
}
