//! The command `board`: image and plan are read, the tasks run by turns, and the summary is put.

ghost use Rattle.std.specs.Prelude.{◌≡◌, []};
ghost use Rattle.mpy_base.specs.declared.limits.TheConstants.{MAX_TASKS};
ghost use Rattle.mpy_io.specs.Count.{Counts};
ghost use Rattle.meant_files.specs.image_open.image_grammar.Base.{IsOpened};
ghost use Rattle.board_files.specs.Files.{KeepsOthers};
ghost use Rattle.command_files.specs.mpy_endings.declared.ending.Ending.TheVariants.{Done};
ghost use Rattle.command_files.specs.mpy_endings.Ending.{is_folder_fault, is_out_fault};
ghost use Rattle.board_command.specs.Boards.{Boards};
ghost use Rattle.board_command.specs.Ends as spec;

use crate::plan::planned;
use bc_library::{Library, modules_law};
use board_files::{BoardStop, run_board};
use command_files::{BoardFault, Ended, Ending, open_image_file};
use mpy_io::{Folder, Sink};
use std::alloc::Global;

/// The place of the image's name among the words of the command.
const IMAGE: usize = 1;

/// The place of the plan's name among the words of the command.
const PLAN: usize = 2;

/// How the command ends whose plan was run, or wasn't.
fn ending_of(ran: Result<(), BoardStop>) -> Ended
    ensures ending { result.ending ≡ spec.ending_of ran }
    ensures place { result.place ≡ 2 }
{
    let ending = match ran {
        Ok(()) => Ending::Done,
        Err(BoardStop::NoModule(name)) => Ending::Unboarded(BoardFault::NoModule(name)),
        Err(BoardStop::Unwritten(task)) => Ending::Unboarded(BoardFault::Unwritten(task)),
        Err(BoardStop::WriteFault) => Ending::WriteFault,
        Err(BoardStop::NoMemory) => Ending::NoMemory,
    };
    Ended {
        ending,
        place: PLAN,
    }
}

/// Runs the tasks of the plan of this name by turns on the image of this name, which is opened over the library below.
/// The output of the task with the number N goes to the file `N.out`, and a line for each task to `out` at the end.
pub fn board<F: Folder, S: Sink>(
    alloc: Global,
    below: &Library,
    image: &str,
    plan: &str,
    folder: &mut F,
    out: &mut S,
) -> Ended
    requires { IsOpened below.now }
    ensures went { Boards below.now image.now plan.now (F.files folder.old) (F.files folder.new) (S.told out.old) (S.told out.new)
        result.place result.ending }
    ensures flushed { result.ending ≡ Done → S.held out.new ≡ [] }
    ensures files { KeepsOthers MAX_TASKS (F.files folder.old) (F.files folder.new) }
    ensures folder_counts { Counts (F.count folder.old) (F.count folder.new) (is_folder_fault result.ending) }
    ensures out_counts { Counts (S.count out.old) (S.count out.new) (is_out_fault result.ending) }
{
    let library = match open_image_file(alloc, below, image, folder) {
        Ok(library) => library,
        Err(ending) => {
            return Ended {
                ending,
                place: IMAGE,
            };
        }
    };
    modules_law(&library);
    let plan = match planned(alloc, plan, folder) {
        Ok(plan) => plan,
        Err(ending) => {
            return Ended {
                ending,
                place: PLAN,
            };
        }
    };
    ending_of(run_board(alloc, &library, &plan, folder, out))
}
