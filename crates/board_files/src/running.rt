//! Runs of plans: the tasks by turns, a file for the output of each, and the summary behind all turns.

ghost use Rattle.std.specs.Prelude.{◌≡◌, ◌<◌, ◌≤◌, ℕ, List, [], Err, None, Some, IfErr, IfOk, OnOk, length};
ghost use Rattle.mpy_base.specs.declared.limits.TheConstants.{MAX_TASKS};
ghost use Rattle.mpy_io.specs.Count.{Counts};
ghost use Rattle.board_tasks.specs.vm_starting.Kept.{AreFetched};
ghost use Rattle.board_tasks.specs.vm_starting.vm_states.Means.{Program};
ghost use Rattle.board_tasks.specs.vm_starting.Programs.{IsProgramOf};
ghost use Rattle.board_tasks.specs.Opened.{AreOpened, first_missing};
ghost use Rattle.board_tasks.specs.Turns.{AreRuns};
ghost use Rattle.board_files.specs.Files.{KeepsOthers, StopsWithin, cut_of, is_folder_fault, is_out_fault, is_unwritten};
ghost use Rattle.board_files.specs.Stopped.{HasStoppedIn};
ghost use Rattle.board_files.specs.Summaries.{CanRun, HasRunFrontIn, HasRunIn};
ghost use Rattle.board_files.specs.Written.{Written};

use crate::files::begin_files;
use crate::stop::{BoardStop, OutputStop, SummaryStop};
use crate::summary::summarize;
use crate::turns::make_turns;
use bc_library::Library;
use bc_rows::Rows;
use board_plan::{Plan, Task};
use board_tasks::{Board, BoardFault, Cache, stands_law};
use mpy_base::{NoMemory, Refused};
use mpy_io::{Folder, Sink};
use std::alloc::Global;

/// The board of a plan's tasks.
fn open_board(
    alloc: Global,
    library: &Library,
    rows: &Rows<'_>,
    tasks: &[Task],
) -> Result<Board, BoardStop>
    requires rows { rows.now ≡ library.now }
    requires few { length tasks.now ≤ MAX_TASKS }
    ensures opened { IfOk result (AreOpened library.now tasks.now) }
    ensures all_there { OnOk result (first_missing library.now tasks.now ≡ None) }
    ensures missing { (name : List ℕ) → result ≡ Err (BoardStop.NoModule name) → first_missing library.now tasks.now ≡ Some name }
    ensures unwritten { (task : ℕ) → result ≡ Err (BoardStop.Unwritten task) → ⊥ }
    ensures unput { result ≡ Err BoardStop.WriteFault → ⊥ }
{
    match Board::open(alloc, library, rows, tasks) {
        Ok(board) => Ok(board),
        Err(Refused::Fault(BoardFault::NoModule(name))) => Err(BoardStop::NoModule(name)),
        Err(Refused::Fault(BoardFault::TooMany)) => unreachable!(),
        Err(Refused::NoMemory) => Err(BoardStop::NoMemory),
    }
}

/// Writes the files of the tasks' output empty, and makes their turns.
fn write_output<F: Folder>(
    alloc: Global,
    library: &Library,
    rows: &Rows<'_>,
    cache: &mut Cache,
    plan: &Plan,
    board: &mut Board,
    folder: &mut F,
) -> Result<(), OutputStop>
    requires opened { AreOpened library.now plan.now.tasks board.old }
    requires rows { rows.now ≡ library.now }
    requires kept { AreFetched library.now cache.old }
    requires can_run { CanRun plan.now }
    ensures written { OnOk result ((p : Program) → IsProgramOf library.now p
        → Written p plan.now board.old board.new (F.files folder.old) (F.files folder.new)) }
    ensures stopped { IfErr result (λ stop. (p : Program) → IsProgramOf library.now p
        → HasStoppedIn p plan.now (cut_of stop) (F.files folder.old) (F.files folder.new)) }
    ensures runs { AreRuns library.now board.new }
    ensures few { length board.new ≤ MAX_TASKS }
    ensures others { KeepsOthers (length plan.now.tasks) (F.files folder.old) (F.files folder.new) }
    ensures within { StopsWithin (length plan.now.tasks) result }
    ensures counts { Counts (F.count folder.old) (F.count folder.new) (is_unwritten result) }
{
    stands_law();
    let count = plan.tasks.len() as u32;
    match begin_files(alloc, count, folder) {
        Ok(()) => make_turns(
            alloc,
            board,
            library,
            rows,
            cache,
            plan.turns.as_slice(),
            folder,
        ),
        Err(stop) => Err(stop),
    }
}

/// Runs the turns of an opened board.
fn run_turns<F: Folder, S: Sink>(
    alloc: Global,
    library: &Library,
    rows: &Rows<'_>,
    cache: &mut Cache,
    plan: &Plan,
    board: &mut Board,
    folder: &mut F,
    out: &mut S,
) -> Result<(), BoardStop>
    requires opened { AreOpened library.now plan.now.tasks board.old }
    requires rows { rows.now ≡ library.now }
    requires kept { AreFetched library.now cache.old }
    requires can_run { CanRun plan.now }
    ensures ran { OnOk result ((p : Program) → IsProgramOf library.now p
        → HasRunIn p plan.now (F.files folder.old) (F.files folder.new) (S.told out.old) (S.told out.new)) }
    ensures flushed { OnOk result (S.held out.new ≡ []) }
    ensures there { (name : List ℕ) → result ≡ Err (BoardStop.NoModule name) → ⊥ }
    ensures unwritten { (task : ℕ) → result ≡ Err (BoardStop.Unwritten task) → (task < length plan.now.tasks) × (out.new ≡ out.old) }
    ensures cut { (task : ℕ) → result ≡ Err (BoardStop.Unwritten task) → (p : Program) → IsProgramOf library.now p
        → HasStoppedIn p plan.now (Some task) (F.files folder.old) (F.files folder.new) }
    ensures unput { result ≡ Err BoardStop.WriteFault → (p : Program) → IsProgramOf library.now p
        → HasRunFrontIn p plan.now (F.files folder.old) (F.files folder.new) (S.told out.old) (S.told out.new) }
    ensures starved { result ≡ Err BoardStop.NoMemory → out.new ≡ out.old }
    ensures short { result ≡ Err BoardStop.NoMemory → (p : Program) → IsProgramOf library.now p
        → HasStoppedIn p plan.now None (F.files folder.old) (F.files folder.new) }
    ensures others { KeepsOthers (length plan.now.tasks) (F.files folder.old) (F.files folder.new) }
    ensures folder_counts { Counts (F.count folder.old) (F.count folder.new) (is_folder_fault result) }
    ensures out_counts { Counts (S.count out.old) (S.count out.new) (is_out_fault result) }
{
    stands_law();
    match write_output(alloc, library, rows, cache, plan, board, folder) {
        Ok(()) => match summarize(alloc, board, out) {
            Ok(()) => Ok(()),
            Err(SummaryStop::WriteFault) => Err(BoardStop::WriteFault),
            Err(SummaryStop::NoMemory) => Err(BoardStop::NoMemory),
        },
        Err(OutputStop::Unwritten(task)) => Err(BoardStop::Unwritten(task)),
        Err(OutputStop::NoMemory) => Err(BoardStop::NoMemory),
    }
}

/// Runs the tasks of a plan by their turns, each alone in an arena of its own. The output of the task with the number N goes to the
/// file `N.out`, which is written empty first, and a line for each task to `out` at the end.
pub fn run_board<F: Folder, S: Sink>(
    alloc: Global,
    library: &Library,
    plan: &Plan,
    folder: &mut F,
    out: &mut S,
) -> Result<(), BoardStop>
    requires { CanRun plan.now }
    ensures ran { OnOk result ((p : Program) → IsProgramOf library.now p
        → HasRunIn p plan.now (F.files folder.old) (F.files folder.new) (S.told out.old) (S.told out.new)) }
    ensures flushed { OnOk result (S.held out.new ≡ []) }

    // A module is missing exactly where the library lacks or refuses it; then nothing was written.
    ensures missing { (name : List ℕ) → result ≡ Err (BoardStop.NoModule name)
        → (first_missing library.now plan.now.tasks ≡ Some name) × (folder.new ≡ folder.old) × (out.new ≡ out.old) }
    ensures all_there { OnOk result (first_missing library.now plan.now.tasks ≡ None) }

    // Where the folder fails to write the file of a task, or memory runs out, nothing was printed, and the file of each task has what the
    // task printed so far; that which wasn't written has a front of it. Where the sink fails, the tasks have run, and a front of the
    // summary was printed.
    ensures unwritten { (task : ℕ) → result ≡ Err (BoardStop.Unwritten task)
        → (task < length plan.now.tasks) × (first_missing library.now plan.now.tasks ≡ None) × (out.new ≡ out.old) }
    ensures cut { (task : ℕ) → result ≡ Err (BoardStop.Unwritten task) → (p : Program) → IsProgramOf library.now p
        → HasStoppedIn p plan.now (Some task) (F.files folder.old) (F.files folder.new) }
    ensures unput { result ≡ Err BoardStop.WriteFault → (first_missing library.now plan.now.tasks ≡ None)
        × ((p : Program) → IsProgramOf library.now p
        → HasRunFrontIn p plan.now (F.files folder.old) (F.files folder.new) (S.told out.old) (S.told out.new)) }
    ensures starved { result ≡ Err BoardStop.NoMemory → out.new ≡ out.old }
    ensures short { result ≡ Err BoardStop.NoMemory → (p : Program) → IsProgramOf library.now p
        → HasStoppedIn p plan.now None (F.files folder.old) (F.files folder.new) }

    ensures others { KeepsOthers (length plan.now.tasks) (F.files folder.old) (F.files folder.new) }
    ensures folder_counts { Counts (F.count folder.old) (F.count folder.new) (is_folder_fault result) }
    ensures out_counts { Counts (S.count out.old) (S.count out.new) (is_out_fault result) }
{
    let rows = match Rows::new(alloc, library) {
        Ok(rows) => rows,
        Err(NoMemory) => return Err(BoardStop::NoMemory),
    };
    let mut cache = match Cache::new(alloc, library, &rows) {
        Ok(cache) => cache,
        Err(NoMemory) => return Err(BoardStop::NoMemory),
    };
    match open_board(alloc, library, &rows, plan.tasks.as_slice()) {
        Ok(board) => {
            let mut board = board;
            run_turns(
                alloc, library, &rows, &mut cache, plan, &mut board, folder, out,
            )
        }
        Err(stop) => Err(stop),
    }
}
