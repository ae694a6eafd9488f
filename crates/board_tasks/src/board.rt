//! A board: the runs of all tasks side by side, of which a turn moves one. All memory is taken when it is opened.

ghost use Rattle.std.specs.Prelude.{◌≡◌, ℕ, ◌<◌, ◌≤◌, List, IfOk, OnOk, Err, None, Some, length, slice_get};
ghost use Rattle.mpy_base.specs.declared.limits.TheConstants.{MAX_TASKS};
ghost use Rattle.mpy_base.specs.declared.refused.Refused.TheVariants as refused;
ghost use Rattle.mpy_io.specs.Count.{Counts};
ghost use Rattle.bc_library.specs.Shelf.{Shelf};
ghost use Rattle.vm_machine.specs.vm_starting.Kept.{AreFetched};
ghost use Rattle.board_tasks.specs.declared.turning.TaskRun.{TaskRun};
ghost use Rattle.board_tasks.specs.Opened.{AreOpened, first_missing};
ghost use Rattle.board_tasks.specs.Ends.{HasEnd, IsRoomOf, is_write_fault};
ghost use Rattle.board_tasks.specs.Turns.{AreRuns, IsCountable, TurnsOne};

use crate::ending::{TaskEnd, TurnEnd};
use crate::opening::{BoardFault, first_missing, open_tasks};
use crate::turning::TaskRun;
use bc_library::Library;
use bc_rows::Rows;
use board_plan::Task;
use mpy_base::limits::MAX_TASKS;
use mpy_base::{Refused, Room, Text};
use mpy_io::Sink;
use std::alloc::Global;
use std::marker::Model;
use vm_machine::Cache;

/// The runs of tasks on one library, each with an arena, frames and modules of its own and without ports. All its memory is taken
/// where it is opened.
#[derive(Drop)]
pub struct Board {
    alloc: Global,
    runs: Vec<TaskRun>,
}

impl Model for Board {
    ghost use Rattle.std.specs.Prelude.{List};
    ghost use Rattle.board_tasks.specs.declared.turning.TaskRun.{TaskRun};

    ghost Value = { List TaskRun };

    ghost view = { λ b. b.runs.items };
}

impl Board {
    /// The tasks at their start.
    pub fn open(
        alloc: Global,
        library: &Library,
        rows: &Rows<'_>,
        tasks: &[Task],
    ) -> Result<Board, Refused<BoardFault>>
        requires { rows.now ≡ library.now }
        ensures opened { IfOk result (AreOpened library.now tasks.now) }
        ensures few { OnOk result (length tasks.now ≤ MAX_TASKS) }
        ensures too_many { result ≡ Err (refused.Fault BoardFault.TooMany) → MAX_TASKS < length tasks.now }
        ensures missing { (name : List ℕ) → result ≡ Err (refused.Fault (BoardFault.NoModule name))
            → first_missing library.now tasks.now ≡ Some name }
        ensures all_there { OnOk result (first_missing library.now tasks.now ≡ None) }
    {
        if tasks.len() > MAX_TASKS {
            return Err(Refused::Fault(BoardFault::TooMany));
        }
        if let Some(task) = first_missing(library, tasks) {
            let name = Text::new(alloc, task.module.bytes())?;
            return Err(Refused::Fault(BoardFault::NoModule(name)));
        }
        let runs = open_tasks(alloc, library, rows, tasks)?;
        Ok(Board { alloc, runs })
    }

    /// How many tasks there are.
    pub fn len(&self) -> usize
        ensures { result ≡ length self.now }
    {
        self.runs.len()
    }

    /// A turn of these steps for a task, which puts what they print. A turn of a task that has ended does nothing. It takes no memory.
    /// One cache of the library serves all tasks: what a task fetched isn't fetched again by another.
    pub fn turn<S: Sink>(
        &mut self,
        library: &Library,
        rows: &Rows<'_>,
        cache: &mut Cache,
        task: u32,
        steps: u64,
        out: &mut S,
    ) -> TurnEnd
        requires runs { AreRuns library.now self.old }
        requires rows { rows.now ≡ library.now }
        requires there { task < length self.old }
        requires countable { IsCountable self.old task steps }
        requires kept { AreFetched library.now cache.old }
        ensures runs { AreRuns library.now self.new }
        ensures turns { TurnsOne library.now task steps self.old self.new (S.told out.old) (S.told out.new) result }
        ensures over { result ≡ TurnEnd.Over → (self.new ≡ self.old) × (out.new ≡ out.old) }
        ensures counts { Counts (S.count out.old) (S.count out.new) (is_write_fault result) }
        ensures kept { AreFetched library.now cache.new }
    {
        let alloc = self.alloc;
        self.runs[task as usize].turn(alloc, library, rows, cache, steps, out)
    }

    /// How a task ended, None where it goes on.
    pub fn end(&self, task: u32) -> Option<TaskEnd>
        requires runs { (shelf : Shelf) × AreRuns shelf self.now }
        requires there { task < length self.now }
        ensures { (run : TaskRun) → slice_get self.now task ≡ Some run → HasEnd run result }
    {
        self.runs[task as usize].end()
    }

    /// The room that a task's objects use.
    pub fn used(&self, task: u32) -> Room
        requires { task < length self.now }
        ensures { (run : TaskRun) → slice_get self.now task ≡ Some run → IsRoomOf run result }
    {
        vm_machine::used(&self.runs[task as usize].vm)
    }
}
