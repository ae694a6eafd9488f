//! Tasks that are opened.

ghost use Rattle.std.specs.Prelude.{◌≡◌, IfOk, IsSome, None, option_map};
ghost use Rattle.board_tasks.specs.Opened.{AreOpened, IsOpened, first_missing, number_of};

use crate::turning::TaskRun;
use bc_library::{Library, Member};
use bc_rows::Rows;
use board_plan::Task;
use mpy_base::{NoMemory, Text};
use std::alloc::Global;
use vm_machine::{open, program_law};

/// Why tasks have no board.
#[derive(Debug, Drop)]
pub enum BoardFault {
    /// There are more tasks than a board has.
    TooMany,
    /// The library lacks or refuses this module, which a task is to run.
    NoModule(Text),
}

/// The number of the library's module of this name, which isn't refused.
fn number_of(library: &Library, name: &[u8]) -> Option<u32>
    ensures { result ≡ number_of library.now name.now }
{
    match library.find(name) {
        Some(Member::Module(number)) => Some(number),
        Some(Member::Refused) => None,
        None => None,
    }
}

/// The first of the tasks whose module the library lacks or refuses.
pub(crate) fn first_missing<'a>(library: &Library, tasks: &'a [Task]) -> Option<&'a Task>
    ensures { option_map (λ task. task.now.«module») result ≡ first_missing library.now tasks.now }
{
    for task in tasks {
        if number_of(library, task.module.bytes()).is_none() {
            return Some(task);
        }
    }
    None
}

/// The run of one task, at its start: its module, in an arena of its own.
fn open_task(
    alloc: Global,
    library: &Library,
    rows: &Rows<'_>,
    task: &Task,
) -> Result<TaskRun, NoMemory>
    requires rows { rows.now ≡ library.now }
    requires there { IsSome (number_of library.now task.now.«module») }
    ensures { IfOk result (IsOpened library.now task.now) }
{
    program_law();
    let Some(number) = number_of(library, task.module.bytes()) else {
        unreachable!();
    };
    let vm = open(alloc, library, rows, number, task.room)?;
    Ok(TaskRun { vm, failed: false })
}

/// The runs of these tasks, at their start. They take all their memory here.
pub(crate) fn open_tasks(
    alloc: Global,
    library: &Library,
    rows: &Rows<'_>,
    tasks: &[Task],
) -> Result<Vec<TaskRun>, NoMemory>
    requires rows { rows.now ≡ library.now }
    requires there { first_missing library.now tasks.now ≡ None }
    ensures { IfOk result (λ runs. AreOpened library.now tasks.now runs.items) }
{
    let mut runs = Vec::new(alloc);
    for task in tasks {
        runs.push(open_task(alloc, library, rows, task)?)?;
    }
    Ok(runs)
}
