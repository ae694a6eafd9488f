//! The plan of a file.

ghost use Rattle.std.specs.Prelude.{◌≡◌, IfErr, IfOk};
ghost use Rattle.mpy_io.specs.Count.{Counts};
ghost use Rattle.board_files.specs.Summaries.{CanRun};
ghost use Rattle.command_files.specs.Opened.{failed_in};
ghost use Rattle.board_command.specs.Plans.{HoldsPlan, RefusesPlan};

use board_plan::{Plan, PlanFault, plan_law, read_plan};
use command_files::{BoardFault, Ending};
use mpy_base::Refused;
use mpy_io::{Folder, ReadFault};
use std::alloc::Global;

/// The plan of the file of this name, or what keeps it from being one.
pub(crate) fn planned<F: Folder>(alloc: Global, name: &str, folder: &mut F) -> Result<Plan, Ending>
    ensures holds { IfOk result (HoldsPlan (F.files folder.old) name.now) }
    ensures can_run { IfOk result CanRun }
    ensures refused { IfErr result (RefusesPlan (F.files folder.old) name.now) }
    ensures counts { Counts (F.count folder.old) (F.count folder.new) (failed_in result) }
    ensures files { F.files folder.new ≡ F.files folder.old }
{
    plan_law();
    let bytes = match folder.read(alloc, name) {
        Ok(bytes) => bytes,
        Err(ReadFault::Absent) => return Err(Ending::Absent),
        Err(ReadFault::TooLong) => {
            return Err(Ending::Unboarded(BoardFault::Plan(PlanFault::BadLine(1))));
        }
        Err(ReadFault::Failed) => return Err(Ending::ReadFault),
        Err(ReadFault::NoMemory) => return Err(Ending::NoMemory),
    };
    match read_plan(alloc, &bytes) {
        Ok(plan) => Ok(plan),
        Err(Refused::Fault(fault)) => Err(Ending::Unboarded(BoardFault::Plan(fault))),
        Err(Refused::NoMemory) => Err(Ending::NoMemory),
    }
}
