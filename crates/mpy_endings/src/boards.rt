//! What is said of boards.

ghost use Rattle.std.specs.Prelude.{◌≡◌, ◌++◌, codes, decimal};
ghost use Rattle.mpy_endings.specs.Line as spec;
ghost use Rattle.mpy_endings.specs.Line.{Puts, plan_line, board_line};

use crate::ending::BoardFault;
use crate::line::put_place;
use crate::put::{put, put_head, put_three, put_two};
use board_plan::PlanFault;
use itoa::Buffer;
use mpy_io::{Failed, Sink};

/// What is said of the fault of a plan.
fn plan_text(fault: PlanFault) -> &'static [u8]
    ensures { result.now ≡ spec.plan_text fault }
{
    match fault {
        PlanFault::BadLine(_) => b"1 BadLine",
        PlanFault::NoTask(_) => b"2 NoTask",
        PlanFault::TooMany => b"3 TooMany",
    }
}

/// The number of the line that it tells.
fn plan_number(fault: PlanFault) -> Option<usize>
    ensures { result ≡ spec.plan_number fault }
{
    match fault {
        PlanFault::BadLine(line) | PlanFault::NoTask(line) => Some(line),
        PlanFault::TooMany => None,
    }
}

/// Says why the text of this name is no plan.
fn say_plan<E: Sink>(say: &mut E, name: &str, fault: PlanFault) -> Result<(), Failed>
    ensures { Puts (E.told say.old) (E.told say.new) (E.count say.old) (E.count say.new) (plan_line name.now fault) result }
{
    put_head(say, name, b": board ")?;
    put(say, plan_text(fault))?;
    put_place(say, plan_number(fault))?;
    put(say, b"\n")
}

/// Says which module isn't there, of a task of the plan of this name.
fn say_missing<E: Sink>(say: &mut E, name: &str, missing: &[u8]) -> Result<(), Failed>
    ensures { Puts (E.told say.old) (E.told say.new) (E.count say.old) (E.count say.new)
        ((codes "mpy: " ++ name.now ++ codes ": board 4 NoModule ") ++ (missing.now ++ codes "\n")) result }
{
    put_head(say, name, b": board 4 NoModule ")?;
    put_two(say, missing, b"\n")
}

/// Says which task's output wasn't written.
fn say_output<E: Sink>(say: &mut E, task: u32) -> Result<(), Failed>
    ensures { Puts (E.told say.old) (E.told say.new) (E.count say.old) (E.count say.new)
        (codes "mpy: write fault " ++ decimal task ++ codes ".out\n") result }
{
    let mut digits = Buffer::new();
    put_three(
        say,
        b"mpy: write fault ",
        digits.format(task).as_bytes(),
        b".out\n",
    )
}

/// Says why the plan of this name wasn't run.
pub(crate) fn say_board<E: Sink>(say: &mut E, name: &str, fault: &BoardFault) -> Result<(), Failed>
    ensures { Puts (E.told say.old) (E.told say.new) (E.count say.old) (E.count say.new) (board_line name.now fault.now) result }
{
    match fault {
        BoardFault::Plan(fault) => say_plan(say, name, *fault),
        BoardFault::NoModule(missing) => say_missing(say, name, missing.bytes()),
        BoardFault::Unwritten(task) => say_output(say, *task),
    }
}
