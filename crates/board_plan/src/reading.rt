//! A plan read from the lines of a text, up to the first line that is none.

ghost use Rattle.std.specs.Prelude.{◌≡◌, ◌++◌, ◌∷◌, [], ℕ, List, IfOk, OnOk, Err, Some};
ghost use Rattle.mpy_base.specs.declared.refused.Refused.TheVariants as refused;
ghost use Rattle.board_plan.specs.Lines as spec;
ghost use Rattle.board_plan.specs.declared.line.Line.TheVariants as lines;
ghost use Rattle.board_plan.specs.Plans.{IsPlan, Breaks, HasFault};

use crate::line::{Line, line_of};
use crate::plan::{Plan, PlanFault, Task, Turn};
use crate::words::next_line;
use mpy_base::limits::MAX_TASKS;
use mpy_base::{Items, Refused};
use std::alloc::Global;

/// The plan of no lines.
fn empty_plan(alloc: Global) -> Plan
    ensures { IsPlan [] result }
{
    Plan {
        tasks: Items::new(alloc),
        turns: Items::new(alloc),
    }
}

/// The plan with a task more, which the line of this number says.
#[tactic(auto, using(crate::proofs::Grows::with_task))]
fn add_task(plan: &mut Plan, number: usize, task: Task) -> Result<(), Refused<PlanFault>>
    ensures ok { OnOk result ((text : List (List ℕ)) (line : List ℕ) → spec.line_of line ≡ Some (lines.Task task)
        → IsPlan text plan.old → IsPlan (text ++ line ∷ []) plan.new) }
    ensures fault { (fault : PlanFault) → result ≡ Err (refused.Fault fault) → Breaks plan.old number (Some (lines.Task task)) fault }
{
    if !plan.turns.is_empty() {
        return Err(Refused::Fault(PlanFault::BadLine(number)));
    }
    if plan.tasks.len() >= MAX_TASKS {
        return Err(Refused::Fault(PlanFault::TooMany));
    }
    plan.tasks.push(task)?;
    Ok(())
}

/// The plan with a turn more.
#[tactic(auto, using(crate::proofs::Grows::with_turn))]
fn add_turn(plan: &mut Plan, number: usize, turn: Turn) -> Result<(), Refused<PlanFault>>
    ensures ok { OnOk result ((text : List (List ℕ)) (line : List ℕ) → spec.line_of line ≡ Some (lines.Turn turn)
        → IsPlan text plan.old → IsPlan (text ++ line ∷ []) plan.new) }
    ensures fault { (fault : PlanFault) → result ≡ Err (refused.Fault fault) → Breaks plan.old number (Some (lines.Turn turn)) fault }
{
    if turn.task as usize >= plan.tasks.len() {
        return Err(Refused::Fault(PlanFault::NoTask(number)));
    }
    plan.turns.push(turn)?;
    Ok(())
}

/// The plan with a line more, the one of this number.
fn add_line(
    alloc: Global,
    plan: &mut Plan,
    number: usize,
    line: &[u8],
) -> Result<(), Refused<PlanFault>>
    ensures ok { OnOk result ((text : List (List ℕ)) → IsPlan text plan.old → IsPlan (text ++ line.now ∷ []) plan.new) }
    ensures fault { (fault : PlanFault) → result ≡ Err (refused.Fault fault) → Breaks plan.old number (spec.line_of line.now) fault }
{
    match line_of(alloc, line)? {
        Some(Line::Task(task)) => add_task(plan, number, task),
        Some(Line::Turn(turn)) => add_turn(plan, number, turn),
        None => Err(Refused::Fault(PlanFault::BadLine(number))),
    }
}

/// The plan that a text is, or the first fault of its lines.
pub fn read_plan(alloc: Global, text: &[u8]) -> Result<Plan, Refused<PlanFault>>
    ensures plan { IfOk result (IsPlan (spec.lines_of text.now)) }
    ensures fault { (fault : PlanFault) → result ≡ Err (refused.Fault fault) → HasFault (spec.lines_of text.now) fault }
{
    let mut plan = empty_plan(alloc);
    let mut rest = text;
    let mut number = 0;
    'more: while !rest.is_empty() {
        let (line, behind) = next_line(rest);
        number += 1;
        add_line(alloc, &mut plan, number, line)?;
        rest = behind;
    }
    Ok(plan)
}
