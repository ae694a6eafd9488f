//! The lines of a plan.

ghost use Rattle.std.specs.Prelude.{◌≡◌, Some, IfOk, option_map};
ghost use Rattle.board_plan.specs.Lines as spec;

use crate::plan::{Task, Turn};
use crate::words::{next_word, two_words};
use mpy_base::{NoMemory, Room, Text};
use mpy_words::number::number;
use mpy_words::{MAX_BYTES, MAX_CELLS, MAX_STEPS};
use std::alloc::Global;

/// What a line of a plan says.
#[derive(Debug, Drop)]
pub enum Line {
    /// `task MODULE CELLS BYTES`
    Task(Task),
    /// `turn TASK STEPS`
    Turn(Turn),
}

/// The greatest number of a task.
const MAX_TASK: u64 = 4_294_967_295;

/// The room that two words are, within the bounds of the options of a run.
fn room_of(cells: &[u8], bytes: &[u8]) -> Option<Room>
    ensures { result ≡ spec.room_of cells.now bytes.now }
{
    let cells = number(MAX_CELLS, cells)?;
    let bytes = number(MAX_BYTES, bytes)?;
    Some(Room {
        cells: cells as u32,
        bytes: bytes as u32,
    })
}

/// The task that the words behind `task` are.
#[tactic(auto, using(crate::proofs::Parts::no_task))]
fn task_of(alloc: Global, words: &[u8]) -> Result<Option<Task>, NoMemory>
    ensures { IfOk result (λ task. task ≡ spec.task_by (spec.words_of words.now)) }
{
    let (name, Some(rest)) = next_word(words) else {
        return Ok(None);
    };
    let Some((cells, bytes)) = two_words(rest) else {
        return Ok(None);
    };
    if name.is_empty() {
        return Ok(None);
    }
    let Some(room) = room_of(cells, bytes) else {
        return Ok(None);
    };
    Ok(Some(Task {
        module: Text::new(alloc, name)?,
        room,
    }))
}

/// The turn that the words behind `turn` are.
#[tactic(auto, using(crate::proofs::Parts::no_turn))]
fn turn_of(words: &[u8]) -> Option<Turn>
    ensures { result ≡ spec.turn_by (spec.words_of words.now) }
{
    let Some((task, steps)) = two_words(words) else {
        return None;
    };
    let task = number(MAX_TASK, task)?;
    let steps = number(MAX_STEPS, steps)?;
    Some(Turn {
        task: task as u32,
        steps,
    })
}

/// What a line says, None where it is no line of a plan.
pub(crate) fn line_of(alloc: Global, line: &[u8]) -> Result<Option<Line>, NoMemory>
    ensures { IfOk result (λ found. found ≡ spec.line_of line.now) }
{
    let (first, Some(rest)) = next_word(line) else {
        return Ok(None);
    };
    if first == b"task".as_slice() {
        return match task_of(alloc, rest)? {
            Some(task) => Ok(Some(Line::Task(task))),
            None => Ok(None),
        };
    }
    if first == b"turn".as_slice() {
        return match turn_of(rest) {
            Some(turn) => Ok(Some(Line::Turn(turn))),
            None => Ok(None),
        };
    }
    Ok(None)
}
