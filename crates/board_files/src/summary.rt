//! The summary of a board.

ghost use Rattle.std.specs.Prelude.{◌≡◌, ◌<◌, ◌≤◌, ◌++◌, [], Err, IfOk, OnOk, OnErr, decimal, is_err, length};
ghost use Rattle.std.specs.Io.KnownBytes.{Appends};
ghost use Rattle.std.specs.List.{concat};
ghost use Rattle.mpy_base.specs.declared.limits.TheConstants.{MAX_TASKS};
ghost use Rattle.mpy_io.specs.Count.{Counts};
ghost use Rattle.mpy_io.specs.Told.{AppendsFront};
ghost use Rattle.board_tasks.specs.Turns.{AreRuns};
ghost use Rattle.board_tasks.specs.vm_starting.bc_library.Shelf.{Shelf};
ghost use Rattle.board_files.specs.Files.{is_unput};
ghost use Rattle.board_files.specs.Summaries as spec;
ghost use Rattle.board_files.specs.Lines.{PutsLines, TellRuns, TellsRun};

use crate::stop::SummaryStop;
use board_tasks::{Board, TaskEnd};
use itoa::Buffer;
use mpy_base::{NoMemory, Room, Text};
use mpy_io::{Failed, Sink};
use std::alloc::{AllocError, Global};

/// Adds how a task ended.
fn add_end(line: &mut Vec<u8>, end: Option<TaskEnd>) -> Result<(), AllocError>
    ensures { OnOk result (line.new.items ≡ line.old.items ++ spec.word_of end) }
{
    match end {
        None => line.extend_from_slice(b"open"),
        Some(TaskEnd::Ended) => line.extend_from_slice(b"ended"),
        Some(TaskEnd::Raised(kind)) => {
            line.extend_from_slice(b"raised ")?;
            line.extend_from_slice(kind.name().as_bytes())
        }
        Some(TaskEnd::Memory) => line.extend_from_slice(b"memory"),
        Some(TaskEnd::WriteFault) => line.extend_from_slice(b"unwritten"),
    }
}

/// Adds a number behind a text.
fn add_number(line: &mut Vec<u8>, text: &[u8], number: u32) -> Result<(), AllocError>
    ensures { OnOk result (line.new.items ≡ line.old.items ++ text.now ++ decimal number) }
{
    let mut digits = Buffer::new();
    line.extend_from_slice(text)?;
    line.extend_from_slice(digits.format(number).as_bytes())
}

/// The line of a task.
#[tactic(auto, unfolding(crate::specs::Summaries::task_line))]
fn task_line(
    alloc: Global,
    task: u32,
    end: Option<TaskEnd>,
    room: Room,
) -> Result<Vec<u8>, AllocError>
    ensures { IfOk result (λ line. line.items ≡ spec.task_line task end room) }
{
    let mut line = Vec::new(alloc);
    add_number(&mut line, b"task ", task)?;
    line.extend_from_slice(b" ")?;
    add_end(&mut line, end)?;
    add_number(&mut line, b" cells ", room.cells)?;
    add_number(&mut line, b" bytes ", room.bytes)?;
    line.extend_from_slice(b"\n")?;
    Ok(line)
}

/// The line of a task of a board.
fn line_of(alloc: Global, board: &Board, task: u32) -> Result<Text, NoMemory>
    requires runs { (shelf : Shelf) × AreRuns shelf board.now }
    requires there { task < length board.now }
    ensures { IfOk result (TellsRun board.now task) }
{
    let line = task_line(alloc, task, board.end(task), board.used(task))?;
    Text::new(alloc, &line)
}

/// The lines of all tasks.
fn summary_of(alloc: Global, board: &Board) -> Result<Vec<Text>, NoMemory>
    requires runs { (shelf : Shelf) × AreRuns shelf board.now }
    requires few { length board.now ≤ MAX_TASKS }
    ensures { IfOk result (λ lines. TellRuns board.now (length board.now) lines.items) }
{
    let mut lines = Vec::new(alloc);
    for task in 0..board.len() as u32 {
        lines.push(line_of(alloc, board, task)?)?;
    }
    Ok(lines)
}

/// Puts lines, and stops where a put fails.
fn put_lines<S: Sink>(lines: &[Text], out: &mut S) -> Result<(), Failed>
    ensures ok { OnOk result (Appends (S.told out.old) (S.told out.new) (concat lines.now)) }
    ensures err { OnErr result (AppendsFront (S.told out.old) (S.told out.new) (concat lines.now)) }
    ensures counts { Counts (S.count out.old) (S.count out.new) (is_err result) }
{
    let Some((line, rest)) = lines.split_first() else {
        return Ok(());
    };
    match out.put(line.bytes()) {
        Ok(()) => put_lines(rest, out),
        Err(Failed) => Err(Failed),
    }
}

/// Puts the lines of all tasks, and hands them on. All memory is taken before the first one is put.
pub(crate) fn summarize<S: Sink>(
    alloc: Global,
    board: &Board,
    out: &mut S,
) -> Result<(), SummaryStop>
    requires runs { (shelf : Shelf) × AreRuns shelf board.now }
    requires few { length board.now ≤ MAX_TASKS }
    ensures put { OnOk result (PutsLines Appends board.now (S.told out.old) (S.told out.new)) }
    ensures flushed { OnOk result (S.held out.new ≡ []) }
    ensures front { result ≡ Err SummaryStop.WriteFault → PutsLines AppendsFront board.now (S.told out.old) (S.told out.new) }
    ensures starved { result ≡ Err SummaryStop.NoMemory → out.new ≡ out.old }
    ensures counts { Counts (S.count out.old) (S.count out.new) (is_unput result) }
{
    let lines = match summary_of(alloc, board) {
        Ok(lines) => lines,
        Err(NoMemory) => return Err(SummaryStop::NoMemory),
    };
    match put_lines(&lines, out) {
        Ok(()) => match out.flush() {
            Ok(()) => Ok(()),
            Err(Failed) => Err(SummaryStop::WriteFault),
        },
        Err(Failed) => Err(SummaryStop::WriteFault),
    }
}
