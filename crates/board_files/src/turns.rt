//! Turns whose output goes to files.

ghost use Rattle.std.specs.Prelude.{◌≡◌, ◌+◌, ◌<◌, ◌≤◌, ◌^◌, ℕ, All, IfErr, OnOk, length};
ghost use Rattle.mpy_base.specs.declared.limits.TheConstants.{MAX_TASKS};
ghost use Rattle.mpy_io.specs.Count.{Counts};
ghost use Rattle.board_tasks.specs.vm_starting.Kept.{AreFetched};
ghost use Rattle.board_tasks.specs.vm_starting.vm_states.Means.{Program};
ghost use Rattle.board_tasks.specs.vm_starting.Programs.{IsProgramOf};
ghost use Rattle.board_plan.specs.Plans.{all_steps};
ghost use Rattle.board_tasks.specs.Turns.{AreRuns};
ghost use Rattle.board_files.specs.Files.{KeepsOthers, StopsWithin, cut_of, is_unwritten};
ghost use Rattle.board_files.specs.Runs.{Goes, GoesBy, PaidWithin, StopsBy, StopsIn};

use crate::files::append_output;
use crate::stop::OutputStop;
use bc_library::Library;
use bc_rows::Rows;
use board_plan::Turn;
use board_tasks::{Board, Cache, TurnEnd, stands_law};
use mpy_io::{Folder, MemSink};
use std::alloc::Global;

/// The steps that a task makes before its output goes to its file.
const PART_STEPS: u64 = 1_000_000;

/// A turn of these steps, whose output is appended to the task's file.
fn make_part<F: Folder>(
    alloc: Global,
    board: &mut Board,
    library: &Library,
    rows: &Rows<'_>,
    cache: &mut Cache,
    task: u32,
    steps: u64,
    folder: &mut F,
) -> Result<(), OutputStop>
    requires runs { AreRuns library.now board.old }
    requires rows { rows.now ≡ library.now }
    requires kept { AreFetched library.now cache.old }
    requires there { task < length board.old }
    requires few { length board.old ≤ MAX_TASKS }
    requires paid { (paid : ℕ) × PaidWithin board.old paid × (paid + steps < 2 ^ 64) }
    ensures runs { AreRuns library.now board.new }
    ensures kept { AreFetched library.now cache.new }
    ensures as_many { length board.new ≡ length board.old }
    ensures paid { (paid : ℕ) → PaidWithin board.old paid → PaidWithin board.new (paid + steps) }
    ensures goes { OnOk result ((p : Program) → IsProgramOf library.now p → Goes p task steps board.old board.new (F.files folder.old) (F.files folder.new)) }
    ensures stopped { IfErr result (λ stop. (p : Program) → IsProgramOf library.now p
        → StopsIn p task steps (cut_of stop) board.old (F.files folder.old) (F.files folder.new)) }
    ensures others { KeepsOthers (length board.old) (F.files folder.old) (F.files folder.new) }
    ensures within { StopsWithin (length board.old) result }
    ensures counts { Counts (F.count folder.old) (F.count folder.new) (is_unwritten result) }
{
    stands_law();
    let count = board.len() as u32;
    let mut out = MemSink::new(alloc, Vec::new(alloc));
    match board.turn(library, rows, cache, task, steps, &mut out) {
        TurnEnd::Went => append_output(alloc, task, count, out.bytes(), folder),
        TurnEnd::Over => Ok(()),
        TurnEnd::WriteFault => Err(OutputStop::NoMemory),
    }
}

/// A turn, made in parts, so that memory is taken for the output of one part at a time.
fn make_turn<F: Folder>(
    alloc: Global,
    board: &mut Board,
    library: &Library,
    rows: &Rows<'_>,
    cache: &mut Cache,
    turn: Turn,
    folder: &mut F,
) -> Result<(), OutputStop>
    requires runs { AreRuns library.now board.old }
    requires rows { rows.now ≡ library.now }
    requires kept { AreFetched library.now cache.old }
    requires there { turn.task < length board.old }
    requires few { length board.old ≤ MAX_TASKS }
    requires paid { (paid : ℕ) × PaidWithin board.old paid × (paid + turn.steps < 2 ^ 64) }
    ensures runs { AreRuns library.now board.new }
    ensures kept { AreFetched library.now cache.new }
    ensures as_many { length board.new ≡ length board.old }
    ensures paid { (paid : ℕ) → PaidWithin board.old paid → PaidWithin board.new (paid + turn.steps) }
    ensures goes { OnOk result ((p : Program) → IsProgramOf library.now p
        → Goes p turn.task turn.steps board.old board.new (F.files folder.old) (F.files folder.new)) }
    ensures stopped { IfErr result (λ stop. (p : Program) → IsProgramOf library.now p
        → StopsIn p turn.task turn.steps (cut_of stop) board.old (F.files folder.old) (F.files folder.new)) }
    ensures others { KeepsOthers (length board.old) (F.files folder.old) (F.files folder.new) }
    ensures within { StopsWithin (length board.old) result }
    ensures counts { Counts (F.count folder.old) (F.count folder.new) (is_unwritten result) }
{
    let mut left = turn.steps;
    'parts: while left > 0 {
        let steps = left.min(PART_STEPS);
        make_part(alloc, board, library, rows, cache, turn.task, steps, folder)?;
        left -= steps;
    }
    Ok(())
}

/// The turns of a schedule, one behind the other.
pub(crate) fn make_turns<F: Folder>(
    alloc: Global,
    board: &mut Board,
    library: &Library,
    rows: &Rows<'_>,
    cache: &mut Cache,
    turns: &[Turn],
    folder: &mut F,
) -> Result<(), OutputStop>
    requires runs { AreRuns library.now board.old }
    requires rows { rows.now ≡ library.now }
    requires kept { AreFetched library.now cache.old }
    requires there { All (λ turn. turn.task < length board.old) turns.now }
    requires few { length board.old ≤ MAX_TASKS }
    requires unpaid { PaidWithin board.old 0 }
    requires countable { all_steps turns.now < 2 ^ 64 }
    ensures runs { AreRuns library.now board.new }
    ensures kept { AreFetched library.now cache.new }
    ensures as_many { length board.new ≡ length board.old }
    ensures goes { OnOk result ((p : Program) → IsProgramOf library.now p → GoesBy p turns.now board.old board.new (F.files folder.old) (F.files folder.new)) }
    ensures stopped { IfErr result (λ stop. (p : Program) → IsProgramOf library.now p
        → StopsBy p turns.now (cut_of stop) board.old (F.files folder.old) (F.files folder.new)) }
    ensures others { KeepsOthers (length board.old) (F.files folder.old) (F.files folder.new) }
    ensures within { StopsWithin (length board.old) result }
    ensures counts { Counts (F.count folder.old) (F.count folder.new) (is_unwritten result) }
{
    let mut rest = turns;
    'more: while let Some((turn, behind)) = rest.split_first() {
        make_turn(alloc, board, library, rows, cache, *turn, folder)?;
        rest = behind;
    }
    Ok(())
}
