//! Turns of one task.

ghost use Rattle.std.specs.Prelude.{◌≡◌, ◌+◌, ◌<◌, ◌≤◌, ◌^◌, MatchBool};
ghost use Rattle.mpy_io.specs.Count.{Counts};
ghost use Rattle.bc_library.specs.Shelf.{Shelf};
ghost use Rattle.vm_machine.specs.vm_starting.Kept.{AreFetched};
ghost use Rattle.vm_machine.specs.Machine.{IsVm};
ghost use Rattle.board_tasks.specs.Ends.{GoesOn, HasEnd, IsOver, is_write_fault};
ghost use Rattle.board_tasks.specs.Turns.{TurnsSo};

use crate::ending::{TaskEnd, TurnEnd};
use arena_heap::exc_parts;
use bc_library::Library;
use bc_machine::{output_law, prefix_law, runs_law};
use bc_rows::Rows;
use frame_exits::End;
use mpy_io::{Failed, ScriptPort, Sink};
use port_set::PortSet;
use std::alloc::Global;
use vm_machine::{Cache, Vm, run};

/// The run of a task.
#[derive(Drop)]
pub struct TaskRun {
    pub vm: Vm,
    /// The sink of its output has failed.
    pub failed: bool,
}

impl TaskRun {
    /// Whether the task has ended.
    pub fn is_over(&self) -> bool
        ensures { MatchBool result (IsOver self.now) (GoesOn self.now) }
    {
        self.failed || self.vm.end.is_some()
    }

    /// How the task ended, None where it goes on.
    pub fn end(&self) -> Option<TaskEnd>
        requires { (shelf : Shelf) × IsVm shelf self.now.vm }
        ensures { HasEnd self.now result }
    {
        if self.failed {
            return Some(TaskEnd::WriteFault);
        }
        match self.vm.end {
            None => None,
            Some(End::Ended) => Some(TaskEnd::Ended),
            Some(End::Raised(x)) => {
                let (kind, _, _, _, _) = exc_parts(&self.vm.arena, x);
                Some(TaskEnd::Raised(kind))
            }
            Some(End::Memory(_)) => Some(TaskEnd::Memory),
        }
    }

    /// A turn of these steps, which puts what they print. It takes no memory.
    pub(crate) fn turn<S: Sink>(
        &mut self,
        alloc: Global,
        library: &Library,
        rows: &Rows<'_>,
        cache: &mut Cache,
        steps: u64,
        out: &mut S,
    ) -> TurnEnd
        requires vm { IsVm library.now self.old.vm }
        requires rows { rows.now ≡ library.now }
        requires countable { self.old.vm.paid + steps < 2 ^ 64 }
        requires kept { AreFetched library.now cache.old }
        ensures vm { IsVm library.now self.new.vm }
        ensures turns { TurnsSo library.now steps self.old self.new (S.told out.old) (S.told out.new) result }
        ensures over { result ≡ TurnEnd.Over → out.new ≡ out.old }
        ensures counts { Counts (S.count out.old) (S.count out.new) (is_write_fault result) }
        ensures paid { self.new.vm.paid ≤ self.old.vm.paid + steps }
        ensures kept { AreFetched library.now cache.new }
    {
        if self.is_over() {
            return TurnEnd::Over;
        }
        output_law();
        prefix_law();
        runs_law();
        let mut ports: PortSet<ScriptPort> = PortSet::new(Vec::new(alloc));
        match run(&mut self.vm, library, rows, cache, out, &mut ports, steps) {
            Ok(()) => TurnEnd::Went,
            Err(Failed) => {
                self.failed = true;
                TurnEnd::WriteFault
            }
        }
    }
}
