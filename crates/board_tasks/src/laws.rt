//! What turns come to.

ghost use Rattle.std.specs.Prelude.{◌≡◌, ◌+◌, ℕ, List, [], Option, Some, IsSome, slice_get};
ghost use Rattle.mpy_base.specs.declared.room.Room.{Room};
ghost use Rattle.bc_library.specs.Shelf.{Shelf};
ghost use Rattle.vm_machine.specs.vm_frames.bc_machine.Library.{Library};
ghost use Rattle.vm_machine.specs.vm_frames.bc_machine.Machine.{steps};
ghost use Rattle.vm_machine.specs.vm_starting.vm_states.Means.{Program};
ghost use Rattle.vm_machine.specs.vm_starting.Programs.{IsProgramOf};
ghost use Rattle.board_plan.specs.declared.plan.Task.{Task};
ghost use Rattle.board_plan.specs.declared.plan.Turn.{Turn};
ghost use Rattle.board_tasks.specs.declared.ending.TaskEnd.{TaskEnd};
ghost use Rattle.board_tasks.specs.declared.ending.TurnEnd.{TurnEnd};
ghost use Rattle.board_tasks.specs.declared.turning.TaskRun.{TaskRun};
ghost use Rattle.board_tasks.specs.Alone.{run_of_task, start_of};
ghost use Rattle.board_tasks.specs.Ends.{HasEnd, IsRoomOf, RunEnds, UsesRoom};
ghost use Rattle.board_tasks.specs.Opened.{IsOpened};
ghost use Rattle.board_tasks.specs.Schedules.{board_run, total};
ghost use Rattle.board_tasks.specs.Turns.{IsMade, Stands, StandsOn, TurnsSo};

use bc_machine::{ended_law, runs_law};

/// Behind every schedule the machine of each task stands where its own run comes to, alone, for the total of its own steps.
pub fn board_law()
    ensures { (library : Library) (tasks : List Task) (schedule : List Turn) (number : ℕ) (task : Task) → slice_get tasks number ≡ Some task
        → slice_get (board_run library tasks schedule) number ≡ Some (steps library (total schedule number) (start_of library task)) }
{
    ended_law();
    runs_law();
}

/// A task that is opened stands at the start of its run, and behind each turn that is made it stands as many steps further, whatever
/// the other tasks do. What it tells is its run's: what was printed, its end and its room.
pub fn stands_law()
    ensures starts { (shelf : Shelf) (p : Program) (task : Task) (run : TaskRun) → IsProgramOf shelf p → IsOpened shelf task run → Stands p task 0 [] run }
    ensures turn { (shelf : Shelf) (p : Program) (task : Task) (total count : ℕ) (printed : List ℕ) (old new : TaskRun)
        (before behind : Option (List ℕ)) (end : TurnEnd)
        → IsProgramOf shelf p → IsSome before → Stands p task total printed old → TurnsSo shelf count old new before behind end → IsMade end
        → StandsOn p task (total + count) printed new before behind }
    ensures output { (p : Program) (task : Task) (total : ℕ) (printed : List ℕ) (run : TaskRun) → Stands p task total printed run
        → (run_of_task p.library task total).world.output ≡ printed }
    ensures end { (p : Program) (task : Task) (total : ℕ) (printed : List ℕ) (run : TaskRun) (end : Option TaskEnd) → Stands p task total printed run
        → HasEnd run end → RunEnds (run_of_task p.library task total) end }
    ensures room { (p : Program) (task : Task) (total : ℕ) (printed : List ℕ) (run : TaskRun) (room : Room) → Stands p task total printed run
        → IsRoomOf run room → UsesRoom (run_of_task p.library task total).world.heap room }
{
    ended_law();
    runs_law();
}
