//! What the runs of tasks mean.

ghost use Rattle.std.specs.Prelude.{◌≡◌, ℕ, List, Option, Some, slice_get};
ghost use Rattle.meant_files.specs.meant_runs.mpy_io.Files.{FileOf};
ghost use Rattle.board_files.specs.vm_starting.bc_library.Shelf.{Shelf};
ghost use Rattle.meant_files.specs.meant_runs.py_meaning.Program.{Program};
ghost use Rattle.board_files.specs.vm_starting.vm_states.Means as machine;
ghost use Rattle.board_files.specs.vm_starting.Programs.{IsProgramOf};
ghost use Rattle.meant_files.specs.meant_runs.Units.{AreUnits};
ghost use Rattle.board_files.specs.board_plan.declared.plan.Plan.{Plan};
ghost use Rattle.board_files.specs.board_plan.declared.plan.Task.{Task};
ghost use Rattle.board_files.specs.Summaries.{HasRun};
ghost use Rattle.board_command.specs.TaskRuns.{RanAsMeant};

use meant_files::runs_law;

/// Where the library has the units of a program whose main module is a task's, that task prints and ends as the program means, without
/// ports, in the task's room and with the total of its own steps: whatever the other tasks do.
pub fn tasks_law()
    ensures { (shelf : Shelf) (p : machine.Program) (plan : Plan) (old new : FileOf) (before behind : Option (List ℕ)) (number : ℕ)
        (task : Task) (program : Program)
        → IsProgramOf shelf p → (ran : HasRun p plan old new before behind) → slice_get plan.tasks number ≡ Some task → AreUnits program shelf
        → program.main_name ≡ task.«module» → RanAsMeant program plan number task new ran.summarizes.lines }
{
    runs_law();
}
