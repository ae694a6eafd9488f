//! What the run of a library means, whose files are those of a program's units.

ghost use Rattle.std.specs.Prelude.{◌≡◌, ℕ, List};
ghost use Rattle.library_runs.specs.mpy_base.World.{PortState};
ghost use Rattle.library_runs.specs.bc_library.Shelf.{Shelf};
ghost use Rattle.library_runs.specs.vm_frames.bc_machine.Library.{Name, Library};
ghost use Rattle.library_runs.specs.vm_frames.bc_machine.Machine.{run};
ghost use Rattle.trans_laws.specs.bc_scheme.py_meaning.Program.{Program};
ghost use Rattle.trans_laws.specs.bc_scheme.py_meaning.Meaning.{meaning};
ghost use Rattle.trans_laws.specs.bc_scheme.Link.{Links};
ghost use Rattle.trans_laws.specs.bc_scheme.Correct.{IsOpen, IsBehind, Behaves};
ghost use Rattle.library_runs.specs.vm_starting.vm_states.Means as machine;
ghost use Rattle.library_runs.specs.vm_starting.Programs.{IsProgramOf};
ghost use Rattle.meant_runs.specs.Units.{AreUnits};
ghost use Rattle.meant_runs.specs.Runs.{MeansRun};

use bc_machine::{ended_law as machine_ended_law, prefix_law as machine_prefix_law};
use bc_resolved::resolves_law;
use library_runs::program_law;
use py_meaning::{ended_law, prefix_law};
use sim_stmt::behaves_law;

/// The machine's library of a library of a program's files has the program's modules.
pub fn links_law()
    ensures { (shelf : Shelf) (p : machine.Program) (program : Program) → IsProgramOf shelf p → AreUnits program shelf
        → Links program p.library }
{
    program_law();
    resolves_law();
}

/// A run that hasn't taken a step is the meaning without turns. While a run is open, so is that, and what it prints begins what
/// the run has printed.
fn early_law()
    ensures start { (program : Program) (library : Library) (name : Name) (cells bytes : ℕ) (ports : List PortState)
        → run library name cells bytes ports 0 ≡ meaning program cells bytes ports 0 }
    ensures early { (program : Program) (library : Library) (name : Name) (cells bytes : ℕ) (ports : List PortState) (n : ℕ)
        → IsOpen (run library name cells bytes ports n)
        → IsOpen (meaning program cells bytes ports 0) × IsBehind (meaning program cells bytes ports 0) (run library name cells bytes ports n) }
{
    machine_ended_law();
    machine_prefix_law();
}

/// The run of the main module of a library of a program's files, with any room and ports, prints and ends as the program means, and
/// stops earlier only at its last step, behind a front of what the program prints.
pub fn runs_law()
    ensures behaves { (shelf : Shelf) (p : machine.Program) (program : Program) → IsProgramOf shelf p → AreUnits program shelf
        → (cells bytes : ℕ) (ports : List PortState) → Behaves program p.library cells bytes ports }
    ensures means { (shelf : Shelf) (p : machine.Program) (program : Program) → IsProgramOf shelf p → AreUnits program shelf
        → (cells bytes : ℕ) (ports : List PortState) (n : ℕ)
        → MeansRun program cells bytes ports n (run p.library program.main_name cells bytes ports n) }
{
    links_law();
    behaves_law();
    early_law();
    ended_law();
    prefix_law();
}
