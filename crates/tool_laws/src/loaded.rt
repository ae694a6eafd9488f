//! A library is loaded where nothing keeps it from that.

ghost use Rattle.std.specs.Prelude.{◌≡◌, ◌+◌, ◌*◌, ◌≤◌, ℕ, List, Some};
ghost use Rattle.mpy_base.specs.declared.room.Room.{Room};
ghost use Rattle.mpy_base.specs.World.{PortState};
ghost use Rattle.mpy_io.specs.Files.{FileOf};
ghost use Rattle.mpy_io.specs.Ports.{PortView};
ghost use Rattle.mpy_tree.specs.Raw.{Module};
ghost use Rattle.bc_library.specs.Shelf.{Shelf};
ghost use Rattle.py_meaning.specs.Program.{Program};
ghost use Rattle.py_meaning.specs.Meaning.{meaning};
ghost use Rattle.bc_scheme.specs.Correct.{HasEnded};
ghost use Rattle.meant_files.specs.Sources.{IsProgramOfSources};
ghost use Rattle.meant_commands.specs.Meant.{end_status};
ghost use Rattle.command_files.specs.Opened.{HoldsModule};
ghost use Rattle.mpy_endings.specs.Ending.{IsRunStatus};
ghost use Rattle.meant_commands.specs.run_commands.Base as bases;
ghost use Rattle.meant_commands.specs.run_commands.Ready.{GoLibrary, RunLibrary};
ghost use Rattle.meant_commands.specs.run_commands.Run.{EndsRun};
ghost use Rattle.tool_laws.specs.Faultless.{AreFaultless, FilesKeepLimits, SourcesKeepLimits};
ghost use Rattle.tool_laws.specs.Small.{AreSmall};
ghost use Rattle.tool_laws.specs.Runs.{OnFiles, SettledRun};

use crate::laws::{file_laws, load_laws, source_laws};
use meant_commands::go_means_law;
use meant_files::{crossed_law, imports_law, made_law};

/// Where a source and those of the names that are asked for have few modules, texts and bytes, loading its library comes to none that passes
/// a limit.
pub fn limits_law()
    ensures { (level : ℕ) (files : FileOf) (name : List ℕ) → AreSmall level files name → SourcesKeepLimits level files name }
{
    source_laws();
    crossed_law();
    made_law();
    imports_law();
}

/// Where a source and those of the names that are asked for have no fault, and no limit of a library is passed, `go` runs the library,
/// and ends as the program of the sources means where the meaning ends in time. So does `run` with the library of a verified file.
pub fn loading_completeness_law()
    ensures go { (level : ℕ) (files : FileOf) (name : List ℕ) (room : Room) (steps : ℕ) (printed : List ℕ) (ports : List PortView)
        (states : List PortState) (status : ℕ) → AreFaultless level files name → SourcesKeepLimits level files name
        → SettledRun (OnFiles files (EndsRun (GoLibrary level) room steps name)) printed ports states status → IsRunStatus status }
    ensures meant { (level : ℕ) (files : FileOf) (name : List ℕ) (room : Room) (steps : ℕ) (printed : List ℕ) (ports : List PortView)
        (states : List PortState) (program : Program) (t status : ℕ) → AreFaultless level files name → SourcesKeepLimits level files name
        → IsProgramOfSources files (bases.base_of name) name level program
        → HasEnded (meaning program room.cells room.bytes states t) → 16 * t + 16 ≤ steps
        → SettledRun (OnFiles files (EndsRun (GoLibrary level) room steps name)) printed ports states status
        → status ≡ end_status (meaning program room.cells room.bytes states t).end }
    ensures run { (below : Shelf) (main : List ℕ) (files : FileOf) (name : List ℕ) (room : Room) (steps : ℕ) (printed : List ℕ)
        (ports : List PortView) (states : List PortState) (m : Module) (status : ℕ) → HoldsModule (Some files) name m → FilesKeepLimits files name
        → SettledRun (OnFiles files (EndsRun (RunLibrary below main) room steps name)) printed ports states status → IsRunStatus status }
{
    file_laws();
    source_laws();
    load_laws();
    crossed_law();
    made_law();
    imports_law();
    go_means_law();
}
