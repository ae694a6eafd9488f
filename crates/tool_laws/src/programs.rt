//! The program of the files in a folder, and what a run says of it.

ghost use Rattle.std.specs.Prelude.{◌≡◌, ℕ, List, Ok, Option, Some, None};
ghost use Rattle.mpy_base.specs.declared.room.Room.{Room};
ghost use Rattle.mpy_io.specs.Files.{FileOf};
ghost use Rattle.mpy_io.specs.Ports.{PortView};
ghost use Rattle.bc_library.specs.Shelf.{Shelf};
ghost use Rattle.py_meaning.specs.Tree.{Name};
ghost use Rattle.py_meaning.specs.Program.{Program, Runs, Unit};
ghost use Rattle.library_files.specs.pkg_paths.Paths.{package_file, plain_file};
ghost use Rattle.library_files.specs.Comes.{ending};
ghost use Rattle.command_files.specs.Outside.{Outside};
ghost use Rattle.meant_commands.specs.run_commands.declared.ready.Ready.{Ready};
ghost use Rattle.meant_commands.specs.run_commands.Ready.{RunLibrary};
ghost use Rattle.meant_commands.specs.run_commands.Run.{EndsRun};
ghost use Rattle.meant_commands.specs.run_commands.Save.{EndsRunTo};
ghost use Rattle.meant_commands.specs.Made.{HoldsMade};
ghost use Rattle.meant_commands.specs.Meant.{HoldsProgram};
ghost use Rattle.tool_laws.specs.AskedFor.{HoldsEntry};
ghost use Rattle.tool_laws.specs.Programs.{AreProgramFiles, IsProgramOfFiles, RunMeansFiles};

use crate::laws::source_laws;
use meant_commands::{holds_law, run_means_law};
use meant_files::{imports_law, made_law};

/// Where the file under a name, and those of the names that are asked for, are made of units, and `run` of it has a
/// library, they have a program, with its main unit. Each program of the files is held by that library, whichever lies
/// below and whatever name a main module is given. What `cross` and `merge` wrote under the path of a name is what a
/// program has under it: the package's file, and the plain one where there is no package.
pub fn built_program_law()
    ensures program { (below : Shelf) (main : List ℕ) (files : FileOf) (name : List ℕ) (unit : Unit) (ready : Ready)
        → AreProgramFiles files name unit → RunLibrary below main (Some files) name (Ok ready)
        → (program : Program) × (program.main ≡ unit) × IsProgramOfFiles files name program }
    ensures holds { (below : Shelf) (main : List ℕ) (files : FileOf) (name : List ℕ) (program : Program)
        → IsProgramOfFiles files name program → HoldsProgram (RunLibrary below main) (Some files) name program }
    ensures of_package { (files : FileOf) (base : List ℕ) (name : Name) (unit : Unit)
        → HoldsMade files (package_file base name ending) unit → HoldsEntry files base name (Some (Runs unit)) }
    ensures of_plain { (files : FileOf) (base : List ℕ) (name : Name) (unit : Unit)
        → files (package_file base name ending) ≡ None → HoldsMade files (plain_file base name ending) unit
        → HoldsEntry files base name (Some (Runs unit)) }
{
    source_laws();
    made_law();
    imports_law();
    holds_law();
}

/// A run of such files, over whichever library, also where its state is saved, does as each program of the files means.
/// Where a library was run there is one.
pub fn files_mean_law()
    ensures run { (below : Shelf) (main : List ℕ) (room : Room) (steps : ℕ) (name : List ℕ) (old new : Outside)
        (ports_old ports_new : List PortView) (status : ℕ)
        → EndsRun (RunLibrary below main) room steps name old new ports_old ports_new status
        → RunMeansFiles room steps name old new ports_old ports_new status }
    ensures saving { (below : Shelf) (main : List ℕ) (snap : Option (List ℕ)) (room : Room) (steps : ℕ) (name : List ℕ)
        (old new : Outside) (ports_old ports_new : List PortView) (status : ℕ)
        → EndsRunTo snap (RunLibrary below main) room steps name old new ports_old ports_new status
        → RunMeansFiles room steps name old new ports_old ports_new status }
{
    built_program_law();
    run_means_law();
}
