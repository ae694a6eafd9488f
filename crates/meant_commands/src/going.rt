//! Loading from sources and running a library end in one way.

ghost use Rattle.std.specs.Prelude.{◌≡◌, ℕ, List};
ghost use Rattle.meant_files.specs.mpy_base.declared.room.Room.{Room};
ghost use Rattle.meant_files.specs.mpy_io.Files.{FileOf};
ghost use Rattle.library_files.specs.bc_library.mpy_tree.Raw.{Module};
ghost use Rattle.library_files.specs.bc_library.Shelf.{Shelf};
ghost use Rattle.meant_files.specs.vm_frames.bc_machine.Library.{Name};
ghost use Rattle.library_files.specs.Loads.{Loading};
ghost use Rattle.run_commands.specs.library_runs.declared.ending.RunEnd.{RunEnd};
ghost use Rattle.run_commands.specs.library_runs.Runs.{Sight};
ghost use Rattle.meant_files.specs.source_files.Sources.{IsModuleOf, LoadsFromSources};
ghost use Rattle.meant_commands.specs.Alike.{Tells, IsWholeRun, AreAlike};

use file_commands::compile_law;
use library_files::imports_law;
use mpy_reader::file_law;
use run_commands::accounted_law;

/// A source has one module of one size at most, and from a main module and sources loading ends in one way.
pub fn sources_law()
    ensures one { (level : ℕ) (path source : List ℕ) (m n : Module) (size other : ℕ)
        → IsModuleOf level path source m size → IsModuleOf level path source n other → (m ≡ n) × (size ≡ other) }
    ensures loading { (level : ℕ) (files : FileOf) (base : List ℕ) (main : Module) (size : ℕ) (some other : Loading)
        → LoadsFromSources level files base main size some → LoadsFromSources level files base main size other → some ≡ other }
{
    imports_law();
    file_law();
    compile_law();
}

/// Two whole runs of one library that begin alike end in one way, say the same, and are alike.
pub fn run_law()
    ensures end { (shelf : Shelf) (name : Name) (room : Room) (steps : ℕ) (old new_a new_b : Sight) (end_a end_b : RunEnd) (said_a said_b : List ℕ)
        → Tells old → IsWholeRun shelf name room steps old new_a end_a said_a → IsWholeRun shelf name room steps old new_b end_b said_b → end_a ≡ end_b }
    ensures said { (shelf : Shelf) (name : Name) (room : Room) (steps : ℕ) (old new_a new_b : Sight) (end_a end_b : RunEnd) (said_a said_b : List ℕ)
        → Tells old → IsWholeRun shelf name room steps old new_a end_a said_a → IsWholeRun shelf name room steps old new_b end_b said_b → said_a ≡ said_b }
    ensures alike { (shelf : Shelf) (name : Name) (room : Room) (steps : ℕ) (old new_a new_b : Sight) (end_a end_b : RunEnd) (said_a said_b : List ℕ)
        → Tells old → IsWholeRun shelf name room steps old new_a end_a said_a → IsWholeRun shelf name room steps old new_b end_b said_b → AreAlike new_a new_b }
{
    accounted_law();
}
