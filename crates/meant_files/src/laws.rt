//! The program of sources, and the libraries that are loaded for it.

ghost use Rattle.std.specs.Prelude.{◌≡◌, ℕ, List, codes};
ghost use Rattle.meant_runs.specs.mpy_base.World.{PortState};
ghost use Rattle.meant_runs.specs.mpy_io.Files.{FileOf};
ghost use Rattle.tr_source.specs.bc_scheme.mpy_tree.Resolved.{ResolvedModule};
ghost use Rattle.image_open.specs.bc_library.Shelf.{Shelf};
ghost use Rattle.tr_source.specs.bc_scheme.bc_machine.Machine.{run};
ghost use Rattle.tr_source.specs.bc_scheme.py_meaning.Program.{Source, Program};
ghost use Rattle.tr_source.specs.bc_scheme.Translation.{Translates};
ghost use Rattle.frozen_files.specs.library_files.Imports.{imports_of};
ghost use Rattle.meant_runs.specs.vm_starting.vm_states.Means as machine;
ghost use Rattle.meant_runs.specs.vm_starting.Programs.{IsProgramOf};
ghost use Rattle.meant_runs.specs.Units.{AreUnits};
ghost use Rattle.meant_files.specs.Imported.{source_imports};
ghost use Rattle.meant_files.specs.Sources.{IsProgramOfSources, MeansSources};
ghost use Rattle.meant_files.specs.Libraries.{IsOfSources, IsOfFiles};

use crate::units::crossed_law;
use bc_resolved::resolves_law;
use meant_runs::runs_law;
use py_source::accepted_law;

/// The translation of a source imports the names that the source does, in its order.
pub fn imports_law()
    ensures { (source : Source) (m : ResolvedModule) → Translates source m → imports_of m.code ≡ source_imports source }
{}

/// The sources have one program at most.
pub fn program_law()
    ensures one { (files : FileOf) (base path : List ℕ) (level : ℕ) (first second : Program)
        → IsProgramOfSources files base path level first → IsProgramOfSources files base path level second → first ≡ second }
{
    accepted_law();
}

/// Where a library is loaded from sources, these have a program, and the library has its units.
pub fn sources_law()
    ensures program { (files : FileOf) (base path : List ℕ) (level : ℕ) (shelf : Shelf) → IsOfSources files base path level shelf
        → (program : Program) × IsProgramOfSources files base path level program }
    ensures units { (files : FileOf) (base path : List ℕ) (level : ℕ) (shelf : Shelf) → IsOfSources files base path level shelf
        → (program : Program) → IsProgramOfSources files base path level program → AreUnits program shelf }
{
    program_law();
    imports_law();
    crossed_law();
    resolves_law();
}

/// Where a library is loaded from the files that sources compile to, the sources have a program, and the library has its units.
pub fn files_law()
    ensures program { (sources files : FileOf) (base path : List ℕ) (level : ℕ) (shelf : Shelf) → IsOfFiles sources files base path level shelf
        → (program : Program) × IsProgramOfSources sources base path level program }
    ensures units { (sources files : FileOf) (base path : List ℕ) (level : ℕ) (shelf : Shelf) → IsOfFiles sources files base path level shelf
        → (program : Program) → IsProgramOfSources sources base path level program → AreUnits program shelf }
{
    program_law();
    imports_law();
    crossed_law();
    resolves_law();
}

/// The run of such a library, with any room and ports and for any number of steps, says what the sources mean: whether they are
/// compiled as they are loaded, or were before.
pub fn sources_mean_law()
    ensures of_sources { (files : FileOf) (base path : List ℕ) (level : ℕ) (shelf : Shelf) (p : machine.Program)
        → IsOfSources files base path level shelf → IsProgramOf shelf p → (cells bytes : ℕ) (ports : List PortState) (n : ℕ)
        → MeansSources files base path level cells bytes ports n (run p.library (codes "__main__") cells bytes ports n) }
    ensures of_files { (sources files : FileOf) (base path : List ℕ) (level : ℕ) (shelf : Shelf) (p : machine.Program)
        → IsOfFiles sources files base path level shelf → IsProgramOf shelf p → (cells bytes : ℕ) (ports : List PortState) (n : ℕ)
        → MeansSources sources base path level cells bytes ports n (run p.library (codes "__main__") cells bytes ports n) }
{
    sources_law();
    files_law();
    runs_law();
}
