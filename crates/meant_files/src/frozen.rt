//! Programs of the sources of manifests, whose images lie one over another.

ghost use Rattle.std.specs.Prelude.{◌≡◌, ℕ, List, [], Some, map};
ghost use Rattle.meant_runs.specs.mpy_base.World.{PortState};
ghost use Rattle.image_open.specs.bc_library.declared.fault.Member.TheVariants as members;
ghost use Rattle.image_open.specs.bc_library.Shelf.{Shelf, member_of, no_entries};
ghost use Rattle.tr_source.specs.bc_scheme.bc_machine.Machine.{run};
ghost use Rattle.manifest_files.specs.image_grammar.Image.{Differ};
ghost use Rattle.frozen_files.specs.image_freeze.Migrated.{Migrates};
ghost use Rattle.meant_runs.specs.vm_starting.vm_states.Means as machine;
ghost use Rattle.meant_runs.specs.vm_starting.Programs.{IsProgramOf as IsMachineOf};
ghost use Rattle.tr_source.specs.bc_scheme.py_meaning.Program.{Program};
ghost use Rattle.meant_runs.specs.Units.{AreUnits};
ghost use Rattle.frozen_files.specs.Frozen.{HoldsFrozen};
ghost use Rattle.meant_files.specs.Programs.{IsImageOfSources, IsLibraryOf, IsProgramOf, MeansManifests, Sources};

use crate::units::crossed_law;
use frozen_files::freeze_law;
use image_open::over_law;
use manifest_files::entries_law;
use meant_runs::runs_law;

/// The image that is frozen of a manifest's sources over a library is one of them, and so is what an image of them over nothing is
/// migrated to.
pub fn frozen_law()
    ensures frozen { (version : ℕ) (below : Shelf) (sources : Sources) (bytes : List ℕ)
        → HoldsFrozen version below (Some sources.files) sources.manifest bytes → IsImageOfSources below sources bytes }
    ensures migrated { (sources : Sources) (bytes out : List ℕ) → IsImageOfSources no_entries sources bytes → Migrates bytes out
        → IsImageOfSources no_entries sources out }
{
    over_law();
}

/// The library that images of manifests' sources are opened as, where it has a module of the name `main`: the sources have a program of
/// which that is the main unit, and the library has its units. No two of these have one name.
pub fn images_law()
    ensures program { (all : List Sources) (main : List ℕ) (shelf : Shelf) (place : ℕ) → IsLibraryOf all shelf
        → member_of shelf main ≡ Some (members.Module place) → (program : Program) × IsProgramOf all main program }
    ensures units { (all : List Sources) (main : List ℕ) (shelf : Shelf) → IsLibraryOf all shelf → (program : Program)
        → IsProgramOf all main program → AreUnits program shelf }
    ensures differ { (all : List Sources) (main : List ℕ) (shelf : Shelf) → IsLibraryOf all shelf → (program : Program)
        → IsProgramOf all main program → Differ [] (map (λ entry. entry.0) program.entries) }
{
    crossed_law();
    entries_law();
    freeze_law();
    over_law();
}

/// The run of that module, with any room and ports and for any number of steps, says what the sources mean.
pub fn means_law()
    ensures { (all : List Sources) (main : List ℕ) (shelf : Shelf) (place : ℕ) (p : machine.Program) → IsLibraryOf all shelf
        → member_of shelf main ≡ Some (members.Module place) → IsMachineOf shelf p
        → (cells bytes : ℕ) (ports : List PortState) (n : ℕ)
        → MeansManifests all main cells bytes ports n (run p.library main cells bytes ports n) }
{
    images_law();
    runs_law();
}
