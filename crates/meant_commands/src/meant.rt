//! What a run says of its program.

ghost use Rattle.std.specs.Prelude.{◌≡◌, ◌≢◌, ◌≤◌, ℕ, List, ◌∷◌, Ok, Option, Some};
ghost use Rattle.meant_files.specs.mpy_base.declared.room.Room.{Room};
ghost use Rattle.meant_files.specs.mpy_base.World.{PortState};
ghost use Rattle.meant_files.specs.mpy_io.Files.{FileOf};
ghost use Rattle.meant_files.specs.mpy_io.Ports.{PortView};
ghost use Rattle.meant_files.specs.port_set.Calls.{Tell};
ghost use Rattle.meant_files.specs.port_set.Counts.{AreAccounted};
ghost use Rattle.library_files.specs.bc_library.mpy_tree.Raw.{Module};
ghost use Rattle.library_files.specs.bc_library.Shelf.{Shelf, no_entries};
ghost use Rattle.meant_files.specs.py_meaning.Program.{Program, Unit, Units};
ghost use Rattle.file_commands.specs.CheckAs.{ChecksAs};
ghost use Rattle.file_commands.specs.Cross.{Crosses};
ghost use Rattle.run_commands.specs.mpy_endings.declared.ending.Ending.TheVariants.{Done};
ghost use Rattle.meant_files.specs.Sources.{IsProgramOfSources};
ghost use Rattle.run_commands.specs.Base.{base_of};
ghost use Rattle.run_commands.specs.declared.ready.Ready.{Ready};
ghost use Rattle.file_commands.specs.Freeze.{Freezes};
ghost use Rattle.file_commands.specs.Migrate.{Migrates};
ghost use Rattle.meant_commands.specs.GoMeant.{GoMeans, HoldsCrossed};
ghost use Rattle.meant_commands.specs.Made.{HoldsMade, HoldMade, MakesOfSource, MakesOfUnits};
ghost use Rattle.meant_commands.specs.Meant.{HoldsBuilt, HoldsProgram, RunMeans};
ghost use Rattle.meant_commands.specs.ResumeMeant.{IsSameLibrary, MeansInParts, ResumeMeans};
ghost use Rattle.file_commands.specs.Merge.{Merges};
ghost use Rattle.run_commands.specs.command_files.Images.{HoldsImage};
ghost use Rattle.run_commands.specs.command_files.Opened.{HoldsModule};
ghost use Rattle.run_commands.specs.command_files.Outside.{Outside};
ghost use Rattle.run_commands.specs.Ready.{GoLibrary, RunLibrary};
ghost use Rattle.run_commands.specs.Resume.{EndsResume, ResumeLibrary};
ghost use Rattle.run_commands.specs.Run.{EndsRun};
ghost use Rattle.run_commands.specs.Save.{EndsRunTo};
ghost use Rattle.meant_files.specs.Programs.{HoldsImageOf, IsLibraryOf, IsProgramOf, Sources};

use meant_files::{
    checked_law, crossed_law, files_law, frozen_law, images_law, meant_law, sources_law,
};
use run_commands::{leaves_law, rest_law};

/// A run of a file or an image, over whichever library, also where its state is saved, and of a source, does as each program means whose
/// units its library has.
pub fn run_means_law()
    ensures run { (below : Shelf) (main : List ℕ) (room : Room) (steps : ℕ) (name : List ℕ) (old new : Outside)
        (ports_old ports_new : List PortView) (status : ℕ)
        → EndsRun (RunLibrary below main) room steps name old new ports_old ports_new status
        → RunMeans (RunLibrary below main) room steps name old new ports_old ports_new status }
    ensures saving { (below : Shelf) (main : List ℕ) (snap : Option (List ℕ)) (room : Room) (steps : ℕ) (name : List ℕ) (old new : Outside)
        (ports_old ports_new : List PortView) (status : ℕ)
        → EndsRunTo snap (RunLibrary below main) room steps name old new ports_old ports_new status
        → RunMeans (RunLibrary below main) room steps name old new ports_old ports_new status }
    ensures source { (level : ℕ) (room : Room) (steps : ℕ) (name : List ℕ) (old new : Outside) (ports_old ports_new : List PortView) (status : ℕ)
        → EndsRun (GoLibrary level) room steps name old new ports_old ports_new status
        → RunMeans (GoLibrary level) room steps name old new ports_old ports_new status }
{
    meant_law();
}

/// What goes on from the snapshot of a suspended run does with that run as each program means whose units its library
/// has, and such a snapshot is never refused.
pub fn resume_means_law()
    ensures { (below : Shelf) (steps : ℕ) (name snap : List ℕ) (words : List (List ℕ)) (save : Option ℕ)
        (old new : Outside) (ports_old ports_new : List PortView) (status : ℕ)
        → EndsResume (ResumeLibrary below) steps name snap words save old new ports_old ports_new status
        → ResumeMeans (ResumeLibrary below) steps name snap old new ports_old ports_new status }
{
    meant_law();
    rest_law();
}

/// A run that is suspended, whose library has a program's units, and what goes on from the snapshot that it saved do
/// together as the program means, where the library is still the same. The snapshot is never refused.
pub fn parts_mean_law()
    ensures { (below : Shelf) (main : List ℕ) (room : Room) (steps more : ℕ) (name snap : List ℕ)
        (words : List (List ℕ)) (save : Option ℕ) (program : Program) (ports : List PortState) (file : FileOf)
        (printed : List ℕ) (old left from new : Outside)
        (ports_old ports_left ports_from ports_new : List PortView) (status : ℕ)
        → room.cells ≤ 4194304 → room.bytes ≤ 16777216
        → EndsRunTo (Some snap) (RunLibrary below main) room steps name old left ports_old ports_left 5
        → EndsResume (ResumeLibrary below) more name snap words save from new ports_from ports_new status
        → HoldsProgram (RunLibrary below main) old.files name program → old.files ≡ Some file → old.out ≡ Some printed
        → Tell ports_old ports → AreAccounted ports_old ports_left → from.files ≡ left.files
        → IsSameLibrary below main old.files left.files name
        → MeansInParts (ResumeLibrary below) room steps more name program ports old left from new
        ports_left ports_from ports_new status }
{
    meant_law();
    rest_law();
    leaves_law();
}

/// A run of a source does as the program of the sources means.
pub fn go_means_law()
    ensures { (level : ℕ) (room : Room) (steps : ℕ) (name : List ℕ) (old new : Outside) (ports_old ports_new : List PortView) (status : ℕ)
        → EndsRun (GoLibrary level) room steps name old new ports_old ports_new status
        → GoMeans level room steps name old new ports_old ports_new status }
{
    run_means_law();
    sources_law();
}

/// The files that a source and those that it asks for compile to hold the program of the sources, so that `run` of the main one does
/// as `go` of the source, whatever name a main module is given, and over whichever library.
pub fn crossed_holds_law()
    ensures { (sources files : FileOf) (path name main : List ℕ) (level : ℕ) (below : Shelf) (program : Program) → HoldsCrossed sources files path name level
        → IsProgramOfSources sources (base_of name) path level program → HoldsProgram (RunLibrary below main) (Some files) name program }
{
    files_law();
}

/// Files that `cross` and `merge` made, or that are translations, hold the program of the sources that they were made of.
pub fn holds_law()
    ensures { (files : FileOf) (name main : List ℕ) (below : Shelf) (program : Program) → HoldsBuilt files name program
        → HoldsProgram (RunLibrary below main) (Some files) name program }
{
    meant_files::built_law();
    meant_files::made_law();
}

/// An image of a manifest's sources over a library of images of manifests' sources is opened as a library of all these, over which a
/// further one may lie. It holds the program of all these sources: where `run` of it over that library with the main module of the name
/// `main`, which may be of any of them, has a library, they have one program with that main unit, and the run does as this program
/// means. Over nothing it is one of its own sources alone.
pub fn image_holds_law()
    ensures opened { (all : List Sources) (sources : Sources) (below shelf : Shelf) (files : FileOf) (image : List ℕ) → IsLibraryOf all below
        → HoldsImageOf below sources files image → HoldsImage below (Some files) image shelf → IsLibraryOf (sources ∷ all) shelf }
    ensures program { (all : List Sources) (sources : Sources) (below : Shelf) (files : FileOf) (image main : List ℕ) → IsLibraryOf all below
        → HoldsImageOf below sources files image → (ready : Ready) → RunLibrary below main (Some files) image (Ok ready)
        → (program : Program) × IsProgramOf (sources ∷ all) main program }
    ensures holds { (all : List Sources) (sources : Sources) (below : Shelf) (files : FileOf) (image main : List ℕ) → IsLibraryOf all below
        → HoldsImageOf below sources files image → (program : Program) → IsProgramOf (sources ∷ all) main program
        → HoldsProgram (RunLibrary below main) (Some files) image program }
{
    images_law();
}

/// What `cross` writes is made of the source that it compiles, and so is a file that `check` finds to be a translation, whoever made it;
/// what `merge` writes is made of the units that its files are made of. What `freeze` writes is an image of the manifest's sources over the
/// library below, and the other images of the folder stay; what `migrate` writes of an image of sources over nothing is one, too. A file
/// that is made of a unit is one of a verified module, so that no command refuses it.
pub fn makes_law()
    ensures cross { (level : ℕ) (files : FileOf) (name stored written : List ℕ) (new : Option FileOf)
        → Crosses level name stored written (Some files) new Done → MakesOfSource level files name stored written new }
    ensures check { (level : ℕ) (files : FileOf) (name file : List ℕ) (before behind : Option (List ℕ)) (place : ℕ)
        → ChecksAs level (Some files) name file before behind place Done
        → (stored : List ℕ) × MakesOfSource level files name stored file (Some files) }
    ensures merge { (files : FileOf) (names : List (List ℕ)) (written : List ℕ) (new : Option FileOf) (place : ℕ) (units : Units)
        → HoldMade files names units → Merges names written (Some files) new place Done → MakesOfUnits units written new }
    ensures freeze { (version : ℕ) (below : Shelf) (sources : Sources) (written : List ℕ) (new : Option FileOf)
        → Freezes version below sources.manifest written (Some sources.files) new Done
        → (now : FileOf) × (new ≡ Some now) × HoldsImageOf below sources now written
        × ((base : Shelf) (others : Sources) (image : List ℕ) → image ≢ written → HoldsImageOf base others sources.files image
        → HoldsImageOf base others now image) }
    ensures migrate { (sources : Sources) (files : FileOf) (image written : List ℕ) (new : Option FileOf) → HoldsImageOf no_entries sources files image
        → Migrates image written (Some files) new Done → (now : FileOf) × (new ≡ Some now) × HoldsImageOf no_entries sources now written }
    ensures verified { (files : FileOf) (name : List ℕ) (unit : Unit) → HoldsMade files name unit
        → (m : Module) × HoldsModule (Some files) name m }
{
    crossed_law();
    checked_law();
    meant_files::made_law();
    frozen_law();
}
