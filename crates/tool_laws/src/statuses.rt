//! Each command has one status, and the one of success where nothing keeps it from that.

ghost use Rattle.std.specs.Prelude.{◌≡◌, ◌+◌, ◌*◌, ◌≤◌, ℕ, List, Ok, Some, None};
ghost use Rattle.mpy_base.specs.declared.room.Room.{Room};
ghost use Rattle.mpy_base.specs.declared.source.SourceFault.{SourceFault};
ghost use Rattle.mpy_base.specs.World.{PortState};
ghost use Rattle.mpy_io.specs.Files.{FileOf};
ghost use Rattle.mpy_io.specs.Ports.{PortView};
ghost use Rattle.mpy_tree.specs.Raw.{Module};
ghost use Rattle.mpy_merge.specs.declared.fault.MergeFault.{MergeFault};
ghost use Rattle.mpy_merge.specs.Faults.{FirstFault};
ghost use Rattle.bc_library.specs.Shelf.{Shelf};
ghost use Rattle.image_grammar.specs.declared.entry.Entry.{Entry};
ghost use Rattle.image_grammar.specs.declared.fault.ImageFault.{ImageFault};
ghost use Rattle.image_grammar.specs.Base.{base_of};
ghost use Rattle.image_grammar.specs.Opening.{nothing_below};
ghost use Rattle.image_open.specs.Opens.{IsOpenedOf};
ghost use Rattle.image_freeze.specs.declared.named.Named.{Named};
ghost use Rattle.image_freeze.specs.Fronts.{front_of};
ghost use Rattle.image_freeze.specs.Frozen.{FreezeFault, IsTooBig, entries_of, second_front};
ghost use Rattle.image_freeze.specs.Migrated.{IsImageOf};
ghost use Rattle.frozen_files.specs.Sources.{HoldsSources};
ghost use Rattle.board_plan.specs.declared.plan.Plan.{Plan};
ghost use Rattle.board_command.specs.board_files.board_tasks.Opened.{first_missing};
ghost use Rattle.py_meaning.specs.Program.{Program};
ghost use Rattle.py_meaning.specs.Meaning.{meaning};
ghost use Rattle.bc_scheme.specs.Correct.{HasEnded};
ghost use Rattle.meant_files.specs.Sources.{IsProgramOfSources};
ghost use Rattle.command_files.specs.mpy_compile.Compiled.{IsFault};
ghost use Rattle.command_files.specs.Images.{HoldsImage};
ghost use Rattle.command_files.specs.Outside.{Ends, EndsAt, Writes, WritesOf};
ghost use Rattle.meant_commands.specs.file_commands.Check.{Checks, HoldsVerified};
ghost use Rattle.meant_commands.specs.file_commands.CheckAs.{ChecksAs, HoldsTranslation};
ghost use Rattle.meant_commands.specs.file_commands.Cross.{Crosses};
ghost use Rattle.meant_commands.specs.file_commands.Dump.{Dumps, HoldsListed};
ghost use Rattle.meant_commands.specs.file_commands.Merge.{HoldModules, Merges};
ghost use Rattle.meant_commands.specs.file_commands.Freeze.{Freezes};
ghost use Rattle.meant_commands.specs.file_commands.Migrate.{Migrates};
ghost use Rattle.board_command.specs.Boards.{Boards};
ghost use Rattle.board_command.specs.Plans.{HoldsPlan};
ghost use Rattle.meant_commands.specs.run_commands.Base as bases;
ghost use Rattle.meant_commands.specs.run_commands.declared.ready.Ready.{Ready};
ghost use Rattle.meant_commands.specs.run_commands.Ready.{GoLibrary, RunLibrary};
ghost use Rattle.meant_commands.specs.run_commands.Run.{EndsRun};
ghost use Rattle.meant_commands.specs.Meant.{HoldsProgram, end_status};
ghost use Rattle.meant_commands.specs.run_commands.Stress.{EndsStress};
ghost use Rattle.tool_laws.specs.Once.{OneStatus, OverBase, Succeeds};
ghost use Rattle.tool_laws.specs.Runs.{OnFiles, OneRunStatus, RunOver, SettledRun};

use crate::files::{check_as_law, check_law, cross_law, dump_law};
use crate::images::{board_law, freeze_law, migrate_law};
use crate::laws::{image_laws, run_laws};
use crate::merging::merge_law;
use crate::runs::library_law;
use meant_commands::{go_means_law, run_means_law};

/// Calls of a command that runs nothing, on the same files, which no call that failed outside and no want of memory cuts short, have one
/// status. A call is what a clause of the top call says of its command.
pub fn one_status_law()
    ensures check { (files : FileOf) (name : List ℕ) → OneStatus (Ends Checks name) files }
    ensures check_as { (level : ℕ) (files : FileOf) (source file : List ℕ) (words : List (List ℕ))
        → OneStatus (EndsAt (λ old new before behind. ChecksAs level old source file before behind) words) files }
    ensures dump { (files : FileOf) (name : List ℕ) → OneStatus (Ends Dumps name) files }
    ensures cross { (level : ℕ) (files : FileOf) (name stored written : List ℕ) → OneStatus (Writes (Crosses level name stored written) name written) files }
    ensures merge { (files : FileOf) (names : List (List ℕ)) (written : List ℕ) (words : List (List ℕ))
        → OneStatus (WritesOf (Merges names written) words) files }
    ensures freeze { (version : ℕ) (below : Shelf) (files : FileOf) (manifest written : List ℕ)
        → OneStatus (Writes (Freezes version below manifest written) manifest written) files }
    ensures migrate { (files : FileOf) (name written : List ℕ) → OneStatus (Writes (Migrates name written) name written) files }
    ensures board { (opened : List (List ℕ)) (below : Shelf) (files : FileOf) (image plan : List ℕ) (words : List (List ℕ)) → IsOpenedOf opened below
        → OneStatus (EndsAt (Boards below image plan) words) files }

    // And over a base.
    ensures freeze_over { (version : ℕ) (files : FileOf) (base manifest written : List ℕ)
        → OneStatus (OverBase base (λ below. Writes (Freezes version below manifest written) manifest written)) files }
    ensures board_over { (files : FileOf) (base image plan : List ℕ) (words : List (List ℕ))
        → OneStatus (OverBase base (λ below. EndsAt (Boards below image plan) words)) files }
{
    image_laws();
    check_law();
    check_as_law();
    dump_law();
    cross_law();
    merge_law();
    freeze_law();
    migrate_law();
    board_law();
}

/// Calls of a command that runs a library, on the same files, behind the same output and with the same ports, which nothing cuts short,
/// have one status; so have those of `stress`, whatever the files.
pub fn one_run_status_law()
    ensures go { (level : ℕ) (files : FileOf) (name : List ℕ) (room : Room) (steps : ℕ)
        → OneRunStatus (OnFiles files (EndsRun (GoLibrary level) room steps name)) }
    ensures run { (opened : List (List ℕ)) (below : Shelf) (main : List ℕ) (files : FileOf) (name : List ℕ) (room : Room) (steps : ℕ)
        → IsOpenedOf opened below → OneRunStatus (OnFiles files (EndsRun (RunLibrary below main) room steps name)) }
    ensures run_over { (files : FileOf) (base main name : List ℕ) (room : Room) (steps : ℕ)
        → OneRunStatus (OnFiles files (RunOver base (λ below. EndsRun (RunLibrary below main) room steps name))) }
    ensures stress { (seed count : ℕ) (room : Room) (steps : ℕ) → OneRunStatus (EndsStress seed count room steps) }
{
    image_laws();
    library_law();
    run_laws();
}

/// What succeeds where no call failed and memory was found: a verified file is checked, a translation is found to be one, a file that is read
/// is listed, a source without a fault is compiled, verified files without a fault of theirs are merged, sources of a manifest are frozen, an
/// image is written once more, and the tasks of a plan that has no fault are run on an image that has their modules.
pub fn completeness_law()
    ensures check { (files : FileOf) (name : List ℕ) (count : ℕ) → HoldsVerified (Some files) name count → Succeeds (Ends Checks name) files }
    ensures check_as { (level : ℕ) (files : FileOf) (source file : List ℕ) (count : ℕ) (words : List (List ℕ))
        → HoldsTranslation level (Some files) source file count
        → Succeeds (EndsAt (λ old new before behind. ChecksAs level old source file before behind) words) files }
    ensures dump { (files : FileOf) (name text : List ℕ) → HoldsListed (Some files) name text → Succeeds (Ends Dumps name) files }
    ensures cross { (level : ℕ) (files : FileOf) (name stored source written : List ℕ) → files name ≡ Some source
        → ((fault : SourceFault) → IsFault level source stored fault → ⊥) → Succeeds (Writes (Crosses level name stored written) name written) files }
    ensures merge { (files : FileOf) (names : List (List ℕ)) (written : List ℕ) (words : List (List ℕ)) (modules : List Module)
        → HoldModules (Some files) names modules → ((fault : MergeFault) → FirstFault modules fault → ⊥)
        → Succeeds (WritesOf (Merges names written) words) files }
    ensures freeze { (version : ℕ) (below : Shelf) (files : FileOf) (manifest written : List ℕ) (modules : List Named)
        → HoldsSources (Some files) manifest modules
        → ((fault : ImageFault) → FreezeFault (front_of version (base_of below)) (base_of below) (entries_of modules) fault → ⊥)
        → Succeeds (Writes (Freezes version below manifest written) manifest written) files }
    ensures migrate { (files : FileOf) (name written bytes : List ℕ) (entries : List Entry) → files name ≡ Some bytes
        → IsImageOf entries bytes → (IsTooBig (second_front nothing_below) nothing_below entries → ⊥)
        → Succeeds (Writes (Migrates name written) name written) files }
    ensures board { (opened : List (List ℕ)) (below : Shelf) (files : FileOf) (image name : List ℕ) (words : List (List ℕ)) (shelf : Shelf) (plan : Plan)
        → IsOpenedOf opened below → HoldsImage below (Some files) image shelf → HoldsPlan (Some files) name plan
        → first_missing shelf plan.tasks ≡ None → Succeeds (EndsAt (Boards below image name) words) files }
{
    check_law();
    check_as_law();
    dump_law();
    cross_law();
    merge_law();
    freeze_law();
    migrate_law();
    board_law();
}

/// A run of a library that is loaded ends as the program means, where its meaning ends within t turns and 16 t + 16 steps or more are
/// ordered: of a source as the program of the sources, and of a file or an image as each whose units it has.
pub fn run_completeness_law()
    ensures go { (level : ℕ) (files : FileOf) (name : List ℕ) (room : Room) (steps : ℕ) (printed : List ℕ) (ports : List PortView) (states : List PortState)
        (ready : Ready) (program : Program) (t status : ℕ) → GoLibrary level (Some files) name (Ok ready)
        → IsProgramOfSources files (bases.base_of name) name level program
        → HasEnded (meaning program room.cells room.bytes states t) → 16 * t + 16 ≤ steps
        → SettledRun (OnFiles files (EndsRun (GoLibrary level) room steps name)) printed ports states status
        → status ≡ end_status (meaning program room.cells room.bytes states t).end }
    ensures run { (opened : List (List ℕ)) (below : Shelf) (main : List ℕ) (files : FileOf) (name : List ℕ) (room : Room) (steps : ℕ) (printed : List ℕ)
        (ports : List PortView) (states : List PortState) (ready : Ready) (program : Program) (t status : ℕ) → IsOpenedOf opened below
        → RunLibrary below main (Some files) name (Ok ready) → HoldsProgram (RunLibrary below main) (Some files) name program
        → HasEnded (meaning program room.cells room.bytes states t) → 16 * t + 16 ≤ steps
        → SettledRun (OnFiles files (EndsRun (RunLibrary below main) room steps name)) printed ports states status
        → status ≡ end_status (meaning program room.cells room.bytes states t).end }
{
    library_law();
    go_means_law();
    run_means_law();
}
