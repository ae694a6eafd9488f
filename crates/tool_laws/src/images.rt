//! Commands that write images, and the one that runs the tasks of a board.

ghost use Rattle.std.specs.Prelude.{◌≡◌, ℕ, List, [], Option, Some, None};
ghost use Rattle.mpy_io.specs.Files.{FileOf};
ghost use Rattle.bc_library.specs.Shelf.{Shelf, no_entries};
ghost use Rattle.image_grammar.specs.declared.entry.Entry.{Entry};
ghost use Rattle.image_grammar.specs.declared.fault.ImageFault.{ImageFault};
ghost use Rattle.image_grammar.specs.Base.{base_of};
ghost use Rattle.image_grammar.specs.Opening.{nothing_below};
ghost use Rattle.image_open.specs.Opens.{IsOpenedOf};
ghost use Rattle.image_freeze.specs.declared.named.Named.{Named};
ghost use Rattle.image_freeze.specs.Fronts.{front_of};
ghost use Rattle.image_freeze.specs.Frozen.{FreezeFault, IsTooBig, entries_of, second_front};
ghost use Rattle.image_freeze.specs.Migrated.{IsImageOf};
ghost use Rattle.frozen_files.specs.Frozen.{HoldsFrozen};
ghost use Rattle.frozen_files.specs.Sources.{HoldsSources};
ghost use Rattle.board_plan.specs.declared.plan.Plan.{Plan};
ghost use Rattle.board_command.specs.board_files.board_tasks.Opened.{first_missing};
ghost use Rattle.mpy_endings.specs.declared.ending.Ending.{Ending};
ghost use Rattle.mpy_endings.specs.Ending.{IsSettled};
ghost use Rattle.command_files.specs.Images.{HoldsImage, RefusesImage};
ghost use Rattle.meant_commands.specs.file_commands.Freeze.{Freezes};
ghost use Rattle.meant_commands.specs.file_commands.Migrate.{HoldsMigrated, Migrates};
ghost use Rattle.board_command.specs.Boards.{Boards};
ghost use Rattle.board_command.specs.Plans.{HoldsPlan};
ghost use Rattle.tool_laws.specs.Once.{EndOnce, IsDone};

use crate::laws::{file_laws, image_laws, manifest_laws, plan_laws, source_laws};

/// Where a folder tells its files, the file of a name is opened in one way as an image over what images were opened as, as a base is over
/// nothing: as one library, or for one reason as none.
pub fn opened_law()
    ensures nothing { IsOpenedOf [] no_entries }
    ensures base { (files : FileOf) (base : List ℕ) (below : Shelf) → HoldsImage no_entries (Some files) base below
        → (opened : List (List ℕ)) × IsOpenedOf opened below }
    ensures one_library { (opened : List (List ℕ)) (below : Shelf) (files : FileOf) (name : List ℕ) (one other : Shelf) → IsOpenedOf opened below
        → HoldsImage below (Some files) name one → HoldsImage below (Some files) name other → one ≡ other }
    ensures one_ending { (opened : List (List ℕ)) (below : Shelf) (files : FileOf) (name : List ℕ) → IsOpenedOf opened below
        → EndOnce (RefusesImage below (Some files) name) (RefusesImage below (Some files) name) }
    ensures not_both { (opened : List (List ℕ)) (below : Shelf) (files : FileOf) (name : List ℕ) (shelf : Shelf) (ending : Ending)
        → IsOpenedOf opened below → HoldsImage below (Some files) name shelf → IsSettled ending → RefusesImage below (Some files) name ending → ⊥ }
{
    image_laws();
}

/// Where a folder tells its files, writing the image of a manifest's sources ends in one way, the image is one, and it is written where
/// each source has a module and no fault keeps these from having an image.
pub fn freeze_law()
    ensures one_ending { (version : ℕ) (below : Shelf) (files : FileOf) (manifest written : List ℕ) (one other : Option FileOf)
        → EndOnce (Freezes version below manifest written (Some files) one) (Freezes version below manifest written (Some files) other) }
    ensures one_image { (version : ℕ) (below : Shelf) (files : FileOf) (manifest one other : List ℕ)
        → HoldsFrozen version below (Some files) manifest one → HoldsFrozen version below (Some files) manifest other → one ≡ other }
    ensures done { (version : ℕ) (below : Shelf) (files : FileOf) (manifest written : List ℕ) (modules : List Named) (after : Option FileOf)
        → HoldsSources (Some files) manifest modules
        → ((fault : ImageFault) → FreezeFault (front_of version (base_of below)) (base_of below) (entries_of modules) fault → ⊥)
        → IsDone (Freezes version below manifest written (Some files) after) }
{
    file_laws();
    source_laws();
    manifest_laws();
}

/// Where a folder tells its files, writing an image once more ends in one way, the new image is one, and it is written where the file is an
/// image over nothing whose modules aren't too many or too long.
pub fn migrate_law()
    ensures one_ending { (files : FileOf) (name written : List ℕ) (one other : Option FileOf)
        → EndOnce (Migrates name written (Some files) one) (Migrates name written (Some files) other) }
    ensures one_image { (files : FileOf) (name one other : List ℕ) → HoldsMigrated (Some files) name one → HoldsMigrated (Some files) name other
        → one ≡ other }
    ensures done { (files : FileOf) (name written bytes : List ℕ) (entries : List Entry) (after : Option FileOf)
        → files name ≡ Some bytes → IsImageOf entries bytes → (IsTooBig (second_front nothing_below) nothing_below entries → ⊥)
        → IsDone (Migrates name written (Some files) after) }
{
    image_laws();
}

/// Where a folder tells its files, running the tasks of a plan ends in one way, and is done where the files are an image and a plan, and the
/// library has the module of each task.
pub fn board_law()
    ensures one_ending { (opened : List (List ℕ)) (below : Shelf) (files : FileOf) (image plan : List ℕ) (one other : Option FileOf)
        (before behind printed after : Option (List ℕ)) (place another : ℕ) → IsOpenedOf opened below
        → EndOnce (Boards below image plan (Some files) one before behind place) (Boards below image plan (Some files) other printed after another) }
    ensures done { (opened : List (List ℕ)) (below : Shelf) (files : FileOf) (image name : List ℕ) (shelf : Shelf) (plan : Plan) (new : Option FileOf)
        (before behind : Option (List ℕ)) (place : ℕ) → IsOpenedOf opened below → HoldsImage below (Some files) image shelf
        → HoldsPlan (Some files) name plan → first_missing shelf plan.tasks ≡ None
        → IsDone (Boards below image name (Some files) new before behind place) }
{
    image_laws();
    plan_laws();
}
