//! What the tasks of an image say of the sources that it is frozen of.

ghost use Rattle.std.specs.Prelude.{◌≡◌, ℕ, List, ◌∷◌, Option, Some};
ghost use Rattle.mpy_io.specs.Files.{FileOf};
ghost use Rattle.meant_files.specs.image_open.bc_library.Shelf.{Shelf};
ghost use Rattle.board_plan.specs.declared.plan.Plan.{Plan};
ghost use Rattle.meant_files.specs.Programs.{HoldsImageOf, IsLibraryOf, IsProgramOf, Sources};
ghost use Rattle.command_files.specs.mpy_endings.declared.ending.Ending.TheVariants.{Done};
ghost use Rattle.board_command.specs.Boards.{Boards};
ghost use Rattle.board_command.specs.Meant.{MeansTasks};
ghost use Rattle.board_command.specs.Plans.{HoldsPlan};

use crate::tasks::tasks_law;
use board_files::program_law;
use meant_files::images_law;

/// Where the image of the name `image` is that of a manifest's sources, over a library of images of manifests' sources, each task of a
/// plan that is run on it prints and ends as the program of all these sources means whose main unit is the task's module: without
/// ports, in the task's room, and with the total of the task's own steps, whatever the other tasks do.
pub fn board_means_law()
    ensures { (all : List Sources) (sources : Sources) (below : Shelf) (files : FileOf) (image plan_name : List ℕ) (new : Option FileOf)
        (before behind : Option (List ℕ)) (place : ℕ)
        → IsLibraryOf all below → HoldsImageOf below sources files image
        → Boards below image plan_name (Some files) new before behind place Done
        → (plan : Plan) × HoldsPlan (Some files) plan_name plan × (now : FileOf) × (new ≡ Some now)
        × MeansTasks (IsProgramOf (sources ∷ all)) plan now before behind }
{
    images_law();
    program_law();
    tasks_law();
}
