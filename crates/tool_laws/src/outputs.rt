//! What the tasks of a board print, and what comparing a file prints.

ghost use Rattle.std.specs.Prelude.{◌≡◌, ℕ, List, Option, Some};
ghost use Rattle.mpy_io.specs.Files.{FileOf};
ghost use Rattle.bc_library.specs.Shelf.{Shelf};
ghost use Rattle.image_open.specs.Opens.{IsOpenedOf};
ghost use Rattle.mpy_endings.specs.declared.ending.Ending.{Ending};
ghost use Rattle.mpy_endings.specs.Ending.{IsSettled};
ghost use Rattle.meant_commands.specs.file_commands.CheckAs.{ChecksAs};
ghost use Rattle.board_command.specs.Boards.{Boards};
ghost use Rattle.tool_laws.specs.Outputs.{PrintOne};

use crate::laws::{file_laws, image_laws, plan_laws, source_laws};
use vm_starting::program_law;

/// Where a folder tells its files, the tasks of a plan leave the same in all files, those of the tasks' output among them, and the summary
/// is one text: in each settled ending.
pub fn board_output_law()
    ensures files { (opened : List (List ℕ)) (below : Shelf) (files : FileOf) (image plan : List ℕ) (new_a new_b : Option FileOf)
        (before behind printed after : Option (List ℕ)) (place another : ℕ) (one other : Ending) → IsOpenedOf opened below → IsSettled one → IsSettled other
        → Boards below image plan (Some files) new_a before behind place one
        → Boards below image plan (Some files) new_b printed after another other → new_a ≡ new_b }
    ensures summary { (opened : List (List ℕ)) (below : Shelf) (files : FileOf) (image plan : List ℕ) (new_a new_b : Option FileOf)
        (before behind printed after : Option (List ℕ)) (place another : ℕ) (one other : Ending) → IsOpenedOf opened below → IsSettled one → IsSettled other
        → Boards below image plan (Some files) new_a before behind place one
        → Boards below image plan (Some files) new_b printed after another other → PrintOne before behind printed after }
{
    image_laws();
    plan_laws();
    program_law();
}

/// Where a folder tells its files, comparing a file with a source prints one text in each settled ending.
pub fn check_as_output_law()
    ensures { (level : ℕ) (files : FileOf) (source file : List ℕ) (before behind printed after : Option (List ℕ)) (place another : ℕ)
        (one other : Ending) → IsSettled one → IsSettled other → ChecksAs level (Some files) source file before behind place one
        → ChecksAs level (Some files) source file printed after another other → PrintOne before behind printed after }
{
    file_laws();
    source_laws();
}
