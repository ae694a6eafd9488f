//! Commands that run a library.

ghost use Rattle.std.specs.Prelude.{◌≡◌, ℕ, List, Some};
ghost use Rattle.mpy_base.specs.declared.room.Room.{Room};
ghost use Rattle.mpy_io.specs.Files.{FileOf};
ghost use Rattle.port_set.specs.Counts.{AreAccounted};
ghost use Rattle.bc_library.specs.Shelf.{Shelf};
ghost use Rattle.image_open.specs.Opens.{IsOpenedOf};
ghost use Rattle.meant_commands.specs.run_commands.library_runs.Runs.{Sight};
ghost use Rattle.mpy_endings.specs.declared.ending.Ending.{Ending};
ghost use Rattle.mpy_endings.specs.Ending.{IsSettled};
ghost use Rattle.meant_commands.specs.run_commands.Ready.{GoLibrary, RunLibrary};
ghost use Rattle.meant_commands.specs.run_commands.Run.{Runs};
ghost use Rattle.meant_commands.specs.Alike.{AreAlike, Tells};
ghost use Rattle.tool_laws.specs.Once.{EndOnce};
ghost use Rattle.tool_laws.specs.Runs.{AnswersOnce};

use crate::laws::{file_laws, image_laws, load_laws, run_laws, source_laws};

/// Where a folder tells its files, a source comes to one library, or to one reason for which there is none. So does a file, and an image
/// over what images were opened as.
pub fn library_law()
    ensures source { (level : ℕ) (files : FileOf) (name : List ℕ) → AnswersOnce (GoLibrary level (Some files) name) }
    ensures file { (opened : List (List ℕ)) (below : Shelf) (main : List ℕ) (files : FileOf) (name : List ℕ) → IsOpenedOf opened below
        → AnswersOnce (RunLibrary below main (Some files) name) }
{
    file_laws();
    source_laws();
    image_laws();
    load_laws();
}

/// Where a folder tells its files, the output's sink what was printed, and the ports what they have and each of their faults, a run of a
/// source ends in one way, prints and says the same, and leaves the ports alike.
pub fn go_law()
    ensures one_ending { (level : ℕ) (files : FileOf) (name : List ℕ) (room : Room) (steps : ℕ) (old new_a new_b : Sight) (said_a said_b : List ℕ)
        → Tells old → AreAccounted old.ports new_a.ports → AreAccounted old.ports new_b.ports
        → EndOnce (Runs (GoLibrary level (Some files) name) room steps old new_a said_a)
        (Runs (GoLibrary level (Some files) name) room steps old new_b said_b) }
    ensures alike { (level : ℕ) (files : FileOf) (name : List ℕ) (room : Room) (steps : ℕ) (old new_a new_b : Sight) (said_a said_b : List ℕ)
        → Tells old → AreAccounted old.ports new_a.ports → AreAccounted old.ports new_b.ports → (one other : Ending) → IsSettled one → IsSettled other
        → Runs (GoLibrary level (Some files) name) room steps old new_a said_a one
        → Runs (GoLibrary level (Some files) name) room steps old new_b said_b other → AreAlike new_a new_b × (said_a ≡ said_b) }
{
    library_law();
    run_laws();
}

/// And so does a run of a file or an image.
pub fn run_law()
    ensures one_ending { (opened : List (List ℕ)) (below : Shelf) (main : List ℕ) (files : FileOf) (name : List ℕ) (room : Room) (steps : ℕ)
        (old new_a new_b : Sight) (said_a said_b : List ℕ) → IsOpenedOf opened below
        → Tells old → AreAccounted old.ports new_a.ports → AreAccounted old.ports new_b.ports
        → EndOnce (Runs (RunLibrary below main (Some files) name) room steps old new_a said_a)
        (Runs (RunLibrary below main (Some files) name) room steps old new_b said_b) }
    ensures alike { (opened : List (List ℕ)) (below : Shelf) (main : List ℕ) (files : FileOf) (name : List ℕ) (room : Room) (steps : ℕ)
        (old new_a new_b : Sight) (said_a said_b : List ℕ) → IsOpenedOf opened below
        → Tells old → AreAccounted old.ports new_a.ports → AreAccounted old.ports new_b.ports → (one other : Ending) → IsSettled one → IsSettled other
        → Runs (RunLibrary below main (Some files) name) room steps old new_a said_a one
        → Runs (RunLibrary below main (Some files) name) room steps old new_b said_b other → AreAlike new_a new_b × (said_a ≡ said_b) }
{
    library_law();
    run_laws();
}
