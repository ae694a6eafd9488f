//! Orders that go on from a snapshot.

ghost use Rattle.std.specs.Prelude.{◌≡◌, ◌≤◌, ℕ, List, [], false};
ghost use Rattle.mpy_io.specs.Count.{Counts};
ghost use Rattle.mpy_words.specs.Given.{most_steps};
ghost use Rattle.mpy_words.specs.Words.{first_name, saved_name, second_name};
ghost use Rattle.mpy_endings.specs.declared.ending.Ending.TheVariants.{Stopped};
ghost use Rattle.mpy_endings.specs.declared.ending.Stop.TheVariants.{Unsaved};
ghost use Rattle.mpy_endings.specs.Ending.{IsRunStatus, is_folder_fault, is_out_fault, is_said, status_of};
ghost use Rattle.mpy_endings.specs.Line.{Says};
ghost use Rattle.meant_commands.specs.run_commands.library_runs.Runs.{sight};
ghost use Rattle.meant_commands.specs.run_commands.Resume.{ResumeLibrary, Resumes};
ghost use Rattle.mpy_tool.specs.Below.{MayLieBelow, library_below};
ghost use Rattle.mpy_tool.specs.Call.{call_of, texts};
ghost use Rattle.mpy_tool.specs.Doing.{ResumesBy};
ghost use Rattle.mpy_tool.specs.Order.{ChangesSaved};

use crate::below::or_nothing;
use crate::outside::Outside;
use bc_library::Library;
use meant_commands::resume;
use mpy_base::NoMemory;
use mpy_endings::{Ended, Ending, say_ending, word_at};
use mpy_io::{Folder, Port, Sink};
use mpy_words::Order;
use std::alloc::Global;

/// Goes on from the snapshot that is ordered, over the library of a base, if one is ordered, and answers how that ended.
fn resume_below<F: Folder, S: Sink, P: Port, E: Sink>(
    order: Order,
    alloc: Global,
    words: &[String],
    below: Option<Library>,
    outside: &mut Outside<F, S, P, E>,
) -> Ended
    requires steps { order.steps ≤ most_steps }
    requires below { MayLieBelow below order.base }
    ensures went { let given = texts words.now in (said : List ℕ)
        × Resumes (ResumeLibrary (library_below below) (F.files outside.old.folder) (first_name given)) (second_name given) given order.save order.steps
        (sight S.told P.seen outside.old.out outside.old.ports) (sight S.told P.seen outside.new.out outside.new.ports)
        said (F.files outside.old.folder) (F.files outside.new.folder) result.place result.ending
        × Says (E.told outside.old.say) (E.told outside.new.say) (E.count outside.old.say) (E.count outside.new.say) said }
    ensures flushed { IsRunStatus (status_of result.ending) → S.held outside.new.out ≡ [] }
    ensures handed_on { result.ending ≡ Stopped Unsaved → S.held outside.new.out ≡ [] }
    ensures silent { is_said result.ending ≡ false → outside.new.say ≡ outside.old.say }
    ensures folder_counts { Counts (F.count outside.old.folder) (F.count outside.new.folder) (is_folder_fault result.ending) }
    ensures out_counts { Counts (S.count outside.old.out) (S.count outside.new.out) (is_out_fault result.ending) }
{
    match or_nothing(alloc, below) {
        Ok(below) => resume(
            alloc,
            &below,
            order.steps,
            words,
            order.save,
            &mut outside.folder,
            &mut outside.out,
            &mut outside.ports,
            &mut outside.say,
        ),
        Err(NoMemory) => Ended {
            ending: Ending::NoMemory,
            place: 1,
        },
    }
}

/// Goes on from the snapshot that is ordered, over the library of a base, if one is ordered, says how that ended, and answers the exit
/// status.
pub(crate) fn resume_order<F: Folder, S: Sink, P: Port, E: Sink>(
    order: Order,
    alloc: Global,
    words: &[String],
    below: Option<Library>,
    outside: &mut Outside<F, S, P, E>,
) -> u8
    requires steps { order.steps ≤ most_steps }
    requires below { MayLieBelow below order.base }
    ensures ended { let call = call_of F.Folder S.Sink P.Port E.Sink words.now outside.old outside.new result in
        ResumesBy order call (library_below below) }
    ensures flushed { IsRunStatus result → S.held outside.new.out ≡ [] }
    ensures handed_on { result ≡ 13 → S.held outside.new.out ≡ [] }
    ensures files { ChangesSaved (saved_name (texts words.now) order.save) (F.files outside.old.folder) (F.files outside.new.folder) }
{
    let ended = resume_below(order, alloc, words, below, outside);
    let name = word_at(words, ended.place);
    let _ = say_ending(&mut outside.say, name, &ended.ending);
    ended.ending.status()
}
