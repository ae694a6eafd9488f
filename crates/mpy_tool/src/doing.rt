//! Orders that run nothing.

ghost use Rattle.std.specs.Prelude.{◌≡◌, ◌≤◌, [], true, false, IfSome};
ghost use Rattle.mpy_base.specs.declared.limits.TheConstants.{MAX_TASKS};
ghost use Rattle.mpy_io.specs.Count.{Counts};
ghost use Rattle.image_open.specs.image_grammar.Base.{IsOpened};
ghost use Rattle.image_open.specs.image_grammar.bc_library.Shelf.{Shelf};
ghost use Rattle.mpy_endings.specs.declared.ending.Ending.TheVariants.{Done};
ghost use Rattle.mpy_endings.specs.Ending.{IsRunStatus, is_folder_fault, is_out_fault};
ghost use Rattle.board_command.specs.board_files.Files.{KeepsOthers};
ghost use Rattle.board_command.specs.Boards.{Boards};
ghost use Rattle.meant_commands.specs.file_commands.Freeze.{Freezes};
ghost use Rattle.mpy_tool.specs.Below as spec;
ghost use Rattle.mpy_tool.specs.Below.{MayLieBelow, library_below};
ghost use Rattle.mpy_tool.specs.Call.{call_of, texts};
ghost use Rattle.mpy_tool.specs.Doing.{DoesBy, Finishes};
ghost use Rattle.mpy_tool.specs.Order.{calls_ports, stands_alone, ChangesBy};

use crate::below::{image_version, or_nothing, release};
use crate::outside::Outside;
use bc_library::Library;
use board_command::board;
use meant_commands::{check, check_as, cross, dump, freeze, merge_files, migrate};
use mpy_base::NoMemory;
use mpy_endings::{Ended, Ending, file_names, say_ending, source_name, word_at};
use mpy_io::{Failed, Folder, Port, Sink};
use mpy_words::{Command, Order};
use std::alloc::Global;

/// Writes the image of the sources of the manifest of this name, over the library of a base, if one is ordered.
fn freeze_below<F: Folder>(
    alloc: Global,
    base: Option<usize>,
    below: Option<Library>,
    manifest: &str,
    written: &str,
    folder: &mut F,
) -> Ending
    requires { MayLieBelow below base }
    ensures went { Freezes (spec.image_version base) (library_below below) manifest.now written.now (F.files folder.old) (F.files folder.new) result }
    ensures folder_counts { Counts (F.count folder.old) (F.count folder.new) (is_folder_fault result) }
    ensures prints_nothing { is_out_fault result ≡ false }
{
    match or_nothing(alloc, below) {
        Ok(below) => {
            let version = image_version(base);
            freeze(alloc, version, &below, manifest, written, folder)
        }
        Err(NoMemory) => Ending::NoMemory,
    }
}

/// Runs the tasks of a plan on an image, over the library of a base, if one is ordered.
fn board_below<F: Folder, S: Sink>(
    alloc: Global,
    below: Option<Library>,
    image: &str,
    plan: &str,
    folder: &mut F,
    out: &mut S,
) -> Ended
    requires { IfSome below IsOpened }
    ensures went { Boards (library_below below) image.now plan.now (F.files folder.old) (F.files folder.new) (S.told out.old) (S.told out.new)
        result.place result.ending }
    ensures files { KeepsOthers MAX_TASKS (F.files folder.old) (F.files folder.new) }
    ensures folder_counts { Counts (F.count folder.old) (F.count folder.new) (is_folder_fault result.ending) }
    ensures out_counts { Counts (S.count out.old) (S.count out.new) (is_out_fault result.ending) }
{
    match or_nothing(alloc, below) {
        Ok(below) => board(alloc, &below, image, plan, folder, out),
        Err(NoMemory) => Ended {
            ending: Ending::NoMemory,
            place: 1,
        },
    }
}

/// Does what is ordered of a command that stands on no base, and may leave some of what is printed in the sink.
fn ran_alone<F: Folder, S: Sink>(
    order: Order,
    alloc: Global,
    words: &[String],
    folder: &mut F,
    out: &mut S,
) -> Ended
    requires level { order.level ≤ 3 }
    requires alone { stands_alone order.command ≡ true }
    ensures went { (below : Shelf) → DoesBy order (texts words.now) below order.command
        (F.files folder.old) (F.files folder.new) (S.told out.old) (S.told out.new) result.place result.ending }
    ensures folder_counts { Counts (F.count folder.old) (F.count folder.new) (is_folder_fault result.ending) }
    ensures out_counts { Counts (S.count out.old) (S.count out.new) (is_out_fault result.ending) }
    ensures files { ChangesBy (texts words.now) order.save order.command (F.files folder.old) (F.files folder.new) }
{
    let name = word_at(words, 1);
    match order.command {
        Command::Check => Ended::of_two(check(alloc, name, folder, out)),
        Command::CheckAs => {
            let file = word_at(words, 2);
            check_as(alloc, order.level, name, file, folder, out)
        }
        Command::Dump => Ended::of_two(dump(alloc, name, folder, out)),
        Command::Cross => {
            let stored = source_name(words, order.stored_name);
            let written = word_at(words, 2);
            Ended::of_two(cross(alloc, order.level, name, stored, written, folder))
        }
        Command::Merge => merge_files(alloc, file_names(words), name, folder),
        Command::Migrate => Ended::of_two(migrate(alloc, name, word_at(words, 2), folder)),
        Command::Go | Command::Freeze | Command::Run | Command::Resume => unreachable!(),
        Command::Board | Command::Stress => unreachable!(),
    }
}

/// Does what is ordered, over the library of a base, if one is ordered, and may leave some of what is printed in the sink.
fn ran<F: Folder, S: Sink>(
    order: Order,
    alloc: Global,
    words: &[String],
    below: Option<Library>,
    folder: &mut F,
    out: &mut S,
) -> Ended
    requires level { order.level ≤ 3 }
    requires no_run { calls_ports order.command ≡ false }
    requires below { MayLieBelow below order.base }
    ensures went { DoesBy order (texts words.now) (library_below below) order.command
        (F.files folder.old) (F.files folder.new) (S.told out.old) (S.told out.new) result.place result.ending }
    ensures folder_counts { Counts (F.count folder.old) (F.count folder.new) (is_folder_fault result.ending) }
    ensures out_counts { Counts (S.count out.old) (S.count out.new) (is_out_fault result.ending) }
    ensures files { ChangesBy (texts words.now) order.save order.command (F.files folder.old) (F.files folder.new) }
{
    let name = word_at(words, 1);
    match order.command {
        Command::Freeze => {
            let written = word_at(words, 2);
            Ended::of_two(freeze_below(alloc, order.base, below, name, written, folder))
        }
        Command::Board => board_below(alloc, below, name, word_at(words, 2), folder, out),
        Command::Check
        | Command::CheckAs
        | Command::Dump
        | Command::Cross
        | Command::Merge
        | Command::Migrate => {
            release(below);
            ran_alone(order, alloc, words, folder, out)
        }
        Command::Go | Command::Run | Command::Resume | Command::Stress => unreachable!(),
    }
}

/// Does what is ordered, over the library of a base, if one is ordered, and hands on what is printed.
fn done<F: Folder, S: Sink>(
    order: Order,
    alloc: Global,
    words: &[String],
    below: Option<Library>,
    folder: &mut F,
    out: &mut S,
) -> Ended
    requires level { order.level ≤ 3 }
    requires no_run { calls_ports order.command ≡ false }
    requires below { MayLieBelow below order.base }
    ensures went { DoesBy order (texts words.now) (library_below below) order.command
        (F.files folder.old) (F.files folder.new) (S.told out.old) (S.told out.new) result.place result.ending }
    ensures flushed { result.ending ≡ Done → S.held out.new ≡ [] }
    ensures folder_counts { Counts (F.count folder.old) (F.count folder.new) (is_folder_fault result.ending) }
    ensures out_counts { Counts (S.count out.old) (S.count out.new) (is_out_fault result.ending) }
    ensures files { ChangesBy (texts words.now) order.save order.command (F.files folder.old) (F.files folder.new) }
{
    let Ended { ending, place } = ran(order, alloc, words, below, folder, out);
    match ending {
        Ending::Done => match out.flush() {
            Ok(()) => Ended {
                ending: Ending::Done,
                place,
            },
            Err(Failed) => Ended {
                ending: Ending::WriteFault,
                place,
            },
        },
        ending => Ended { ending, place },
    }
}

/// Does what is ordered, over the library of a base, if one is ordered, says how it ended, and answers the exit status.
pub(crate) fn do_order<F: Folder, S: Sink, P: Port, E: Sink>(
    order: Order,
    alloc: Global,
    words: &[String],
    below: Option<Library>,
    outside: &mut Outside<F, S, P, E>,
) -> u8
    requires level { order.level ≤ 3 }
    requires no_run { calls_ports order.command ≡ false }
    requires below { MayLieBelow below order.base }
    ensures ended { let call = call_of F.Folder S.Sink P.Port E.Sink words.now outside.old outside.new result in
        Finishes order call (library_below below) order.command }
    ensures ports { outside.new.ports ≡ outside.old.ports }
    ensures flushed { IsRunStatus result → S.held outside.new.out ≡ [] }
    ensures handed_on { result ≡ 13 → S.held outside.new.out ≡ [] }
    ensures files { ChangesBy (texts words.now) order.save order.command (F.files outside.old.folder) (F.files outside.new.folder) }
{
    let ended = done(
        order,
        alloc,
        words,
        below,
        &mut outside.folder,
        &mut outside.out,
    );
    let name = word_at(words, ended.place);
    let _ = say_ending(&mut outside.say, name, &ended.ending);
    ended.ending.status()
}
