//! The top call.

ghost use Rattle.std.specs.Prelude.{◌≡◌, ◌≤◌, [], false, IfErr};
ghost use Rattle.mpy_words.specs.declared.order.Command.TheVariants as commands;
ghost use Rattle.mpy_words.specs.Given.{most_count, most_steps};
ghost use Rattle.mpy_words.specs.Words.{order_of, source_name, main_name, file_names, saved_name};
ghost use Rattle.meant_commands.specs.source_files.Sources.{stored};
ghost use Rattle.mpy_endings.specs.Ending.{IsRunStatus, status_of};
ghost use Rattle.mpy_endings.specs.Line.{Says, line_of};
ghost use Rattle.board_command.specs.command_files.Outside.{Ends, EndsAt, Writes, WritesOf};
ghost use Rattle.meant_commands.specs.file_commands.Check.{Checks};
ghost use Rattle.meant_commands.specs.file_commands.CheckAs.{ChecksAs};
ghost use Rattle.meant_commands.specs.file_commands.Cross.{Crosses};
ghost use Rattle.meant_commands.specs.file_commands.Dump.{Dumps};
ghost use Rattle.meant_commands.specs.file_commands.Merge.{Merges};
ghost use Rattle.meant_commands.specs.run_commands.Ready.{GoLibrary, RunLibrary};
ghost use Rattle.meant_commands.specs.run_commands.Run.{EndsRun, room_of};
ghost use Rattle.meant_commands.specs.run_commands.Save.{EndsRunTo};
ghost use Rattle.meant_commands.specs.run_commands.Resume.{EndsResume, ResumeLibrary};
ghost use Rattle.meant_commands.specs.run_commands.Suspended.{SavesRun};
ghost use Rattle.meant_commands.specs.GoMeant.{GoMeans};
ghost use Rattle.meant_commands.specs.Meant.{RunMeans};
ghost use Rattle.meant_commands.specs.ResumeMeant.{ResumeMeans};
ghost use Rattle.meant_commands.specs.file_commands.Freeze.{Freezes};
ghost use Rattle.meant_commands.specs.file_commands.Migrate.{Migrates};
ghost use Rattle.board_command.specs.Boards.{Boards};
ghost use Rattle.meant_commands.specs.run_commands.Stress.{EndsStress};
ghost use Rattle.mpy_tool.specs.Below.{Based, MayLieBelow, image_version, library_below};
ghost use Rattle.mpy_tool.specs.Call.{call_of, texts, LeavesCounts, Orders, OrdersOne, OrdersTwo, Shows, ShowsPorts};
ghost use Rattle.mpy_tool.specs.Doing.{ActsBy, ObeysBy};
ghost use Rattle.mpy_tool.specs.Making.{StressMeans};
ghost use Rattle.mpy_tool.specs.Order.{RefusesWords, base_by, calls_ports, calls_ports_in, makes_source, resumes_run, runs_library, ChangesBy, ChangesIn};

use crate::below::release;
use crate::doing::do_order;
use crate::outside::Outside;
use crate::resuming::resume_order;
use crate::running::run_order;
use bc_library::Library;
use board_command::{meant_law, open_base};
use meant_commands::{go_means_law, leaves_law, resume_means_law, stress};
use mpy_base::Room;
use mpy_endings::{Ending, say_ending, say_words, word_at};
use mpy_io::{Folder, Port, Sink};
use mpy_words::{Command, Order, order_of};
use std::alloc::Global;

/// The status of words that are of no order.
const WORDS_STATUS: u8 = 2;

/// Does a command run the library of a file or a source of the folder?
fn runs(command: Command) -> bool
    ensures { result ≡ runs_library command }
{
    match command {
        Command::Go | Command::Run => true,
        Command::Check | Command::CheckAs | Command::Dump => false,
        Command::Cross | Command::Merge | Command::Resume => false,
        Command::Freeze | Command::Migrate | Command::Board | Command::Stress => false,
    }
}

/// Does a command run a source that it makes?
fn makes(command: Command) -> bool
    ensures { result ≡ makes_source command }
{
    match command {
        Command::Stress => true,
        Command::Go | Command::Run | Command::Resume => false,
        Command::Check | Command::CheckAs | Command::Dump => false,
        Command::Cross | Command::Merge => false,
        Command::Freeze | Command::Migrate | Command::Board => false,
    }
}

/// Does a command go on from a snapshot?
fn resumes(command: Command) -> bool
    ensures { result ≡ resumes_run command }
{
    match command {
        Command::Resume => true,
        Command::Go | Command::Run | Command::Stress => false,
        Command::Check | Command::CheckAs | Command::Dump => false,
        Command::Cross | Command::Merge => false,
        Command::Freeze | Command::Migrate | Command::Board => false,
    }
}

/// The place of the base's name, of a command that may stand on a base.
fn base_place(order: Order) -> Option<usize>
    ensures { result ≡ base_by order.command order.base }
{
    match order.command {
        Command::Freeze | Command::Run | Command::Resume | Command::Board => order.base,
        Command::Go | Command::Check | Command::CheckAs | Command::Dump => None,
        Command::Cross => None,
        Command::Merge | Command::Migrate | Command::Stress => None,
    }
}

/// Runs the source that is ordered to be made, and answers the exit status. It reads none of its words.
fn make<F: Folder, S: Sink, P: Port, E: Sink>(
    order: Order,
    alloc: Global,
    below: Option<Library>,
    outside: &mut Outside<F, S, P, E>,
) -> u8
    requires count { order.count ≤ most_count }
    ensures ended { let call = call_of F.Folder S.Sink P.Port E.Sink [] outside.old outside.new result in
        ShowsPorts call (EndsStress order.seed order.count (room_of order) order.steps) }
    ensures flushed { IsRunStatus result → S.held outside.new.out ≡ [] }
    ensures handed_on { result ≡ 13 → S.held outside.new.out ≡ [] }
    ensures files { F.files outside.new.folder ≡ F.files outside.old.folder }
{
    release(below);
    let room = Room {
        cells: order.cells,
        bytes: order.bytes,
    };
    stress(
        alloc,
        order.seed,
        order.count,
        room,
        order.steps,
        &mut outside.out,
        &mut outside.say,
        &mut outside.ports,
    )
}

/// Does what is ordered, over the library of a base, if one is ordered, and answers the exit status.
fn act<F: Folder, S: Sink, P: Port, E: Sink>(
    order: Order,
    alloc: Global,
    words: &[String],
    below: Option<Library>,
    outside: &mut Outside<F, S, P, E>,
) -> u8
    requires level { order.level ≤ 3 }
    requires count { order.count ≤ most_count }
    requires steps { order.steps ≤ most_steps }
    requires below { MayLieBelow below order.base }
    ensures ended { let call = call_of F.Folder S.Sink P.Port E.Sink words.now outside.old outside.new result in
        ActsBy order call (library_below below) order.command }
    ensures ports { calls_ports order.command ≡ false → outside.new.ports ≡ outside.old.ports }
    ensures flushed { IsRunStatus result → S.held outside.new.out ≡ [] }
    ensures handed_on { result ≡ 13 → S.held outside.new.out ≡ [] }
    ensures files { ChangesBy (texts words.now) order.save order.command (F.files outside.old.folder) (F.files outside.new.folder) }
{
    if runs(order.command) {
        return run_order(order, alloc, words, below, outside);
    }
    if makes(order.command) {
        return make(order, alloc, below, outside);
    }
    if resumes(order.command) {
        return resume_order(order, alloc, words, below, outside);
    }
    do_order(order, alloc, words, below, outside)
}

/// Says why the base of this name isn't opened, and answers the exit status.
fn say_refused<E: Sink>(base: &str, ending: Ending, say: &mut E) -> u8
    ensures status { result ≡ status_of ending }
    ensures says { Says (E.told say.old) (E.told say.new) (E.count say.old) (E.count say.new) (line_of base.now ending) }
{
    let _ = say_ending(say, base, &ending);
    ending.status()
}

/// Does what is ordered, over the base that is ordered, if one is, and answers the exit status.
fn obey<F: Folder, S: Sink, P: Port, E: Sink>(
    order: Order,
    alloc: Global,
    words: &[String],
    outside: &mut Outside<F, S, P, E>,
) -> u8
    requires level { order.level ≤ 3 }
    requires count { order.count ≤ most_count }
    requires steps { order.steps ≤ most_steps }
    ensures ended { let call = call_of F.Folder S.Sink P.Port E.Sink words.now outside.old outside.new result in
        ObeysBy order call order.command }
    ensures ports { calls_ports order.command ≡ false → outside.new.ports ≡ outside.old.ports }
    ensures flushed { IsRunStatus result → S.held outside.new.out ≡ [] }
    ensures handed_on { result ≡ 13 → S.held outside.new.out ≡ [] }
    ensures files { ChangesBy (texts words.now) order.save order.command (F.files outside.old.folder) (F.files outside.new.folder) }
{
    let Some(at) = base_place(order) else {
        return act(order, alloc, words, None, outside);
    };
    let base = word_at(words, at);
    match open_base(alloc, base, &mut outside.folder) {
        Ok(below) => act(order, alloc, words, Some(below), outside),
        Err(ending) => say_refused(base, ending, &mut outside.say),
    }
}

/// Does what the words order, the program's own name left out, and answers the exit status.
pub fn mpy<F: Folder, S: Sink, P: Port, E: Sink>(
    alloc: Global,
    words: &[String],
    outside: &mut Outside<F, S, P, E>,
) -> u8
    // No order: the first fault of the words is said.
    ensures words { let call = call_of F.Folder S.Sink P.Port E.Sink words.now outside.old outside.new result in
        IfErr (order_of call.words) (λ fault. Shows call (RefusesWords call.words fault)) }

    // go SRC: the library that SRC and the sources that it imports are compiled to is run, in the room and for the steps that are
    // ordered, and its output is printed; or what kept it from that is said.
    ensures go { let call = call_of F.Folder S.Sink P.Port E.Sink words.now outside.old outside.new result in
        OrdersOne call commands.Go (λ order src.
        ShowsPorts call (EndsRun (GoLibrary order.level) (room_of order) order.steps src)) }

    // check FILE: how many codes are verified is printed, or what keeps the file from it is said.
    ensures check { let call = call_of F.Folder S.Sink P.Port E.Sink words.now outside.old outside.new result in
        OrdersOne call commands.Check (λ order file. Shows call (Ends Checks file)) }

    // check SRC FILE: how many codes the file has is printed where it is a translation of the source at the level that is ordered, whoever
    // made it, or what differs first, or keeps them from being compared, is said.
    ensures check_as { let call = call_of F.Folder S.Sink P.Port E.Sink words.now outside.old outside.new result in
        OrdersTwo call commands.CheckAs (λ order src file.
        Shows call (EndsAt (λ old new before behind. ChecksAs order.level old src file before behind) call.words)) }

    // dump FILE: what the file holds is listed, or what keeps it from being read is said.
    ensures dump { let call = call_of F.Folder S.Sink P.Port E.Sink words.now outside.old outside.new result in
        OrdersOne call commands.Dump (λ order file. Shows call (Ends Dumps file)) }

    // cross SRC FILE: FILE becomes the file of the source, and nothing is printed, or what kept it from that is said.
    ensures cross { let call = call_of F.Folder S.Sink P.Port E.Sink words.now outside.old outside.new result in
        OrdersTwo call commands.Cross (λ order src file.
        let source = stored (source_name call.words order.stored_name) in
        Shows call (Writes (Crosses order.level src source file) src file)) }

    // merge OUT FILE..: OUT becomes the merged file of the others, and nothing is printed, or what kept it from that is said.
    ensures merge { let call = call_of F.Folder S.Sink P.Port E.Sink words.now outside.old outside.new result in
        OrdersOne call commands.Merge (λ order out. Shows call (WritesOf (Merges (file_names call.words) out) call.words)) }

    // freeze MANIFEST OUT: OUT becomes the image of the manifest's sources, over the base that is ordered, if one is, and nothing is
    // printed, or what kept it from that is said.
    ensures freeze { let call = call_of F.Folder S.Sink P.Port E.Sink words.now outside.old outside.new result in
        OrdersTwo call commands.Freeze (λ order manifest out. Based call order.base (λ below.
        Shows call (Writes (Freezes (image_version order.base) below manifest out) manifest out))) }

    // migrate IN OUT: OUT becomes the image in version 2, and nothing is printed, or what kept it from that is said.
    ensures migrate { let call = call_of F.Folder S.Sink P.Port E.Sink words.now outside.old outside.new result in
        OrdersTwo call commands.Migrate (λ order image out. Shows call (Writes (Migrates image out) image out)) }

    // run FILE: the library of FILE is run, in the room and for the steps that are ordered, and its output is printed; or what kept
    // it from that is said. A file that begins as an image is one, over the base that is ordered, if one is, and the module that is
    // ordered its main one. Where the run takes all its steps, its state is saved to the file that is ordered for it, if one is.
    ensures run { let call = call_of F.Folder S.Sink P.Port E.Sink words.now outside.old outside.new result in
        OrdersOne call commands.Run (λ order file. Based call order.base (λ below.
        let main = main_name call.words order.main_name in
        ShowsPorts call (EndsRunTo (saved_name call.words order.save) (RunLibrary below main) (room_of order) order.steps file))) }

    // resume FILE SNAP: the machine of the snapshot SNAP, a state of the library of FILE, goes on for the steps that are ordered, in its
    // own room, and its output is printed; or what kept it from that is said. FILE and the base are as those of run, and so is the file
    // to which the state is saved where all the steps are taken.
    ensures resume { let call = call_of F.Folder S.Sink P.Port E.Sink words.now outside.old outside.new result in
        OrdersTwo call commands.Resume (λ order file snap. Based call order.base (λ below.
        ShowsPorts call (EndsResume (ResumeLibrary below) order.steps file snap call.words order.save))) }

    // board IMAGE PLAN: the tasks of the plan are run by turns on the image, over the base that is ordered, if one is; the output of
    // each goes to its file, and a line for each is printed; or what kept them from that is said.
    ensures board { let call = call_of F.Folder S.Sink P.Port E.Sink words.now outside.old outside.new result in
        OrdersTwo call commands.Board (λ order image plan. Based call order.base (λ below.
        Shows call (EndsAt (Boards below image plan) call.words))) }

    // stress SEED COUNT: how long the made source is and how many codes it has are printed, and then it is run as go runs a source;
    // or what kept it from that is said.
    ensures stress { let call = call_of F.Folder S.Sink P.Port E.Sink words.now outside.old outside.new result in
        Orders call commands.Stress (λ order.
        ShowsPorts call (EndsStress order.seed order.count (room_of order) order.steps)) }

    // `go` and `run` print and end as their program means, and stop earlier only at their last step: `go` as that of the sources, and
    // `run` as each whose units the library has.
    ensures go_means { let call = call_of F.Folder S.Sink P.Port E.Sink words.now outside.old outside.new result in
        OrdersOne call commands.Go (λ order src.
        ShowsPorts call (GoMeans order.level (room_of order) order.steps src)) }
    ensures run_means { let call = call_of F.Folder S.Sink P.Port E.Sink words.now outside.old outside.new result in
        OrdersOne call commands.Run (λ order file. Based call order.base (λ below.
        let main = main_name call.words order.main_name in
        ShowsPorts call (RunMeans (RunLibrary below main) (room_of order) order.steps file))) }

    // Where run takes all its steps and saves its state, SNAP is the snapshot of a run that is suspended. `resume` of
    // such a snapshot does with that run as its program means: what both print together, how it ends and what it leaves
    // of the ports; it stops earlier only at its last step, and refuses no such snapshot.
    ensures suspends { let call = call_of F.Folder S.Sink P.Port E.Sink words.now outside.old outside.new result in
        OrdersOne call commands.Run (λ order file. Based call order.base (λ below.
        let main = main_name call.words order.main_name in
        let saved = saved_name call.words order.save in
        ShowsPorts call (SavesRun saved (RunLibrary below main) (room_of order) order.steps file))) }
    ensures resume_means { let call = call_of F.Folder S.Sink P.Port E.Sink words.now outside.old outside.new result in
        OrdersTwo call commands.Resume (λ order file snap. Based call order.base (λ below.
        ShowsPorts call (ResumeMeans (ResumeLibrary below) order.steps file snap))) }

    // With the status of a run, stress printed its lines, and behind them it printed and ended as the made source means, as go does.
    ensures stress_means { let call = call_of F.Folder S.Sink P.Port E.Sink words.now outside.old outside.new result in
        Orders call commands.Stress (λ order.
        ShowsPorts call (StressMeans order.seed order.count (room_of order) order.steps)) }

    // Only go, run, resume and stress call ports.
    ensures ports { calls_ports_in (order_of (texts words.now)) ≡ false → outside.new.ports ≡ outside.old.ports }

    // With a status other than 7 and 8 no call of the folder and of the output's sink failed.
    ensures counts { let call = call_of F.Folder S.Sink P.Port E.Sink words.now outside.old outside.new result in
        LeavesCounts call }

    // With status 0, and with 1, 5, 6 and 13 of a run, nothing of what is printed is held back.
    ensures flushed { IsRunStatus result → S.held outside.new.out ≡ [] }
    ensures handed_on { result ≡ 13 → S.held outside.new.out ≡ [] }

    // No command but cross, merge, freeze, migrate, board and a run that saves its state, also one that went on, changes a file, and these none but FILE, OUT,
    // SNAP and the files of the tasks.
    ensures files { let call = call_of F.Folder S.Sink P.Port E.Sink words.now outside.old outside.new result in
        ChangesIn call.words (order_of call.words) call.old.files call.new.files }
{
    go_means_law();
    meant_law();
    leaves_law();
    resume_means_law();
    match order_of(words) {
        Ok(order) => obey(order, alloc, words, outside),
        Err(fault) => {
            // A failed put on `say` changes nothing else.
            let _ = say_words(&mut outside.say, words, fault);
            WORDS_STATUS
        }
    }
}
