//! The line that is said at the end of a command.

ghost use Rattle.std.specs.Prelude.{◌≡◌, ◌++◌, true, map, string_bytes, codes, decimal};
ghost use Rattle.image_runs.specs.library_files.mpy_reader.Fault as file;
ghost use Rattle.bc_verify.specs.Rule as rules;
ghost use Rattle.mpy_merge.specs.Numbers as merges;
ghost use Rattle.mpy_endings.specs.Ending.{is_stop_said, is_said};
ghost use Rattle.mpy_endings.specs.Line as spec;
ghost use Rattle.mpy_endings.specs.Line.{Puts, words_line, source_line, file_line, tag_text, path_text, verify_line, merge_line, stop_line, line_of};

use crate::boards::say_board;
use crate::differing::say_difference;
use crate::ending::{Ending, Stop};
use crate::freezing::{say_frozen, say_main};
use crate::put::{gap, put, put_head, put_named, put_three, put_two};
use crate::snapshots::say_snapshot;
use crate::words::word_at;
use bc_verify::{Rule, VerifyFault};
use image_runs::Limit;
use itoa::Buffer;
use mpy_base::SourceFault;
use mpy_io::{Failed, Sink};
use mpy_merge::MergeFault;
use mpy_reader::FileFault;
use mpy_words::WordFault;

/// What is said of a fault of the words.
fn fault_text(fault: WordFault) -> &'static [u8]
    ensures { result.now ≡ spec.fault_text fault }
{
    match fault {
        WordFault::NoCommand => b"mpy: words 1 NoCommand",
        WordFault::Unknown(_) => b"mpy: words 2 Unknown",
        WordFault::MissingName(_) | WordFault::MissingValue(_) => b"mpy: words 3 Missing",
        WordFault::BadNumber(_) => b"mpy: words 4 BadNumber",
        WordFault::Twice(_) => b"mpy: words 5 Twice",
    }
}

/// The word of the command that a fault is about, or what it lacks.
fn fault_word(words: &[String], fault: WordFault) -> &[u8]
    ensures { result.now ≡ spec.fault_word (map string_bytes words.now) fault }
{
    match fault {
        WordFault::NoCommand => b"",
        WordFault::Unknown(at) | WordFault::BadNumber(at) => word_at(words, at).as_bytes(),
        WordFault::MissingName(wanted) => wanted.name().as_bytes(),
        WordFault::MissingValue(setting) | WordFault::Twice(setting) => setting
            .spelling()
            .as_bytes(),
    }
}

/// Says why the words are of no order.
pub fn say_words<E: Sink>(say: &mut E, words: &[String], fault: WordFault) -> Result<(), Failed>
    ensures { Puts (E.told say.old) (E.told say.new) (E.count say.old) (E.count say.new)
        (words_line (map string_bytes words.now) fault) result }
{
    let word = fault_word(words, fault);
    put(say, fault_text(fault))?;
    put_three(say, gap(word), word, b"\n")
}

/// Says why the source of this name isn't accepted.
pub(crate) fn say_fault<E: Sink>(
    say: &mut E,
    name: &[u8],
    fault: &SourceFault,
) -> Result<(), Failed>
    ensures { Puts (E.told say.old) (E.told say.new) (E.count say.old) (E.count say.new)
        (source_line name.now fault.now) result }
{
    let mut number = Buffer::new();
    let mut line = Buffer::new();
    let number = number.format(fault.code.number()).as_bytes();
    let line = line.format(fault.line).as_bytes();
    let word = fault.word.bytes();
    put_three(say, b"mpy: ", name, b": source ")?;
    put_three(say, number, b" ", fault.code.name().as_bytes())?;
    put_three(say, gap(word), word, b" line ")?;
    put_two(say, line, b"\n")
}

/// Puts the number and the name of a file's fault.
fn put_fault<E: Sink>(say: &mut E, fault: FileFault) -> Result<(), Failed>
    ensures { Puts (E.told say.old) (E.told say.new) (E.count say.old) (E.count say.new)
        (decimal (file.number_of fault) ++ codes " " ++ file.name_of fault) result }
{
    let mut digits = Buffer::new();
    let digits = digits.format(fault.number()).as_bytes();
    put_three(say, digits, b" ", fault.name().as_bytes())
}

/// Puts the number and the name of a rule.
fn put_rule<E: Sink>(say: &mut E, broken: Rule) -> Result<(), Failed>
    ensures { Puts (E.told say.old) (E.told say.new) (E.count say.old) (E.count say.new)
        (decimal (rules.number_of broken) ++ codes " " ++ rules.name_of broken) result }
{
    let mut digits = Buffer::new();
    let digits = digits.format(broken.number()).as_bytes();
    put_three(say, digits, b" ", broken.name().as_bytes())
}

/// Puts the tag that a fault of an object names.
fn put_tag<E: Sink>(say: &mut E, tag: Option<u8>) -> Result<(), Failed>
    ensures { Puts (E.told say.old) (E.told say.new) (E.count say.old) (E.count say.new) (tag_text tag) result }
{
    match tag {
        None => put(say, b""),
        Some(tag) => {
            let mut digits = Buffer::new();
            put_two(say, b" ", digits.format(tag).as_bytes())
        }
    }
}

/// Says why the file of this name isn't read.
fn say_unread<E: Sink>(say: &mut E, name: &str, fault: FileFault) -> Result<(), Failed>
    ensures { Puts (E.told say.old) (E.told say.new) (E.count say.old) (E.count say.new)
        (file_line name.now fault) result }
{
    put_head(say, name, b": file ")?;
    put_fault(say, fault)?;
    put_tag(say, fault.tag())?;
    put(say, b"\n")
}

/// Puts the places of a path with dots between.
fn put_path<E: Sink>(say: &mut E, path: &[usize]) -> Result<(), Failed>
    ensures { Puts (E.told say.old) (E.told say.new) (E.count say.old) (E.count say.new) (path_text path.now) result }
{
    let Some((place, behind)) = path.split_first() else {
        return put(say, b"");
    };
    let mut digits = Buffer::new();
    let digits = digits.format(*place).as_bytes();
    if behind.is_empty() {
        return put(say, digits);
    }
    put_two(say, digits, b".")?;
    put_path(say, behind)
}

/// Puts which code it is by its path.
pub(crate) fn put_code<E: Sink>(say: &mut E, path: &[usize]) -> Result<(), Failed>
    ensures { Puts (E.told say.old) (E.told say.new) (E.count say.old) (E.count say.new)
        (codes " code " ++ path_text path.now) result }
{
    put(say, b" code ")?;
    put_path(say, path)
}

/// Puts an offset and ends the line.
fn put_offset<E: Sink>(say: &mut E, offset: usize) -> Result<(), Failed>
    ensures { Puts (E.told say.old) (E.told say.new) (E.count say.old) (E.count say.new)
        (codes " offset " ++ decimal offset ++ codes "\n") result }
{
    let mut digits = Buffer::new();
    put_three(say, b" offset ", digits.format(offset).as_bytes(), b"\n")
}

/// Says why the module of the file of this name isn't verified.
fn say_unverified<E: Sink>(say: &mut E, name: &str, fault: &VerifyFault) -> Result<(), Failed>
    ensures { Puts (E.told say.old) (E.told say.new) (E.count say.old) (E.count say.new)
        (verify_line name.now fault.now) result }
{
    put_head(say, name, b": verify ")?;
    put_rule(say, fault.rule)?;
    put_code(say, fault.path.as_slice())?;
    put_offset(say, fault.offset)
}

/// Puts the number and the name of a fault of a merge.
fn put_merge_fault<E: Sink>(say: &mut E, fault: MergeFault) -> Result<(), Failed>
    ensures { Puts (E.told say.old) (E.told say.new) (E.count say.old) (E.count say.new)
        (decimal (merges.number_of fault) ++ codes " " ++ merges.name_of fault) result }
{
    let mut digits = Buffer::new();
    let digits = digits.format(fault.number()).as_bytes();
    put_three(say, digits, b" ", fault.name().as_bytes())
}

/// Puts the place of the module or the number of the line that a fault names.
pub(crate) fn put_place<E: Sink>(say: &mut E, place: Option<usize>) -> Result<(), Failed>
    ensures { Puts (E.told say.old) (E.told say.new) (E.count say.old) (E.count say.new) (tag_text place) result }
{
    match place {
        None => put(say, b""),
        Some(place) => {
            let mut digits = Buffer::new();
            put_two(say, b" ", digits.format(place).as_bytes())
        }
    }
}

/// Says why the modules can't be merged.
fn say_unmerged<E: Sink>(say: &mut E, fault: MergeFault) -> Result<(), Failed>
    ensures { Puts (E.told say.old) (E.told say.new) (E.count say.old) (E.count say.new) (merge_line fault) result }
{
    put(say, b"mpy: merge ")?;
    put_merge_fault(say, fault)?;
    put_place(say, fault.place())?;
    put(say, b"\n")
}

/// Says how many steps a run took that didn't end.
fn say_steps<E: Sink>(say: &mut E, count: u64) -> Result<(), Failed>
    ensures { Puts (E.told say.old) (E.told say.new) (E.count say.old) (E.count say.new)
        (codes "mpy: step limit " ++ decimal count ++ codes "\n") result }
{
    let mut digits = Buffer::new();
    put_three(
        say,
        b"mpy: step limit ",
        digits.format(count).as_bytes(),
        b"\n",
    )
}

/// Says what kept a file or a source from being run to its end, if that wasn't said in the run.
fn say_stop<E: Sink>(say: &mut E, name: &str, stop: &Stop) -> Result<(), Failed>
    ensures line { Puts (E.told say.old) (E.told say.new) (E.count say.old) (E.count say.new) (stop_line name.now stop.now) result }
    ensures said { is_stop_said stop.now ≡ true → say.new ≡ say.old }
{
    match stop {
        Stop::Past(Limit::TooMany) => put(say, b"mpy: library TooMany\n"),
        Stop::Past(Limit::Names) => put(say, b"mpy: library Names\n"),
        Stop::LibraryFault(path) => put_named(say, b"mpy: read fault", path.bytes()),
        Stop::LibraryUnaccepted(source) => say_fault(say, source.path.bytes(), &source.fault),
        Stop::Raised | Stop::Memory => Ok(()),
        Stop::Steps(count) => say_steps(say, *count),
        Stop::Unsaved => put(say, b"mpy: snapshot TooBig\n"),
        Stop::Unresumed(fault) => say_snapshot(say, name, *fault),
    }
}

/// Says how a command on the file of this name ended.
pub fn say_ending<E: Sink>(say: &mut E, name: &str, ending: &Ending) -> Result<(), Failed>
    ensures line { Puts (E.told say.old) (E.told say.new) (E.count say.old) (E.count say.new)
        (line_of name.now ending.now) result }
    ensures said { is_said ending.now ≡ true → say.new ≡ say.old }
{
    match ending {
        Ending::Done => Ok(()),
        Ending::Unaccepted(fault) => say_fault(say, name.as_bytes(), fault),
        Ending::Unread(fault) => say_unread(say, name, *fault),
        Ending::Unverified(fault) => say_unverified(say, name, fault),
        Ending::Unmerged(fault) => say_unmerged(say, *fault),
        Ending::Unopened(fault) => say_main(say, name, fault),
        Ending::Unfrozen(fault) => say_frozen(say, name, fault),
        Ending::Unboarded(fault) => say_board(say, name, fault),
        Ending::Different(difference) => say_difference(say, name, difference),
        Ending::Stopped(stop) => say_stop(say, name, stop),
        Ending::ReadFault => put_named(say, b"mpy: read fault", name.as_bytes()),
        Ending::WriteFault => put(say, b"mpy: write fault out\n"),
        Ending::Unwritten => put_named(say, b"mpy: write fault", name.as_bytes()),
        Ending::NoMemory => put(say, b"mpy: memory\n"),
        Ending::Absent => put_named(say, b"mpy: absent", name.as_bytes()),
    }
}
