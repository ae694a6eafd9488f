//! The command `check` of a file against a source: what differs first, or a line with the number of the file's codes.

ghost use Rattle.std.specs.Prelude.{◌≡◌, ◌≤◌, ℕ, List, Option, Some, false, IfOk, IfErr};
ghost use Rattle.mpy_io.specs.Count.{Counts};
ghost use Rattle.mpy_io.specs.Files.{FileOf};
ghost use Rattle.command_files.specs.mpy_writer.mpy_tree.File.{IsFile};
ghost use Rattle.command_files.specs.Folder.{MayHold};
ghost use Rattle.command_files.specs.mpy_endings.Ending.{is_folder_fault, is_out_fault};
ghost use Rattle.command_files.specs.mpy_endings.Line.{Puts};
ghost use Rattle.file_commands.specs.CheckAs.{HoldsTranslation, ChecksAs, translation_line};
ghost use Rattle.file_commands.specs.Texts.{HoldsText};

use bc_resolved::resolves_law;
use bc_verify::count;
use command_files::{Difference, Ended, Ending, compiled_module, put_three, read_file};
use itoa::Buffer;
use mpy_base::limits::MAX_DEPTH;
use mpy_base::{NoMemory, Refused, SourceFault};
use mpy_io::{Failed, Folder, Sink};
use mpy_reader::read;
use mpy_tree::{RawModule, module_law};
use std::alloc::Global;
use trans_check::{Compared, compare, stored_source};

/// The place of the source's name among the words of the command.
const SOURCE: usize = 1;

/// The place of the file's name among the words of the command.
const FILE: usize = 2;

/// The text of the source of this name, `None` where it is too long to be read: that is a fault of the source, which is told only once
/// the file is read.
fn source_text<F: Folder>(
    alloc: Global,
    name: &str,
    folder: &mut F,
) -> Result<Option<Vec<u8>>, Ending>
    ensures found { IfOk result (HoldsText (F.files folder.old) name.now) }
    ensures refused { IfErr result (λ ending. (level : ℕ) (file : List ℕ) (told : Option (List ℕ))
        → ChecksAs level (F.files folder.old) name.now file told told 1 ending) }
    ensures ok_counts { IfOk result (λ text. F.count folder.new ≡ F.count folder.old) }
    ensures err_counts { IfErr result (λ ending. Counts (F.count folder.old) (F.count folder.new) (is_folder_fault ending)) }
    ensures quiet { IfErr result (λ ending. is_out_fault ending ≡ false) }
    ensures files { F.files folder.new ≡ F.files folder.old }
{
    match read_file(alloc, name, folder) {
        Ok(text) => Ok(Some(text)),
        Err(ending) => match ending {
            Ending::Unread(_) => Ok(None),
            other => Err(other),
        },
    }
}

/// How many codes the file has, where its module is a translation of the source of this text, or what keeps it from that, with the
/// place of the word that the line names.
fn codes_compared(alloc: Global, level: u8, text: &[u8], have: &RawModule) -> Result<u64, Ended>
    requires { level ≤ 3 }
    ensures same { IfOk result (λ count. (files : Option FileOf) (source file bytes : List ℕ) → MayHold files source (Some text.now)
        → MayHold files file (Some bytes) → IsFile bytes have.now → HoldsTranslation level files source file count) }
    ensures refused { IfErr result (λ ended. (files : Option FileOf) (source file bytes : List ℕ) (told : Option (List ℕ))
        → MayHold files source (Some text.now)
        → MayHold files file (Some bytes) → IsFile bytes have.now → ChecksAs level files source file told told ended.place ended.ending) }
    ensures no_fault { IfErr result (λ ended. is_folder_fault ended.ending ≡ false) }
    ensures quiet { IfErr result (λ ended. is_out_fault ended.ending ≡ false) }
{
    resolves_law();
    module_law(have);
    let want = match compiled_module(alloc, text, level, stored_source(have)) {
        Ok(want) => want,
        Err(Refused::Fault(fault)) => {
            return Err(Ended {
                ending: Ending::Unaccepted(fault),
                place: SOURCE,
            });
        }
        Err(Refused::NoMemory) => {
            return Err(Ended {
                ending: Ending::NoMemory,
                place: SOURCE,
            });
        }
    };
    match compare(alloc, &want, have) {
        Ok(Compared::Same) => Ok(count(have.code(), MAX_DEPTH)),
        Ok(Compared::Differs { path, what, at }) => Err(Ended {
            ending: Ending::Different(Difference { path, what, at }),
            place: FILE,
        }),
        Err(NoMemory) => Err(Ended {
            ending: Ending::NoMemory,
            place: FILE,
        }),
    }
}

/// The same of the file of these bytes. A source that is too long to be read is refused where another one would be, once the file is read.
fn translation(alloc: Global, level: u8, text: Option<Vec<u8>>, bytes: &[u8]) -> Result<u64, Ended>
    requires { level ≤ 3 }
    ensures same { IfOk result (λ count. (files : Option FileOf) (source file : List ℕ) → HoldsText files source text
        → MayHold files file (Some bytes.now) → HoldsTranslation level files source file count) }
    ensures refused { IfErr result (λ ended. (files : Option FileOf) (source file : List ℕ) (told : Option (List ℕ)) → HoldsText files source text
        → MayHold files file (Some bytes.now) → ChecksAs level files source file told told ended.place ended.ending) }
    ensures no_fault { IfErr result (λ ended. is_folder_fault ended.ending ≡ false) }
    ensures quiet { IfErr result (λ ended. is_out_fault ended.ending ≡ false) }
{
    resolves_law();
    let have = match read(alloc, bytes) {
        Ok(have) => have,
        Err(Refused::Fault(fault)) => {
            return Err(Ended {
                ending: Ending::Unread(fault),
                place: FILE,
            });
        }
        Err(Refused::NoMemory) => {
            return Err(Ended {
                ending: Ending::NoMemory,
                place: FILE,
            });
        }
    };
    module_law(&have);
    match text {
        Some(text) => codes_compared(alloc, level, &text, &have),
        None => Err(Ended {
            ending: Ending::Unaccepted(SourceFault::too_long(alloc)),
            place: SOURCE,
        }),
    }
}

/// Prints how many codes a translation has.
fn put_translation<S: Sink>(codes: u64, out: &mut S) -> Result<(), Failed>
    ensures { Puts (S.told out.old) (S.told out.new) (S.count out.old) (S.count out.new)
        (translation_line codes) result }
{
    let mut number = Buffer::new();
    put_three(out, b"translation ", number.format(codes).as_bytes(), b"\n")
}

/// Checks the file of the second name against the source of the first, as it is compiled at a level.
pub fn check_as<F: Folder, S: Sink>(
    alloc: Global,
    level: u8,
    source: &str,
    file: &str,
    folder: &mut F,
    out: &mut S,
) -> Ended
    requires { level ≤ 3 }
    ensures went { ChecksAs level (F.files folder.old) source.now file.now (S.told out.old) (S.told out.new) result.place result.ending }
    ensures folder_counts { Counts (F.count folder.old) (F.count folder.new) (is_folder_fault result.ending) }
    ensures out_counts { Counts (S.count out.old) (S.count out.new) (is_out_fault result.ending) }
    ensures files { F.files folder.new ≡ F.files folder.old }
{
    let text = match source_text(alloc, source, folder) {
        Ok(text) => text,
        Err(ending) => {
            return Ended {
                ending,
                place: SOURCE,
            };
        }
    };
    let bytes = match read_file(alloc, file, folder) {
        Ok(bytes) => bytes,
        Err(ending) => {
            return Ended {
                ending,
                place: FILE,
            };
        }
    };
    match translation(alloc, level, text, &bytes) {
        Ok(codes) => match put_translation(codes, out) {
            Ok(()) => Ended {
                ending: Ending::Done,
                place: FILE,
            },
            Err(Failed) => Ended {
                ending: Ending::WriteFault,
                place: FILE,
            },
        },
        Err(ended) => ended,
    }
}
