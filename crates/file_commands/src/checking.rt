//! The command `check`: a file is read and verified, and a line with the number of its codes is put.

ghost use Rattle.std.specs.Prelude.{◌≡◌};
ghost use Rattle.mpy_io.specs.Count.{Counts};
ghost use Rattle.command_files.specs.mpy_endings.Ending.{is_folder_fault, is_out_fault};
ghost use Rattle.file_commands.specs.Check.{Judges, Checks, verified_line};
ghost use Rattle.command_files.specs.mpy_endings.Line.{Puts};

use command_files::{Ending, put_three, read_file, verified};
use itoa::Buffer;
use mpy_io::{Failed, Folder, Sink};
use std::alloc::Global;

/// How many codes the module of a file's bytes has, or what keeps it from being verified.
fn judged(alloc: Global, bytes: &[u8]) -> Result<u64, Ending>
    ensures { Judges bytes.now result }
{
    match verified(alloc, bytes) {
        Ok(verified) => Ok(verified.codes()),
        Err(ending) => Err(ending),
    }
}

/// Prints how many codes are verified.
fn put_verified<S: Sink>(codes: u64, out: &mut S) -> Result<(), Failed>
    ensures { Puts (S.told out.old) (S.told out.new) (S.count out.old) (S.count out.new)
        (verified_line codes) result }
{
    let mut number = Buffer::new();
    put_three(out, b"verified ", number.format(codes).as_bytes(), b"\n")
}

/// Checks the file of this name.
pub fn check<F: Folder, S: Sink>(alloc: Global, name: &str, folder: &mut F, out: &mut S) -> Ending
    ensures went { Checks (F.files folder.old) name.now result (S.told out.old) (S.told out.new) }
    ensures folder_counts { Counts (F.count folder.old) (F.count folder.new) (is_folder_fault result) }
    ensures out_counts { Counts (S.count out.old) (S.count out.new) (is_out_fault result) }
    ensures files { F.files folder.new ≡ F.files folder.old }
{
    let bytes = match read_file(alloc, name, folder) {
        Ok(bytes) => bytes,
        Err(ending) => return ending,
    };
    match judged(alloc, &bytes) {
        Ok(codes) => match put_verified(codes, out) {
            Ok(()) => Ending::Done,
            Err(Failed) => Ending::WriteFault,
        },
        Err(ending) => ending,
    }
}
