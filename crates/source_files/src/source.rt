//! The module of a source.

ghost use Rattle.std.specs.Prelude.{◌≡◌, ◌≤◌, IfOk};
ghost use Rattle.mpy_reader.specs.mpy_tree.Raw.{Module};
ghost use Rattle.mpy_compile.specs.Compiled.{Compiles};
ghost use Rattle.library_files.specs.Comes.{IsVerifiedFile};
ghost use Rattle.source_files.specs.Sources.{GivesModule, stored};

use crate::laws::compiled_law;
use crate::name::stored_name;
use bc_verify::{Verified, known_verified};
use mpy_base::{NoMemory, Refused, SourceFault};
use mpy_compile::compile;
use mpy_reader::read;
use std::alloc::Global;

/// The file of the source of this path.
fn source_file(
    alloc: Global,
    level: u8,
    path: &[u8],
    source: &[u8],
) -> Result<Vec<u8>, Refused<SourceFault>>
    requires { level ≤ 3 }
    ensures { Compiles level source.now (stored path.now) result }
{
    match stored_name(alloc, path) {
        Ok(stored) => compile(alloc, source, level, stored.bytes()),
        Err(NoMemory) => Err(Refused::NoMemory),
    }
}

/// The module of a file that is one of a verified module.
fn verified_of(alloc: Global, bytes: &[u8]) -> Result<Verified, NoMemory>
    requires { (m : Module) × IsVerifiedFile bytes.now m }
    ensures { IfOk result (IsVerifiedFile bytes.now) }
{
    match read(alloc, bytes) {
        Ok(raw) => Ok(known_verified(raw)),
        Err(Refused::Fault(_)) => unreachable!(),
        Err(Refused::NoMemory) => Err(NoMemory),
    }
}

/// The module of the source of this path at a level, by its file, and how many bytes the file has; or the first fault of the
/// source, of its code or of the file as a whole.
pub fn source_module(
    alloc: Global,
    level: u8,
    path: &[u8],
    source: &[u8],
) -> Result<(Verified, usize), Refused<SourceFault>>
    requires { level ≤ 3 }
    ensures { GivesModule level path.now source.now result }
{
    compiled_law();
    match source_file(alloc, level, path, source) {
        Ok(bytes) => match verified_of(alloc, &bytes) {
            Ok(verified) => Ok((verified, bytes.len())),
            Err(NoMemory) => Err(Refused::NoMemory),
        },
        Err(refused) => Err(refused),
    }
}
