//! Reading a file as a whole: header, tables and the outermost code, in one pass.

ghost use Rattle.std.specs.Prelude.{◌≡◌, ◌⊎◌, ◌↔◌, List, ℕ, Result, Ok, Err, IfOk, IsOkAnd};
ghost use Rattle.mpy_tree.specs.Raw.{Module};
ghost use Rattle.mpy_tree.specs.File.{IsFile};
ghost use Rattle.mpy_tree.specs.Resolved.{ResolvedModule, Reads, Resolves};
ghost use Rattle.mpy_reader.specs.declared.fault.FileFault.{FileFault};
ghost use Rattle.mpy_reader.specs.Reading as reading;
ghost use Rattle.mpy_reader.specs.Reading.{Gives, FirstFault};

use crate::code::code;
use crate::fault::FileFault;
use crate::field::{Field, count};
use crate::object::objects;
use crate::qstr::qstrs;
use mpy_base::Refused;
use mpy_base::limits::{MAX_DEPTH, MAX_FILE_BYTES};
use mpy_tree::RawModule;
use std::alloc::Global;

/// The bytes in front of the counts, of which the last is the bits of small integers.
fn header(bytes: &[u8]) -> Field<'_, u8>
    ensures { Gives (λ found. (found.0, found.1.now)) result (reading.header bytes.now) }
{
    if bytes.len() < 4 || bytes[0] != b'M' {
        return Err(Refused::Fault(FileFault::BadHeader));
    }
    let (front, rest) = bytes.split_at(4);
    if front[1] != 6 || front[2] != 0 || front[3] == 0 || front[3] > 31 {
        return Err(Refused::Fault(FileFault::Incompatible));
    }
    Ok((front[3], rest))
}

/// The module of all parts of a file.
#[tactic(auto, unfolding(crate::specs::Reading::parts))]
fn parts(alloc: Global, bytes: &[u8]) -> Field<'_, RawModule>
    ensures { Gives (λ found. (found.0, found.1.now)) result (reading.parts bytes.now) }
{
    let (bits, rest) = header(bytes)?;
    let (qstr_count, rest) = count(rest)?;
    let (object_count, rest) = count(rest)?;
    if qstr_count == 0 {
        return Err(Refused::Fault(FileFault::BadQstr));
    }
    let (qstrs, rest) = qstrs(alloc, qstr_count, rest)?;
    let (objects, rest) = objects(alloc, object_count, rest)?;
    let (code, rest) = code(alloc, rest, qstr_count, MAX_DEPTH)?;
    Ok((RawModule::new(bits, qstrs, objects, code), rest))
}

/// The module of a file.
#[tactic(auto, unfolding(crate::specs::Reading::file))]
fn file(alloc: Global, bytes: &[u8]) -> Result<RawModule, Refused<FileFault>>
    ensures { Gives (λ m. m) result (reading.file bytes.now) }
{
    if bytes.len() > MAX_FILE_BYTES {
        return Err(Refused::Fault(FileFault::TooBig));
    }
    let (raw, rest) = parts(alloc, bytes)?;
    if !rest.is_empty() {
        return Err(Refused::Fault(FileFault::Trailing));
    }
    Ok(raw)
}

/// Reads a file: its module, or the first fault in the order of its bytes.
pub fn read(alloc: Global, bytes: &[u8]) -> Result<RawModule, Refused<FileFault>>
    // What is read is spelled so, and what is spelled so is read, unless memory runs out.
    ensures found { IfOk result (λ m. IsFile bytes.now m) }
    ensures only { (m : Module) → IsFile bytes.now m → (result ≡ Ok m) ⊎ (result ≡ Err Refused.NoMemory) }

    // So it resolves to each module that the bytes are a file of.
    ensures resolves { (tree : ResolvedModule) → Reads bytes.now tree
        → IsOkAnd result (λ m. Resolves m tree) ⊎ (result ≡ Err Refused.NoMemory) }

    // A fault is the first one, and bytes that have one have no module.
    ensures first { (fault : FileFault) → result ≡ Err (Refused.Fault fault) → FirstFault bytes.now fault }
    ensures fault { (fault : FileFault) → FirstFault bytes.now fault
        → (result ≡ Err (Refused.Fault fault)) ⊎ (result ≡ Err Refused.NoMemory) }
{
    file(alloc, bytes)
}

/// Bytes are a file of one module at most, or have one first fault, and never both.
pub fn file_law()
    ensures one_module { (bytes : List ℕ) (m n : Module) → IsFile bytes m → IsFile bytes n → m ≡ n }
    ensures one_fault { (bytes : List ℕ) (f g : FileFault) → FirstFault bytes f → FirstFault bytes g → f ≡ g }
    ensures not_both { (bytes : List ℕ) (m : Module) (fault : FileFault) → IsFile bytes m → FirstFault bytes fault → ⊥ }
{}
