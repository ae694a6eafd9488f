//! Writing a module as a file: tables, then the codes in preorder, each with the layout of its jumps.

ghost use Rattle.std.specs.Prelude.{◌≡◌, ◌⊎◌, ◌++◌, List, ℕ, map, All, IfOk, OnOk, Err};
ghost use Rattle.std.specs.List.{concat, flat_map};
ghost use Rattle.bc_labels.specs.Choice.{IsTooFar};
ghost use Rattle.mpy_tree.specs.declared.module.Code.{Code};
ghost use Rattle.mpy_tree.specs.declared.module.ModuleCode.{ModuleCode};
ghost use Rattle.mpy_tree.specs.Canonical.{Canonical, qstr_bytes};
ghost use Rattle.mpy_tree.specs.FirstUse.{InFirstUse};
ghost use Rattle.mpy_tree.specs.Resolved.{ReadsAs};
ghost use Rattle.mpy_writer.specs.declared.fault.WriteFault.{WriteFault};
ghost use Rattle.mpy_writer.specs.declared.tables.Tables.{Tables};
ghost use Rattle.mpy_writer.specs.File.{IsOwn, labelled, IsWritten, FirstFault, front_bytes, qstr_of};
ghost use Rattle.mpy_writer.specs.Ends.{Ends};
ghost use Rattle.mpy_writer.specs.Tables.{Fits, TablesFit};
ghost use Rattle.mpy_writer.specs.Writable.{IsText, IsWritable};

use crate::code::{layouts, write_codes};
use crate::codes::add_codes;
use crate::fault::WriteFault;
use crate::tables::{Tables, make_tables};
use bc_prelude::lines_law;
use mpy_base::limits::{MAX_DEPTH, MAX_FILE_BYTES};
use mpy_base::{NoMemory, Refused, write_vuint};
use mpy_tree::ModuleCode;
use qstr_pool::{Pool, static_number};
use std::alloc::Global;

/// Adds an entry of the table of texts.
fn write_text(out: &mut Vec<u8>, text: &[u8]) -> Result<(), NoMemory>
    requires { IsText text.now }
    ensures { OnOk result (out.new.items ≡ out.old.items ++ qstr_bytes (qstr_of text.now)) }
{
    match static_number(text) {
        Some(number) => write_vuint(out, 2 * u32::from(number) + 1),
        None => {
            write_vuint(out, 2 * text.len() as u32)?;
            out.extend_from_slice(text)?;
            out.push(0)?;
            Ok(())
        }
    }
}

/// Adds a table of texts, each as a file has it.
pub fn write_texts(out: &mut Vec<u8>, texts: &Pool) -> Result<(), NoMemory>
    requires fits { Fits texts.now }
    requires fine { All IsText texts.now.texts }
    ensures { OnOk result (out.new.items ≡ out.old.items ++ flat_map qstr_bytes (map qstr_of texts.now.texts)) }
{
    for n in 0..texts.len() as u32 {
        write_text(out, texts.text(n).unwrap())?;
    }
    Ok(())
}

/// Adds the table of objects.
fn write_objects(out: &mut Vec<u8>, objects: &Pool) -> Result<(), NoMemory>
    requires { Fits objects.now }
    ensures { OnOk result (out.new.items ≡ out.old.items ++ concat objects.now.texts) }
{
    for n in 0..objects.len() as u32 {
        out.extend_from_slice(objects.text(n).unwrap())?;
    }
    Ok(())
}

/// The bytes in front of the codes.
pub(crate) fn front(alloc: Global, tables: &Tables) -> Result<Vec<u8>, NoMemory>
    requires fits { TablesFit tables.now }
    requires fine { All IsText tables.now.texts.texts }
    ensures { IfOk result (λ out. out.items ≡ front_bytes tables.now) }
{
    let mut out = Vec::from_slice(alloc, &[b'M', 6, 0, 31])?;
    write_vuint(&mut out, tables.texts.len() as u32)?;
    write_vuint(&mut out, tables.objects.len() as u32)?;
    write_texts(&mut out, &tables.texts)?;
    write_objects(&mut out, &tables.objects)?;
    Ok(out)
}

/// The file of a module.
fn file(alloc: Global, tree: &ModuleCode) -> Result<Vec<u8>, Refused<WriteFault>>
    requires { IsWritable tree.now }
    ensures { Ends tree.now (λ bytes. bytes.items) result }
{
    let mut codes = Vec::new(alloc);
    add_codes(&mut codes, &tree.code, MAX_DEPTH)?;
    let tables = make_tables(alloc, &tree.source, &codes)?;
    let layouts = layouts(alloc, &tables, &codes)?;
    let mut out = front(alloc, &tables)?;
    write_codes(alloc, &mut out, &tables, &codes, &layouts)?;
    if out.len() > MAX_FILE_BYTES {
        return Err(Refused::Fault(WriteFault::TooBig));
    }
    Ok(out)
}

/// Writes a module: its file, or the fault that comes first.
pub fn write(alloc: Global, tree: &ModuleCode) -> Result<Vec<u8>, Refused<WriteFault>>
    requires { IsWritable tree.now }

    // The file is canonical, its tables are in the order of first use, and it is read as the module.
    ensures written { IfOk result (λ bytes. IsWritten tree.now bytes.items) }
    ensures canonical { IfOk result (λ bytes. Canonical bytes.items) }
    ensures first_use { IfOk result (λ bytes. InFirstUse bytes.items) }
    ensures reads { IfOk result (λ bytes. ReadsAs bytes.items tree.now) }

    // A fault comes exactly where it is the first one, unless memory runs out.
    ensures first { (fault : WriteFault) → result ≡ Err (Refused.Fault fault) → FirstFault tree.now fault }
    ensures fault { (fault : WriteFault) → FirstFault tree.now fault
        → (result ≡ Err (Refused.Fault fault)) ⊎ (result ≡ Err Refused.NoMemory) }
{
    lines_law();
    file(alloc, tree)
}

/// A module has one file at most, and one first fault.
pub fn write_law()
    ensures one_file { (m : ModuleCode) (a b : List ℕ) → IsWritten m a → IsWritten m b → a ≡ b }
    ensures one_fault { (m : ModuleCode) (f g : WriteFault) → FirstFault m f → FirstFault m g → f ≡ g }
{}

/// A code has one list of own bytes at most, none where its jumps reach too far, and a longer one than a code may have
/// where it is too big.
pub fn code_law()
    ensures one_own { (tables : Tables) (code : Code) (a b : List ℕ) → IsOwn tables code a → IsOwn tables code b → a ≡ b }
    ensures none { (tables : Tables) (code : Code) (own : List ℕ) → IsOwn tables code own → IsTooFar (labelled tables code) → ⊥ }
{}
