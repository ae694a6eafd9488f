//! The bytes of the merged file, from the modules' tables and codes.

ghost use Rattle.std.specs.Prelude.{◌≡◌, ◌<◌, ◌≤◌, length, All, IfOk};
ghost use Rattle.bc_verify.specs.Verified.{IsVerified};
ghost use Rattle.mpy_writer.specs.mpy_tree.File.{IsModule};
ghost use Rattle.mpy_writer.specs.Writable.{IsText, IsFine};
ghost use Rattle.mpy_merge.specs.Ends.{Ends};
ghost use Rattle.mpy_merge.specs.Merged.{all_objects};
ghost use Rattle.mpy_merge.specs.Written.{front_of};

use crate::codes::{all_nest, codes};
use crate::fault::{MAX_PARTS, MergeFault};
use crate::names::make_tables;
use crate::objects::{all_short, count_objects, write_objects};
use bc_verify::{Verified, verified_law};
use mpy_base::limits::{MAX_DEPTH, MAX_FILE_BYTES, MAX_TABLE};
use mpy_base::{NoMemory, Refused, write_vuint};
use mpy_tree::module_law;
use mpy_writer::write_texts;
use qstr_pool::{Pool, pool_law};
use std::alloc::Global;

/// What holds of each of the modules.
pub(crate) fn modules_law(modules: &[Verified])
    ensures read { All IsModule modules.now }
    ensures verified { All IsVerified modules.now }
{
    for module in modules {
        verified_law(module);
        module_law(module.module());
    }
}

/// The bytes in front of the codes.
fn front(alloc: Global, texts: &Pool, modules: &[Verified]) -> Result<Vec<u8>, NoMemory>
    requires first { texts.now.first ≡ 0 }
    requires fine { All IsText texts.now.texts }
    requires few { length (all_objects modules.now) ≤ MAX_TABLE }
    requires short { All (IsFine MAX_DEPTH) (all_objects modules.now) }
    ensures { IfOk result (λ out. out.items ≡ front_of texts.now.texts (all_objects modules.now)) }
{
    pool_law(texts);
    let mut out = Vec::from_slice(alloc, &[b'M', 6, 0, 31])?;
    write_vuint(&mut out, texts.len() as u32)?;
    write_vuint(&mut out, count_objects(modules))?;
    write_texts(&mut out, texts)?;
    write_objects(alloc, &mut out, modules)?;
    Ok(out)
}

/// The merged file of one module or more, and no more than there may be.
fn file(alloc: Global, modules: &[Verified]) -> Result<Vec<u8>, Refused<MergeFault>>
    requires some { 0 < length modules.now }
    requires few { length modules.now ≤ MAX_PARTS }
    requires read { All IsModule modules.now }
    ensures { Ends modules.now (λ bytes. bytes.items) result }
{
    let tables = make_tables(alloc, modules)?;
    let codes = codes(alloc, &tables, modules)?;
    if !all_nest(modules) {
        return Err(Refused::Fault(MergeFault::TooBig));
    }
    if !all_short(modules) {
        return Err(Refused::Fault(MergeFault::TooBig));
    }
    let mut out = front(alloc, &tables.texts, modules)?;
    out.extend_from_slice(&codes)?;
    if out.len() > MAX_FILE_BYTES {
        return Err(Refused::Fault(MergeFault::TooBig));
    }
    Ok(out)
}

/// The merged file of any modules, or the fault that comes first.
pub(crate) fn file_or_fault(
    alloc: Global,
    modules: &[Verified],
) -> Result<Vec<u8>, Refused<MergeFault>>
    requires { All IsModule modules.now }
    ensures { Ends modules.now (λ bytes. bytes.items) result }
{
    if modules.is_empty() {
        return Err(Refused::Fault(MergeFault::Empty));
    }
    if modules.len() > MAX_PARTS {
        return Err(Refused::Fault(MergeFault::TooMany));
    }
    file(alloc, modules)
}
