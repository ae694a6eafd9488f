//! The codes of a merged file.

ghost use Rattle.std.specs.Prelude.{◌≡◌, ◌++◌, ◌+◌, ◌<◌, ◌≤◌, ◌↔◌, ℕ, List, length, All, false, IsTrue, IfOk, OnOk};
ghost use Rattle.std.specs.List.{flat_map};
ghost use Rattle.mpy_writer.specs.mpy_tree.declared.raw.RawCode.{RawCode};
ghost use Rattle.mpy_writer.specs.mpy_tree.Canonical.{code_bytes};
ghost use Rattle.mpy_writer.specs.mpy_tree.Raw.{Module};
ghost use Rattle.mpy_writer.specs.Tables.{TablesFit};
ghost use Rattle.mpy_merge.specs.Far.{HasFarCode};
ghost use Rattle.mpy_merge.specs.Moved.{IsMovedTree};
ghost use Rattle.mpy_merge.specs.Ends.{IfFault};
ghost use Rattle.mpy_merge.specs.Faults.{IsFirstFarIn, IsDeep};
ghost use Rattle.mpy_merge.specs.Merged.{AreMoved, NestsWithin, all_objects};
ghost use Rattle.mpy_merge.specs.Written.{AreCodes};

use crate::fault::{MAX_PARTS, MergeFault};
use crate::outer::outer_own;
use crate::tree::{write_head, write_tree};
use bc_verify::{Verified, verified_law};
use mpy_base::Refused;
use mpy_base::limits::{MAX_DEPTH, MAX_TABLE};
use mpy_tree::{RawCode, module_law};
use mpy_writer::Tables;
use std::alloc::Global;

/// Adds the code of the module at the place, and those in it, with their numbers moved.
fn write_part(
    alloc: Global,
    out: &mut Vec<u8>,
    tables: &Tables,
    base: u32,
    part: &Verified,
    place: usize,
) -> Result<(), Refused<MergeFault>>
    requires fit { TablesFit tables.now }
    requires few { base + length part.now.objects ≤ MAX_TABLE }
    ensures ok { OnOk result ((moved : RawCode) × IsMovedTree MAX_DEPTH tables.now base part.now part.now.code moved
        × (out.new.items ≡ out.old.items ++ code_bytes MAX_DEPTH moved)) }
    ensures fault { IfFault result (λ fault. (fault ≡ MergeFault.TooFar place) × HasFarCode tables.now base part.now part.now.code) }
{
    verified_law(part);
    let module = part.module();
    module_law(module);
    match write_tree(alloc, out, tables, base, module, module.code(), MAX_DEPTH) {
        Ok(()) => Ok(()),
        Err(Refused::NoMemory) => Err(Refused::NoMemory),
        Err(Refused::Fault(_)) => Err(Refused::Fault(MergeFault::TooFar(place))),
    }
}

/// Adds the codes of the modules.
fn write_parts(
    alloc: Global,
    out: &mut Vec<u8>,
    tables: &Tables,
    modules: &[Verified],
) -> Result<(), Refused<MergeFault>>
    requires fit { TablesFit tables.now }
    requires few { length (all_objects modules.now) ≤ MAX_TABLE }
    ensures ok { OnOk result ((parts : List RawCode) × AreMoved MAX_DEPTH tables.now 0 modules.now parts
        × (out.new.items ≡ out.old.items ++ flat_map (code_bytes MAX_DEPTH) parts)) }
    ensures fault { IfFault result (λ fault. (place : ℕ) × (fault ≡ MergeFault.TooFar place) × IsFirstFarIn tables.now modules.now place) }
{
    let mut base = 0;
    for (place, module) in modules.iter().enumerate() {
        write_part(alloc, out, tables, base, module, place)?;
        base += module.module().objects().len() as u32;
    }
    Ok(())
}

/// The outermost code and those of the modules, of one level more than a file may have.
pub(crate) fn codes(
    alloc: Global,
    tables: &Tables,
    modules: &[Verified],
) -> Result<Vec<u8>, Refused<MergeFault>>
    requires parts { length modules.now ≤ MAX_PARTS }
    requires fit { TablesFit tables.now }
    requires few { length (all_objects modules.now) ≤ MAX_TABLE }
    ensures ok { IfOk result (λ out. AreCodes tables.now modules.now out.items) }
    ensures fault { IfFault result (λ fault. (place : ℕ) × (fault ≡ MergeFault.TooFar place) × IsFirstFarIn tables.now modules.now place) }
{
    let own = outer_own(alloc, tables, modules.len())?;
    let mut out = Vec::new(alloc);
    write_head(&mut out, &own, modules.len())?;
    write_parts(alloc, &mut out, tables, modules)?;
    Ok(out)
}

/// Tells whether there are at most `levels` levels of codes, the code itself among them.
fn nests_within(code: &RawCode, levels: usize) -> bool
    ensures { IsTrue result ↔ NestsWithin levels code.now }
{
    if levels == 0 {
        return false;
    }
    for child in code.children.as_slice() {
        if !nests_within(child, levels - 1) {
            return false;
        }
    }
    true
}

/// Tells whether the codes of the modules still nest as a file's may where another code is around them.
pub(crate) fn all_nest(modules: &[Verified]) -> bool
    ensures nest { IsTrue result → All (λ m. NestsWithin 31 m.code) modules.now }
    ensures deep { result ≡ false → IsDeep modules.now }
{
    for module in modules {
        if !nests_within(module.module().code(), MAX_DEPTH - 1) {
            return false;
        }
    }
    true
}
