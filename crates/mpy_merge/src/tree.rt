//! A code and those in it, with the numbers of a merged file.

ghost use Rattle.std.specs.Prelude.{◌≡◌, ◌++◌, ◌+◌, ◌≤◌, ◌<◌, ◌^◌, ℕ, List, length, IfOk, OnOk};
ghost use Rattle.mpy_writer.specs.mpy_tree.declared.raw.RawCode.{RawCode};
ghost use Rattle.mpy_writer.specs.mpy_tree.File.{IsCode};
ghost use Rattle.mpy_writer.specs.mpy_tree.Canonical.{code_bytes};
ghost use Rattle.bc_verify.specs.Verified.{AreVerified};
ghost use Rattle.mpy_writer.specs.Outcome.{IfFault};
ghost use Rattle.mpy_writer.specs.Tables.{TablesFit};
ghost use Rattle.mpy_merge.specs.Far.{IsFarOwn, HasFarCode};
ghost use Rattle.mpy_merge.specs.Heads.{head_of};
ghost use Rattle.mpy_merge.specs.Kept.{IsKeptCode};
ghost use Rattle.mpy_merge.specs.Moved.{IsMovedOwn, IsMovedTree};

use crate::moved::moved_code;
use mpy_base::limits::{MAX_CODE_BYTES, MAX_TABLE};
use mpy_base::{NoMemory, Refused, write_vuint};
use mpy_tree::{RawCode, RawModule, module_law};
use mpy_writer::{Tables, WriteFault, write_code};
use std::alloc::Global;

/// Adds the header, the own bytes and the number of the codes in it, which follow.
pub fn write_head(out: &mut Vec<u8>, own: &[u8], codes: usize) -> Result<(), NoMemory>
    requires short { length own.now ≤ MAX_CODE_BYTES }
    requires few { codes < 2 ^ 31 }
    ensures { OnOk result (out.new.items ≡ out.old.items ++ head_of own.now codes) }
{
    if codes == 0 {
        write_vuint(out, 8 * own.len() as u32)?;
        out.extend_from_slice(own)?;
    } else {
        write_vuint(out, 8 * own.len() as u32 + 4)?;
        out.extend_from_slice(own)?;
        write_vuint(out, codes as u32)?;
    }
    Ok(())
}

/// The own bytes of a code of the module, with its numbers moved.
fn moved_own(
    alloc: Global,
    tables: &Tables,
    base: u32,
    module: &RawModule,
    bytes: &[u8],
) -> Result<Vec<u8>, Refused<WriteFault>>
    requires fit { TablesFit tables.now }
    requires kept { IsKeptCode module.now bytes.now }
    requires few { base + length module.now.objects ≤ MAX_TABLE }
    ensures ok { IfOk result (λ own. IsMovedOwn tables.now base module.now bytes.now own.items) }
    ensures fault { IfFault result (λ fault. IsFarOwn tables.now base module.now bytes.now) }
{
    module_law(module);
    let code = moved_code(alloc, tables, base, module, bytes)?;
    write_code(alloc, tables, &code)
}

/// Adds a code of the module and those in it, of at most `levels` levels, with their numbers moved.
pub fn write_tree(
    alloc: Global,
    out: &mut Vec<u8>,
    tables: &Tables,
    base: u32,
    module: &RawModule,
    raw: &RawCode,
    levels: usize,
) -> Result<(), Refused<WriteFault>>
    requires fit { TablesFit tables.now }
    requires few { base + length module.now.objects ≤ MAX_TABLE }
    requires nests { (text : List ℕ) × IsCode levels (length module.now.qstrs) text raw.now }
    requires verified { AreVerified module.now raw.now }
    ensures ok { OnOk result ((moved : RawCode) × IsMovedTree levels tables.now base module.now raw.now moved
        × (out.new.items ≡ out.old.items ++ code_bytes levels moved)) }
    ensures fault { IfFault result (λ fault. HasFarCode tables.now base module.now raw.now) }
{
    let own = moved_own(alloc, tables, base, module, raw.bytes.bytes())?;
    write_head(out, &own, raw.children.len())?;
    for child in raw.children.as_slice() {
        write_tree(alloc, out, tables, base, module, child, levels - 1)?;
    }
    Ok(())
}
