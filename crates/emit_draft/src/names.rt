//! The instructions of names.

ghost use Rattle.std.specs.Prelude.{◌≡◌, IfOk, nat_lt, if◌then◌else◌};
ghost use Rattle.emit_measures.specs.bc_scheme.bc_ops.declared.instr.Instr.TheVariants as instrs;
ghost use Rattle.emit_measures.specs.bc_scheme.Context.{loads, stores, deletes};
ghost use Rattle.emit_draft.specs.declared.draft.DraftItem.TheVariants as drafts;
ghost use Rattle.emit_draft.specs.Emits.{IsItem};

use crate::draft::DraftItem;
use crate::scope::Scope;
use bc_ops::{Instr, Op};
use mpy_base::{NoMemory, Text};
use std::alloc::Global;

/// An instruction that names a slot, which the first 16 have a short form for.
fn short_or(short: Op, long: Op, slot: u32) -> DraftItem
    ensures { result ≡ drafts.Plain (instrs.Num (if nat_lt slot 16 then short else long) slot) }
{
    let op = if slot < 16 { short } else { long };
    DraftItem::Plain(Instr::Num(op, slot))
}

/// An instruction that names the text: one for a module's own names, or the other one.
fn module_or(
    alloc: Global,
    is_module: bool,
    own: Op,
    other: Op,
    name: &[u8],
) -> Result<DraftItem, NoMemory>
    ensures { IfOk result (λ item. item ≡ drafts.Named (if is_module then own else other) name.now) }
{
    let op = if is_module { own } else { other };
    Ok(DraftItem::Named(op, Text::new(alloc, name)?))
}

/// The instruction that loads the name.
pub fn load_name(alloc: Global, scope: &Scope, name: &[u8]) -> Result<DraftItem, NoMemory>
    ensures { IfOk result (λ item. IsItem scope.now item (λ c. loads c name.now)) }
{
    match scope.slot(name) {
        Some(slot) => Ok(short_or(Op::LoadFast, Op::LoadFastN, slot)),
        None => {
            let item = module_or(alloc, scope.is_module, Op::LoadName, Op::LoadGlobal, name)?;
            Ok(item)
        }
    }
}

/// The instruction that stores to the name.
pub fn store_name(alloc: Global, scope: &Scope, name: &[u8]) -> Result<DraftItem, NoMemory>
    ensures { IfOk result (λ item. IsItem scope.now item (λ c. stores c name.now)) }
{
    match scope.slot(name) {
        Some(slot) => Ok(short_or(Op::StoreFast, Op::StoreFastN, slot)),
        None => {
            let item = module_or(alloc, scope.is_module, Op::StoreName, Op::StoreGlobal, name)?;
            Ok(item)
        }
    }
}

/// The instruction that deletes the name.
pub fn delete_name(alloc: Global, scope: &Scope, name: &[u8]) -> Result<DraftItem, NoMemory>
    ensures { IfOk result (λ item. IsItem scope.now item (λ c. deletes c name.now)) }
{
    match scope.slot(name) {
        Some(slot) => Ok(DraftItem::Plain(Instr::Num(Op::DeleteFast, slot))),
        None => {
            let item = module_or(
                alloc,
                scope.is_module,
                Op::DeleteName,
                Op::DeleteGlobal,
                name,
            )?;
            Ok(item)
        }
    }
}
