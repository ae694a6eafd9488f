//! Single instructions that statements put, and the loads, stores and deletions of names.

ghost use Rattle.std.specs.Prelude.{OnOk};
ghost use Rattle.emit_expr.specs.bc_machine.bc_ops.declared.instr.Instr.TheVariants as instrs;
ghost use Rattle.emit_expr.specs.bc_scheme.Context.{loads, stores, deletes};
ghost use Rattle.emit_expr.specs.emit_draft.Draft.{Puts};
ghost use Rattle.emit_expr.specs.emit_draft.declared.draft.DraftItem.TheVariants as drafts;
ghost use Rattle.emit_expr.specs.Emits.{PutsAs};

use bc_ops::{Instr, Op};
use emit_draft::{Draft, DraftItem, Scope, delete_name, load_name, store_name};
use mpy_base::{NoMemory, Text};
use std::alloc::Global;

/// An instruction that names nothing.
pub(crate) fn put_plain(draft: &mut Draft, line: u32, op: Op) -> Result<(), NoMemory>
    ensures { OnOk result (Puts draft.old draft.new line (drafts.Plain (instrs.Plain op))) }
{
    draft.put(line, DraftItem::Plain(Instr::Plain(op)))
}

/// An instruction that names the text.
pub(crate) fn put_named(
    alloc: Global,
    draft: &mut Draft,
    line: u32,
    op: Op,
    name: &[u8],
) -> Result<(), NoMemory>
    ensures { OnOk result (Puts draft.old draft.new line (drafts.Named op name.now)) }
{
    let text = Text::new(alloc, name)?;
    draft.put(line, DraftItem::Named(op, text))
}

/// The instruction that loads the name.
pub(crate) fn put_load(
    alloc: Global,
    draft: &mut Draft,
    scope: &Scope,
    line: u32,
    name: &[u8],
) -> Result<(), NoMemory>
    ensures { OnOk result (PutsAs draft.old draft.new scope.now line (λ c. loads c name.now)) }
{
    let item = load_name(alloc, scope, name)?;
    draft.put(line, item)?;
    Ok(())
}

/// The instruction that stores to the name.
pub fn put_store(
    alloc: Global,
    draft: &mut Draft,
    scope: &Scope,
    line: u32,
    name: &[u8],
) -> Result<(), NoMemory>
    ensures { OnOk result (PutsAs draft.old draft.new scope.now line (λ c. stores c name.now)) }
{
    let item = store_name(alloc, scope, name)?;
    draft.put(line, item)?;
    Ok(())
}

/// The instruction that deletes the name.
pub fn put_delete(
    alloc: Global,
    draft: &mut Draft,
    scope: &Scope,
    line: u32,
    name: &[u8],
) -> Result<(), NoMemory>
    ensures { OnOk result (PutsAs draft.old draft.new scope.now line (λ c. deletes c name.now)) }
{
    let item = delete_name(alloc, scope, name)?;
    draft.put(line, item)?;
    Ok(())
}
