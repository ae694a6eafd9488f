//! Single instructions that expressions put: names, strs and comparisons.

ghost use Rattle.std.specs.Prelude.{◌≡◌, OnOk};
ghost use Rattle.mpy_base.specs.Val.{Str};
ghost use Rattle.emit_draft.specs.bc_scheme.Context.{loads, constant};
ghost use Rattle.emit_draft.specs.Draft.{Puts};
ghost use Rattle.emit_draft.specs.declared.draft.DraftItem.TheVariants as drafts;
ghost use Rattle.emit_draft.specs.declared.scope.Scope.{Scope as Names};
ghost use Rattle.emit_expr.specs.Emits.{PutsAs, EmitsC};

use bc_ops::{Instr, Op};
use emit_draft::{Draft, DraftItem, Scope, comparing_number, is_negated, load_name};
use mpy_base::{NoMemory, Text};
use py_tree::CompareOp;
use std::alloc::Global;

/// A str of up to 10 bytes is named, and a longer one is an object.
const MAX_NAMED: usize = 10;

/// An instruction that names the text.
pub(crate) fn put_named(
    alloc: Global,
    draft: &mut Draft,
    line: u32,
    op: Op,
    name: &[u8],
) -> Result<(), NoMemory>
    ensures { OnOk result (Puts draft.old draft.new line (drafts.Named op name.now)) }
{
    let text = Text::new(alloc, name)?;
    draft.put(line, DraftItem::Named(op, text))
}

/// Puts the load of a name.
pub(crate) fn put_load(
    alloc: Global,
    draft: &mut Draft,
    scope: &Scope,
    line: u32,
    name: &[u8],
) -> Result<(), NoMemory>
    ensures { OnOk result (PutsAs draft.old draft.new scope.now line (λ c. loads c name.now)) }
{
    let item = load_name(alloc, scope, name)?;
    draft.put(line, item)?;
    Ok(())
}

/// Puts the load of a str.
pub(crate) fn put_str(
    alloc: Global,
    draft: &mut Draft,
    line: u32,
    text: &[u8],
) -> Result<(), NoMemory>
    ensures { OnOk result ((s : Names) → PutsAs draft.old draft.new s line (λ c. constant (Str text.now))) }
{
    let copy = Text::new(alloc, text)?;
    if text.len() <= MAX_NAMED {
        draft.put(line, DraftItem::Named(Op::LoadConstString, copy))?;
        return Ok(());
    }
    draft.put(line, DraftItem::Str(copy))?;
    Ok(())
}

/// Puts a comparison, with a `not` behind it where it is negated.
pub(crate) fn put_comparison(draft: &mut Draft, line: u32, op: CompareOp) -> Result<(), NoMemory>
    ensures { OnOk result ((s : Names) → EmitsC draft.old draft.new s line op) }
{
    let number = comparing_number(op);
    draft.put(line, DraftItem::Plain(Instr::Binary(number)))?;
    if is_negated(op) {
        draft.put(line, DraftItem::Plain(Instr::Unary(3)))?;
        return Ok(());
    }
    Ok(())
}
