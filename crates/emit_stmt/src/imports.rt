//! Imports of modules and of their names, each with a store.

ghost use Rattle.std.specs.Prelude.{◌≡◌, ◌==◌, map, OnOk, IfOk};
ghost use Rattle.std.specs.List.{slice_split};
ghost use Rattle.emit_expr.specs.py_meaning.Tree.{Import, From};
ghost use Rattle.emit_expr.specs.py_meaning.Statements.{from_name};
ghost use Rattle.emit_expr.specs.emit_draft.declared.scope.Scope.{Scope as Names};
ghost use Rattle.emit_stmt.specs.declared.jumps.Loop.{Loop as Around};
ghost use Rattle.emit_stmt.specs.SimpleEmits.{EmitsR, EmitsM, EmitsN, EmitsF, EmitsS};

use crate::puts::{put_named, put_plain, put_store};
use bc_ops::{Instr, Op};
use emit_draft::{Draft, DraftItem, Scope};
use mpy_base::NoMemory;
use py_tree::Alias;
use std::alloc::{AllocError, Global};

/// The parts of a dotted name, of which there is at least one.
fn parts(alloc: Global, name: &[u8]) -> Result<Vec<&[u8]>, AllocError>
    ensures { IfOk result (λ parts. map (λ part. part.now) parts.items ≡ slice_split (λ byte. byte == 46) name.now) }
{
    name.split(|byte| *byte == b'.').collect(alloc)
}

/// Reads of the attributes, one behind the other.
fn put_reads(alloc: Global, draft: &mut Draft, line: u32, names: &[&[u8]]) -> Result<(), NoMemory>
    ensures { OnOk result ((s : Names) → EmitsR draft.old draft.new s line (map (λ name. name.now) names.now)) }
{
    for name in names {
        put_named(alloc, draft, line, Op::LoadAttr, name)?;
    }
    Ok(())
}

/// The import of one name. Its first part is bound, or its last part to the other name.
fn emit_alias(
    alloc: Global,
    draft: &mut Draft,
    scope: &Scope,
    line: u32,
    alias: &Alias,
) -> Result<(), NoMemory>
    ensures { OnOk result (EmitsM draft.old draft.new scope.now line alias.now) }
{
    draft.put(line, DraftItem::Plain(Instr::Int(0)))?;
    put_plain(draft, line, Op::LoadConstNone)?;
    put_named(alloc, draft, line, Op::ImportName, alias.name.bytes())?;
    let parts = parts(alloc, alias.name.bytes())?;
    let Some((first, others)) = parts.split_first() else {
        unreachable!();
    };
    match &alias.bound {
        None => put_store(alloc, draft, scope, line, first),
        Some(bound) => {
            put_reads(alloc, draft, line, others)?;
            put_store(alloc, draft, scope, line, bound.bytes())
        }
    }
}

/// `import` of these names.
pub(crate) fn emit_import(
    alloc: Global,
    draft: &mut Draft,
    scope: &Scope,
    line: u32,
    names: &[Alias],
) -> Result<(), NoMemory>
    ensures { OnOk result ((around : Around) → EmitsS draft.old draft.new scope.now around line (Import names.now)) }
{
    for alias in names {
        emit_alias(alloc, draft, scope, line, alias)?;
    }
    Ok(())
}

/// The names that `from` imports, each as a text that is loaded.
fn put_texts(alloc: Global, draft: &mut Draft, line: u32, names: &[Alias]) -> Result<(), NoMemory>
    ensures { OnOk result ((s : Names) → EmitsN draft.old draft.new s line names.now) }
{
    for alias in names {
        put_named(alloc, draft, line, Op::LoadConstString, alias.name.bytes())?;
    }
    Ok(())
}

/// The names that are taken from the module.
fn emit_taken(
    alloc: Global,
    draft: &mut Draft,
    scope: &Scope,
    line: u32,
    names: &[Alias],
) -> Result<(), NoMemory>
    ensures { OnOk result (EmitsF draft.old draft.new scope.now line names.now) }
{
    for alias in names {
        put_named(alloc, draft, line, Op::ImportFrom, alias.name.bytes())?;
        put_store(alloc, draft, scope, line, bound_name(alias))?;
    }
    Ok(())
}

/// The name that a name of a `from` is bound to.
fn bound_name(alias: &Alias) -> &[u8]
    ensures { result.now ≡ from_name alias.now.name alias.now.bound }
{
    match &alias.bound {
        Some(bound) => bound.bytes(),
        None => alias.name.bytes(),
    }
}

/// `from path import names`.
pub(crate) fn emit_from(
    alloc: Global,
    draft: &mut Draft,
    scope: &Scope,
    line: u32,
    path: &[u8],
    names: &[Alias],
) -> Result<(), NoMemory>
    ensures { OnOk result ((around : Around) → EmitsS draft.old draft.new scope.now around line (From path.now names.now)) }
{
    draft.put(line, DraftItem::Plain(Instr::Int(0)))?;
    put_texts(alloc, draft, line, names)?;
    draft.put_items(line, Op::BuildTuple, names.len())?;
    put_named(alloc, draft, line, Op::ImportName, path)?;
    emit_taken(alloc, draft, scope, line, names)?;
    put_plain(draft, line, Op::PopTop)?;
    Ok(())
}
