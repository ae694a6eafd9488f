//! The first code of a module that is too long with all offsets wide.

ghost use Rattle.std.specs.Prelude.{◌≡◌, ◌≤◌, ◌<◌, ◌++◌, ℕ, List, length, map, All, Some, None, IfOk, OnOk, IfSome, IfNone};
ghost use Rattle.std.specs.List.{sum_by};
ghost use Rattle.mpy_base.specs.Vuint.{vuint};
ghost use Rattle.mpy_tree.specs.declared.module.Code.{Code as CodeOf, out-Code};
ghost use Rattle.mpy_tree.specs.declared.module.ModuleCode.{ModuleCode as Whole};
ghost use Rattle.mpy_tree.specs.File.{header_of};
ghost use Rattle.mpy_writer.specs.declared.fault.WriteFault.{WriteFault};
ghost use Rattle.mpy_writer.specs.declared.tables.Tables.{Tables as TablesOf};
ghost use Rattle.mpy_writer.specs.Codes.{codes};
ghost use Rattle.mpy_writer.specs.File.{has_some, count_bytes, IsOwn, SomeFar, FirstFault};
ghost use Rattle.mpy_writer.specs.Tables.{AreTables, TablesFit};
ghost use Rattle.mpy_writer.specs.Wide as specs;
ghost use Rattle.mpy_writer.specs.Wide.{wide_starts, Counts, Judges, PassesAt, FitsWide};
ghost use Rattle.mpy_writer.specs.Writable.{IsNumberedItem, IsNumberedCode, IsWritable};

use crate::code::{line_changes, signature, write_names};
use crate::codes::add_codes;
use crate::draft::write_draft;
use crate::file::front;
use crate::jumps::is_jump;
use crate::tables::{Tables, make_tables};
use bc_prelude::{write_lines, write_signature, write_size};
use mpy_base::limits::{MAX_CODE_BYTES, MAX_DEPTH, MAX_FILE_BYTES};
use mpy_base::{NoMemory, Refused, write_vuint};
use mpy_tree::{Code, Item, ModuleCode};
use std::alloc::Global;

/// The bytes of an item whose offset, where it has one, takes two. `text` is room for them.
fn wide_size(
    alloc: Global,
    text: &mut Vec<u8>,
    tables: &Tables,
    item: &Item,
    count: usize,
) -> Result<usize, NoMemory>
    requires fit { TablesFit tables.now }
    requires sound { IsNumberedItem count item.now }
    ensures size { IfOk result (λ size. size ≡ specs.wide_size tables.now item.now) }
    ensures few { IfOk result (λ size. size ≤ 6) }
{
    text.clear();
    write_draft(alloc, text, tables, item, count)?;
    let growth = if is_jump(item) { 1 } else { 0 };
    Ok(text.len() + growth)
}

/// Items with all offsets wide: where each starts, and how many bytes they are.
#[derive(Drop)]
struct WideDraft {
    starts: Vec<usize>,
    size: usize,
}

/// The items with all offsets wide.
fn wide_draft(alloc: Global, tables: &Tables, items: &[Item]) -> Result<WideDraft, NoMemory>
    requires fit { TablesFit tables.now }
    requires sound { All (IsNumberedItem (length items.now)) items.now }
    ensures starts { IfOk result (λ draft. draft.starts.items ≡ wide_starts tables.now 0 items.now) }
    ensures size { IfOk result (λ draft. draft.size ≡ sum_by (specs.wide_size tables.now) items.now) }
{
    let mut text = Vec::new(alloc);
    let mut starts = Vec::with_capacity(alloc, items.len())?;
    let mut size = 0;
    for item in items {
        starts.push(size)?;
        size += wide_size(alloc, &mut text, tables, item, items.len())?;
    }
    Ok(WideDraft { starts, size })
}

/// How many own bytes a code has with all offsets wide.
fn wide_own(alloc: Global, tables: &Tables, code: &Code) -> Result<usize, NoMemory>
    requires fit { TablesFit tables.now }
    requires sound { IsNumberedCode code.now }
    ensures { IfOk result (λ own. Counts own (specs.wide_own tables.now code.now)) }
{
    let draft = wide_draft(alloc, tables, code.instrs.as_slice())?;
    if draft.size > MAX_FILE_BYTES {
        return Ok(draft.size);
    }
    let mut info = Vec::new(alloc);
    write_names(&mut info, tables, code)?;
    write_lines(
        &mut info,
        &line_changes(alloc, &draft.starts, code.lines.as_slice())?,
    )?;
    let mut head = Vec::new(alloc);
    write_signature(&mut head, &signature(code))?;
    write_size(&mut head, info.len())?;
    Ok(
        head.len()
            .saturating_add(info.len())
            .saturating_add(draft.size),
    )
}

/// Adds the header of a code with so many own bytes, and the number of its children.
fn write_counts(out: &mut Vec<u8>, code: &Code, own: usize) -> Result<(), NoMemory>
    requires sound { IsNumberedCode code.now }
    requires short { own ≤ MAX_FILE_BYTES }
    ensures { OnOk result (out.new.items ≡ out.old.items
        ++ (vuint (header_of own (has_some (out-Code code.now).children)) ++ count_bytes (out-Code code.now).children)) }
{
    if code.children.is_empty() {
        write_vuint(out, 8 * own as u32)?;
    } else {
        write_vuint(out, 8 * own as u32 + 4)?;
        write_vuint(out, code.children.len() as u32)?;
    }
    Ok(())
}

/// So many own bytes with their header and the number of the code's children.
fn head_size(alloc: Global, code: &Code, own: usize) -> Result<usize, NoMemory>
    requires sound { IsNumberedCode code.now }
    requires short { own ≤ MAX_FILE_BYTES }
    ensures { IfOk result (λ size. size ≡ specs.head_size code.now own) }
{
    let mut out = Vec::new(alloc);
    write_counts(&mut out, code, own)?;
    Ok(out.len() + own)
}

/// How many bytes a code has in the file, where it has so many own bytes.
fn wide_head(alloc: Global, tables: &Tables, code: &Code, own: usize) -> Result<usize, NoMemory>
    requires sound { IsNumberedCode code.now }
    requires own { Counts own (specs.wide_own tables.now code.now) }
    ensures { IfOk result (λ size. Counts size (specs.wide_head tables.now code.now)) }
{
    if own > MAX_FILE_BYTES {
        Ok(own)
    } else {
        head_size(alloc, code, own)
    }
}

/// The place of the first code that is too long, where the next one has so many own bytes.
fn first_of(long: Option<usize>, place: usize, own: usize) -> Option<usize>
    ensures kept { IfSome long (λ n. result ≡ Some n) }
    ensures long { long ≡ None → MAX_CODE_BYTES < own → result ≡ Some place }
    ensures short { long ≡ None → own ≤ MAX_CODE_BYTES → result ≡ None }
{
    match long {
        Some(n) => Some(n),
        None => {
            if own > MAX_CODE_BYTES {
                Some(place)
            } else {
                None
            }
        }
    }
}

/// The first of these codes that is too long behind so many bytes of a file, or the file's own where that is.
fn first_past(
    alloc: Global,
    tables: &Tables,
    codes: &[&Code],
    front: usize,
) -> Result<Option<usize>, NoMemory>
    requires fit { TablesFit tables.now }
    requires sound { All IsNumberedCode (map (λ c. c.now) codes.now) }
    ensures { IfOk result (Judges tables.now (map (λ c. c.now) codes.now) front) }
{
    let mut bytes = front;
    let mut long = None;
    for (i, code) in codes.iter().enumerate() {
        let own = wide_own(alloc, tables, code)?;
        bytes = bytes.saturating_add(wide_head(alloc, tables, code, own)?);
        long = first_of(long, i, own);
    }
    if bytes > MAX_FILE_BYTES {
        Ok(Some(0))
    } else {
        Ok(long)
    }
}

/// The first code of the module that is too long with all jumps wide, by its place in preorder: the module's own where the
/// file as a whole is. Where none is, the module has a file unless a jump is too far. It is a walk as `write` makes one.
pub fn first_long(alloc: Global, tree: &ModuleCode) -> Result<Option<usize>, NoMemory>
    requires { IsWritable tree.now }
    ensures found { IfOk result (λ found. IfSome found (PassesAt tree.now)) }
    ensures none { IfOk result (λ found. IfNone found (FitsWide tree.now)) }
{
    let mut codes = Vec::new(alloc);
    add_codes(&mut codes, &tree.code, MAX_DEPTH)?;
    match make_tables(alloc, &tree.source, &codes) {
        Ok(tables) => {
            let front = front(alloc, &tables)?;
            first_past(alloc, &tables, &codes, front.len())
        }
        Err(Refused::Fault(_)) => Ok(Some(0)),
        Err(Refused::NoMemory) => Err(NoMemory),
    }
}

/// A code is no longer than with all jumps wide. A module that fits so, of which no jump is too far, has no fault; and one
/// code at most is the first that is too long, and none where it fits.
pub fn wide_law()
    ensures own { (tables : TablesOf) (code : CodeOf) (own : List ℕ) → IsOwn tables code own
        → length own ≤ specs.wide_own tables code }
    ensures fits { (m : Whole) → FitsWide m → ((tables : TablesOf) → AreTables m tables → SomeFar tables (codes m) → ⊥)
        → (fault : WriteFault) → FirstFault m fault → ⊥ }
    ensures one { (m : Whole) (i j : ℕ) → PassesAt m i → PassesAt m j → i ≡ j }
    ensures not_both { (m : Whole) (n : ℕ) → PassesAt m n → FitsWide m → ⊥ }
{}
