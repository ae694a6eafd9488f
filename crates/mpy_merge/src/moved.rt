//! A code with the numbers of a merged file.

ghost use Rattle.std.specs.Prelude.{◌≡◌, ◌+◌, ◌≤◌, ℕ, length, map, All, IfOk};
ghost use Rattle.std.specs.List.{AllZip};
ghost use Rattle.std.specs.Option.{option_copied};
ghost use Rattle.bc_scheme.specs.bc_ops.declared.instr.Op.TheVariants as ops;
ghost use Rattle.bc_scheme.specs.bc_ops.declared.instr.Instr.TheVariants as instrs;
ghost use Rattle.mpy_writer.specs.mpy_tree.Raw as raw;
ghost use Rattle.mpy_writer.specs.mpy_tree.Resolved as resolved;
ghost use Rattle.mpy_writer.specs.Tables as numbers;
ghost use Rattle.mpy_merge.specs.Moved as specs;
ghost use Rattle.mpy_merge.specs.Moved.{IsMovedItem, IsMovedCode};
ghost use Rattle.mpy_merge.specs.Kept.{IsKept, IsKeptCode, NamesThere, GoesTo};

use crate::code_names::indexes_of;
use crate::lines::lines_at;
use bc_ops::{Instr, Op, Target, items_of};
use bc_prelude::parts_of;
use mpy_base::limits::{MAX_CODE_BYTES, MAX_TABLE};
use mpy_base::{Items, NoMemory, Text};
use mpy_tree::{Code, Item, Qstr, RawModule};
use mpy_writer::Tables;
use qstr_pool::static_text;
use std::alloc::Global;

/// The text of an entry, if it has one.
fn text_of(entry: &Qstr) -> Option<&[u8]>
    ensures { option_copied result ≡ raw.text_of entry.now }
{
    match entry {
        Qstr::Static(number) => static_text(*number),
        Qstr::Own(text) => Some(text.bytes()),
    }
}

/// The text of an entry.
pub fn entry_text(entry: &Qstr) -> &[u8]
    ensures { result.now ≡ specs.entry_text entry.now }
{
    text_of(entry).unwrap_or(b"")
}

/// The text that a number of the module leads to, if it leads to one.
fn name_at(module: &RawModule, n: u32) -> Option<&[u8]>
    ensures { option_copied result ≡ resolved.name_at module.now n }
{
    text_of(module.qstrs().get(n as usize)?)
}

/// The text that a number of the module leads to.
pub fn text_at(module: &RawModule, n: u32) -> &[u8]
    ensures { result.now ≡ specs.text_at module.now n }
{
    name_at(module, n).unwrap_or(b"")
}

/// The number that the table gives a text.
fn number_of(tables: &Tables, text: &[u8]) -> u32
    ensures { result ≡ numbers.text_number tables.now text.now }
{
    tables.texts.find(text).unwrap_or(0)
}

/// An instruction with its numbers moved.
fn moved_instr(tables: &Tables, base: u32, module: &RawModule, instr: Instr) -> Instr
    requires there { NamesThere module.now instr }
    requires few { base + length module.now.objects ≤ MAX_TABLE }
    ensures { result ≡ specs.moved_instr tables.now base module.now instr }
{
    match instr {
        Instr::Name(op, n) => Instr::Name(op, number_of(tables, text_at(module, n))),
        Instr::Num(Op::LoadConstObj, n) => Instr::Num(Op::LoadConstObj, base + n),
        other => other,
    }
}

/// The position that a jump goes to.
fn position_of(target: Target) -> u32
    requires { (count : ℕ) × GoesTo count target × (count ≤ MAX_CODE_BYTES) }
    ensures { target ≡ Target.Position result }
{
    match target {
        Target::Position(position) => position as u32,
        Target::Offset(_) => unreachable!(),
    }
}

/// An item with its numbers moved.
fn moved_item(
    tables: &Tables,
    base: u32,
    module: &RawModule,
    item: &bc_ops::Item,
    count: usize,
) -> Item
    requires kept { IsKept module.now count item.now }
    requires short { count ≤ MAX_CODE_BYTES }
    requires few { base + length module.now.objects ≤ MAX_TABLE }
    ensures { IsMovedItem tables.now base module.now item.now result }
{
    match *item {
        bc_ops::Item::Plain(instr) => Item::Plain(moved_instr(tables, base, module, instr)),
        bc_ops::Item::Jump(op, target) => Item::Jump(op, position_of(target)),
        bc_ops::Item::Unwind(target, byte) => Item::Unwind(position_of(target), byte),
    }
}

/// The items with their numbers moved.
fn moved_items(
    alloc: Global,
    tables: &Tables,
    base: u32,
    module: &RawModule,
    items: &[bc_ops::Item],
) -> Result<Vec<Item>, NoMemory>
    requires kept { All (IsKept module.now (length items.now)) items.now }
    requires short { length items.now ≤ MAX_CODE_BYTES }
    requires few { base + length module.now.objects ≤ MAX_TABLE }
    ensures { IfOk result (λ moved. AllZip (IsMovedItem tables.now base module.now) items.now moved.items) }
{
    let mut moved = Vec::with_capacity(alloc, items.len())?;
    for item in items {
        moved.push(moved_item(tables, base, module, item, items.len()))?;
    }
    Ok(moved)
}

/// The texts that numbers of the module lead to.
fn texts_at(alloc: Global, module: &RawModule, numbers: &[u32]) -> Result<Vec<Text>, NoMemory>
    ensures { IfOk result (λ texts. texts.items ≡ map (specs.text_at module.now) numbers.now) }
{
    let mut texts = Vec::with_capacity(alloc, numbers.len())?;
    for number in numbers {
        texts.push(Text::new(alloc, text_at(module, *number))?)?;
    }
    Ok(texts)
}

/// The code that bytes of the module are, with its numbers moved, and without those in it.
pub(crate) fn moved_code(
    alloc: Global,
    tables: &Tables,
    base: u32,
    module: &RawModule,
    bytes: &[u8],
) -> Result<Code, NoMemory>
    requires kept { IsKeptCode module.now bytes.now }
    requires few { base + length module.now.objects ≤ MAX_TABLE }
    ensures { IfOk result (IsMovedCode tables.now base module.now bytes.now) }
{
    let parts = parts_of(bytes);
    let numbers = indexes_of(alloc, parts.names)?;
    let Some((first, others)) = numbers.split_first() else {
        unreachable!();
    };
    let name = Text::new(alloc, text_at(module, *first))?;
    let args = texts_at(alloc, module, others)?;
    let listed = items_of(alloc, parts.instructions)?;
    let instrs = moved_items(alloc, tables, base, module, &listed.items)?;
    let lines = lines_at(alloc, parts.lines, &listed.offsets)?;
    Ok(Code {
        name,
        args: Items::from_vec(args),
        defaults: parts.prelude.defaults,
        n_state: parts.prelude.n_state,
        n_exc: parts.prelude.n_exc,
        instrs: Items::from_vec(instrs),
        lines: Items::from_vec(lines),
        children: Items::new(alloc),
    })
}
