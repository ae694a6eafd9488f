//! The rows of the codes of a module.

ghost use Rattle.std.specs.Prelude.{◌≡◌, ◌<◌, ℕ, List, length, IfOk, OnOk, Some, slice_get, slice_set};
ghost use Rattle.bc_machine.specs.mpy_tree.File.{IsModule};
ghost use Rattle.bc_machine.specs.mpy_tree.Codes.{codes_to, codes_of};
ghost use Rattle.bc_library.specs.Shelf.{module_at, table_text};
ghost use Rattle.bc_library.specs.Texts.{text_numbered};
ghost use Rattle.bc_rows.specs.declared.row.Row.{Row};
ghost use Rattle.bc_rows.specs.Made.{Adds, AreRows, IsCodeIn, with_children};

use crate::row::{Row, own_row};
use bc_library::Library;
use bc_machine::{RawCode, RawModule, module_law};
use mpy_base::limits::MAX_DEPTH;
use mpy_base::{Items, NoMemory};
use std::alloc::Global;

/// The number of the next row. A table of 2^32 rows is answered as want of memory.
fn next_number(rows: &[Row<'_>]) -> Result<u32, NoMemory>
    ensures { IfOk result (λ number. number ≡ length rows.now) }
{
    if rows.len() > u32::MAX as usize {
        return Err(NoMemory);
    }
    Ok(rows.len() as u32)
}

/// Puts the numbers of its children into a row.
fn put_children(rows: &mut [Row<'_>], place: usize, children: Items<u32>)
    requires { place < length rows.old }
    ensures { (row : Row) → slice_get rows.old place ≡ Some row → rows.new ≡ slice_set rows.old place (with_children row children) }
{
    rows[place].children = children;
}

/// Adds the row of a code, and behind it those of the codes in it, which have at most `levels` levels. Whatever path the code
/// has, its rows are the same.
fn add_code<'a>(
    alloc: Global,
    library: &Library,
    number: u32,
    source: u32,
    rows: &mut Vec<Row<'a>>,
    code: &'a RawCode,
    levels: usize,
) -> Result<(), NoMemory>
    requires is { IsCodeIn library.now number levels code.now }
    requires source { text_numbered library.now.pool source ≡ table_text library.now number 0 }
    ensures { OnOk result ((path : List ℕ) → Adds library.now number (codes_to levels path (length rows.old.items) code.now) rows.old.items rows.new.items) }
{
    let place = rows.len();
    let row = own_row(alloc, library, number, source, code.bytes.bytes())?;
    rows.push(row)?;
    let mut children = Items::new(alloc);
    for child in code.children.as_slice() {
        let next = next_number(rows)?;
        children.push(next)?;
        add_code(alloc, library, number, source, rows, child, levels - 1)?;
    }
    put_children(rows, place, children);
    Ok(())
}

/// The rows of the module that has the number.
pub(crate) fn rows_of<'a>(
    alloc: Global,
    library: &Library,
    number: u32,
    raw: &'a RawModule,
) -> Result<Vec<Row<'a>>, NoMemory>
    requires { module_at library.now number ≡ Some raw.now }
    ensures rows { IfOk result (λ rows. AreRows library.now number (codes_of raw.now) rows.items) }
    ensures is { IsModule raw.now }
{
    module_law(raw);
    let Some(source) = library.text_number(number, 0) else {
        unreachable!();
    };
    let mut rows = Vec::new(alloc);
    add_code(
        alloc,
        library,
        number,
        source,
        &mut rows,
        raw.code(),
        MAX_DEPTH,
    )?;
    Ok(rows)
}
