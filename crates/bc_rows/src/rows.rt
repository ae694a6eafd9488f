//! The rows of a library.

ghost use Rattle.std.specs.Prelude.{◌≡◌, ℕ, ◌≤◌, ◌<◌, ◌^◌, length, None, Some, IfOk, IfNone, IfSome, option_copied, slice_get};
ghost use Rattle.bc_machine.specs.mpy_tree.File.{IsModule};
ghost use Rattle.bc_machine.specs.mpy_tree.Raw.{Module};
ghost use Rattle.bc_machine.specs.mpy_tree.Codes.{Placed};
ghost use Rattle.bc_library.specs.Shelf.{module_at};
ghost use Rattle.bc_rows.specs.declared.row.Row.{Row as CodeRow};
ghost use Rattle.bc_rows.specs.Codes.{code_numbered};
ghost use Rattle.bc_rows.specs.Made.{AreNamed, AreTables, module_in};
ghost use Rattle.bc_rows.specs.Rows.{IsRow, module_named};

use crate::codes::rows_of;
use crate::row::Row;
use arena_heap::{Constants, StrNo};
use bc_library::{Library, Member, library_law};
use mpy_base::limits::MAX_MODULES;
use mpy_base::{Items, NoMemory};
use qstr_pool::FIRST_OWN;
use std::alloc::Global;
use std::marker::Model;

/// The rows of a library's codes, and the modules that its texts name. Contracts see the library.
#[derive(Drop)]
pub struct Rows<'a> {
    library: &'a Library,
    tables: Vec<Items<Row<'a>>>,
    named: Vec<Option<u32>>,
}

impl<'a> Model for Rows<'a> {
    ghost use Rattle.std.specs.Coded.{codes};
    ghost use Rattle.bc_machine.specs.mpy_tree.contracts.module.Constant as constants;
    ghost use Rattle.bc_machine.specs.mpy_tree.contracts.raw.RawCode as raw_codes;
    ghost use Rattle.bc_library.specs.Shelf.{Shelf};

    ghost Value = { Shelf };

    ghost coded = { Prim.hlevel (codes, constants.the_row.coded, raw_codes.the_row.coded) };

    ghost use Rattle.bc_rows.specs.Made.{IsKept};

    ghost view = { λ r. r.library.now };

    ghost invariant = { λ r. IsKept r.library.now r.tables.items r.named.items };
}

/// The rows of the library's modules, in the order of their numbers.
#[tactic(auto, using(crate::proofs::Tables::none_behind, crate::proofs::Tables::no_module))]
fn tables_of(alloc: Global, library: &Library) -> Result<Vec<Items<Row<'_>>>, NoMemory>
    ensures rows { IfOk result (λ tables. AreTables library.now tables.items) }
    ensures all { IfOk result (λ tables. (i : ℕ) → length tables.items ≤ i → module_at library.now i ≡ None) }
{
    library_law(library);
    let mut tables = Vec::new(alloc);
    for number in 0..MAX_MODULES as u32 {
        let Some(verified) = library.module(number) else {
            break;
        };
        let rows = rows_of(alloc, library, number, verified.module())?;
        tables.push(Items::from_vec(rows))?;
    }
    Ok(tables)
}

/// The rows of the module that has the number.
fn table_at<'b, 'a>(tables: &'b [Items<Row<'a>>], number: u32) -> Option<&'b Items<Row<'a>>>
    ensures { option_copied result ≡ slice_get tables.now number }
{
    tables.get(number as usize)
}

/// The number of a module that a name leads to.
fn module_in(member: Option<Member>) -> Option<u32>
    ensures { result ≡ module_in member }
{
    match member {
        Some(Member::Module(number)) => Some(number),
        _ => None,
    }
}

/// The first module whose name is the text.
fn module_of(library: &Library, number: u32) -> Option<u32>
    ensures { result ≡ module_named library.now number }
{
    match library.text(StrNo::Pool(number)) {
        Some(text) => module_in(library.find(text)),
        None => None,
    }
}

/// The modules that the texts name, up to the last text.
#[tactic(auto, using(crate::proofs::Tables::one_named, crate::proofs::Tables::none_named))]
fn named_of(alloc: Global, library: &Library) -> Result<Vec<Option<u32>>, NoMemory>
    ensures named { IfOk result (λ named. AreNamed library.now named.items) }
    ensures others { IfOk result (λ named. (n : ℕ) → length named.items ≤ n → n < 2 ^ 32 → module_named library.now n ≡ None) }
{
    library_law(library);
    let mut named = Vec::new(alloc);
    for number in 0..=u32::MAX {
        if number >= FIRST_OWN && library.text(StrNo::Pool(number)).is_none() {
            break;
        }
        named.push(module_of(library, number))?;
    }
    Ok(named)
}

impl<'a> Rows<'a> {
    /// The rows of the library.
    pub fn new(alloc: Global, library: &'a Library) -> Result<Rows<'a>, NoMemory>
        ensures { IfOk result (λ rows. rows ≡ library.now) }
    {
        Ok(Rows {
            library,
            tables: tables_of(alloc, library)?,
            named: named_of(alloc, library)?,
        })
    }

    /// The row of a code of the module, which has that number in preorder. In constant time.
    pub fn row(&self, module_number: u32, code: u32) -> Option<&Row<'a>>
        ensures is { IfSome result (λ row. IsRow self.now module_number code row.now) }
        ensures none { IfNone result (code_numbered self.now module_number code ≡ None) }
    {
        match table_at(&self.tables, module_number) {
            Some(rows) => rows.get(code as usize),
            None => None,
        }
    }

    /// What holds of the library's modules: each is one that a file holds.
    pub fn modules_law(&self)
        ensures { (i : ℕ) (m : Module) → module_at self.now i ≡ Some m → IsModule m }
    {
        let _ = &self.library;
    }

    /// Each code of the library has a row.
    pub fn codes_law(&self)
        ensures { (i k : ℕ) (code : Placed) → code_numbered self.now i k ≡ Some code → (row : CodeRow) × IsRow self.now i k row }
    {
        let _ = &self.library;
    }

    /// The first module whose name is the text with the number. In constant time.
    pub fn module_of_text(&self, number: u32) -> Option<u32>
        ensures { result ≡ module_named self.now number }
    {
        *self.named.get(number as usize)?
    }
}
