//! A row of one code.

ghost use Rattle.std.specs.Prelude.{◌≡◌, ℕ, ◌+◌, ◌≤◌, ◌^◌, List, [], ◌++◌, length, drop, map, IfOk, IsSome};
ghost use Rattle.mpy_base.specs.Vuint.{Spells};
ghost use Rattle.mpy_base.specs.declared.limits.TheConstants.{MAX_CODE_BYTES};
ghost use Rattle.bc_library.specs.Shelf.{entry_at, table_text};
ghost use Rattle.bc_library.specs.Texts.{text_numbered};
ghost use Rattle.bc_library.specs.bc_flow.Code as flow;
ghost use Rattle.bc_rows.specs.Made.{AreIndexes, IsOwnCodeIn};
ghost use Rattle.bc_rows.specs.Rows.{IsRowOf};

use bc_library::Library;
use bc_ops::{Instr, Item, Op, items_of};
use bc_prelude::parts_of;
use mpy_base::{Items, NoMemory, read_vuint};
use std::alloc::Global;

/// What a run of a code in its bytes asks for.
#[derive(Drop)]
pub struct Row<'a> {
    /// The bytes of its instructions.
    pub instructions: &'a [u8],
    /// The bytes of its line table.
    pub line_table: &'a [u8],
    /// The number of its name in the library's pool.
    pub name: u32,
    /// The number of the name of its module's source.
    pub source: u32,
    /// The numbers of its parameters' names.
    pub params: Items<u32>,
    /// How many of the last parameters have defaults.
    pub given: u32,
    /// One more than the greatest local that an instruction names, and at least the parameters.
    pub locals: usize,
    /// The slots for locals and the stack.
    pub n_state: u32,
    /// The handler entries.
    pub n_exc: u32,
    /// The numbers of its children in the module.
    pub children: Items<u32>,
}

/// The number of the text that the index at `at` leads to, and the place behind the index.
fn text_at(library: &Library, number: u32, names: &[u8], at: usize) -> (u32, usize)
    requires inside { at ≤ length names.now }
    requires known { (text rest : List ℕ) × (index : ℕ) × Spells text index × (drop at names.now ≡ text ++ rest)
        × IsSome (entry_at library.now number index) }
    ensures { (text rest : List ℕ) (index : ℕ) → Spells text index → drop at names.now ≡ text ++ rest
        → (text_numbered library.now.pool result.0 ≡ table_text library.now number index) × (result.1 ≡ at + length text) }
{
    let Ok((index, behind)) = read_vuint(names, at) else {
        unreachable!();
    };
    let Some(text) = library.text_number(number, index) else {
        unreachable!();
    };
    (text, behind)
}

/// The numbers of the texts that the `count` indexes in `names` lead to.
fn texts_of(
    alloc: Global,
    library: &Library,
    number: u32,
    names: &[u8],
    count: u32,
) -> Result<Vec<u32>, NoMemory>
    requires { (indexes : List ℕ) × AreIndexes library.now number count names.now indexes }
    ensures { IfOk result (λ numbers. (indexes : List ℕ) → AreIndexes library.now number count names.now indexes
        → map (text_numbered library.now.pool) numbers.items ≡ map (table_text library.now number) indexes) }
{
    let mut numbers = Vec::new(alloc);
    let mut place = 0;
    for _ in 0..count {
        let (text, behind) = text_at(library, number, names, place);
        numbers.push(text)?;
        place = behind;
    }
    Ok(numbers)
}

/// One more than the local that the instruction names, or 0.
#[tactic(auto, unfolding(bc_flow::specs::Code::item_locals))]
fn local_of(item: Item) -> usize
    ensures { result ≡ flow.item_locals item }
{
    match item {
        Item::Plain(Instr::Num(op, n)) => match op {
            Op::LoadFast | Op::StoreFast | Op::LoadFastN | Op::StoreFastN | Op::DeleteFast => {
                n as usize + 1
            }
            _ => 0,
        },
        _ => 0,
    }
}

/// The locals of a code.
fn locals_in(params: u32, items: &[Item]) -> usize
    ensures { result ≡ flow.locals params items.now }
{
    let mut most = params as usize;
    for item in items {
        most = most.max(local_of(*item));
    }
    most
}

/// The row of a code that has no children.
pub(crate) fn own_row<'a>(
    alloc: Global,
    library: &Library,
    number: u32,
    source: u32,
    code: &'a [u8],
) -> Result<Row<'a>, NoMemory>
    requires own { IsOwnCodeIn library.now number code.now }
    requires short { length code.now ≤ MAX_CODE_BYTES }
    requires source { text_numbered library.now.pool source ≡ table_text library.now number 0 }
    ensures { IfOk result (IsRowOf library.now number (record { path = []; bytes = code.now; children = [] })) }
{
    let parts = parts_of(code);
    let count = 1 + parts.prelude.args;
    let mut params = texts_of(alloc, library, number, parts.names, count)?;
    let name = params.remove(0);
    let listed = items_of(alloc, parts.instructions)?;
    Ok(Row {
        instructions: parts.instructions,
        line_table: parts.lines,
        name,
        source,
        params: Items::from_vec(params),
        given: parts.prelude.defaults,
        locals: locals_in(parts.prelude.args, &listed.items),
        n_state: parts.prelude.n_state,
        n_exc: parts.prelude.n_exc,
        children: Items::new(alloc),
    })
}
