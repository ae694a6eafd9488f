//! The outermost code of a merged file.

ghost use Rattle.std.specs.Prelude.{◌≡◌, ◌≤◌, ◌++◌, ◌∷◌, [], length, map, IfOk, OnOk};
ghost use Rattle.mpy_writer.specs.File.{IsOwn};
ghost use Rattle.mpy_writer.specs.Tables.{TablesFit};
ghost use Rattle.mpy_merge.specs.Merged as specs;
ghost use Rattle.mpy_merge.specs.Merged.{calls, outer_items};

use crate::fault::MAX_PARTS;
use bc_ops::{Instr, Op};
use mpy_base::limits::MAX_CODE_BYTES;
use mpy_base::{Items, NoMemory, Refused, Text};
use mpy_tree::{Code, Item};
use mpy_writer::{Tables, write_code};
use std::alloc::Global;

/// The instructions that call the codes of `modules` modules in order.
fn items(alloc: Global, modules: usize) -> Result<Vec<Item>, NoMemory>
    requires { modules ≤ MAX_PARTS }
    ensures { IfOk result (λ items. items.items ≡ outer_items modules) }
{
    let mut items = Vec::new(alloc);
    for place in 0..modules as u32 {
        items.push(Item::Plain(Instr::Num(Op::MakeFunction, place)))?;
        items.push(Item::Plain(Instr::Num(Op::CallFunction, 0)))?;
        items.push(Item::Plain(Instr::Plain(Op::PopTop)))?;
    }
    items.push(Item::Plain(Instr::Plain(Op::LoadConstNone)))?;
    items.push(Item::Plain(Instr::Plain(Op::ReturnValue)))?;
    Ok(items)
}

/// The outermost code of `modules` modules, without those in it.
fn outer_code(alloc: Global, modules: usize) -> Result<Code, NoMemory>
    requires { modules ≤ MAX_PARTS }
    ensures { IfOk result (λ code. code ≡ specs.outer_code modules) }
{
    let items = items(alloc, modules)?;
    let lines = vec![in alloc; 1; items.len()]?;
    Ok(Code {
        name: Text::new(alloc, b"<module>")?,
        args: Items::new(alloc),
        defaults: 0,
        n_state: 1,
        n_exc: 0,
        instrs: Items::from_vec(items),
        lines: Items::from_vec(lines),
        children: Items::new(alloc),
    })
}

/// The own bytes of the outermost code of `modules` modules.
pub(crate) fn outer_own(alloc: Global, tables: &Tables, modules: usize) -> Result<Vec<u8>, NoMemory>
    requires few { modules ≤ MAX_PARTS }
    requires fit { TablesFit tables.now }
    ensures own { IfOk result (λ own. IsOwn tables.now (specs.outer_code modules) own.items) }
    ensures short { IfOk result (λ own. length own.items ≤ MAX_CODE_BYTES) }
{
    let code = outer_code(alloc, modules)?;
    match write_code(alloc, tables, &code) {
        Ok(own) => Ok(own),
        Err(Refused::NoMemory) => Err(NoMemory),
        Err(Refused::Fault(_)) => unreachable!(),
    }
}
