//! Instructions where each offset is 0 and takes one byte.

ghost use Rattle.std.specs.Prelude.{◌≡◌, ◌++◌, [], length, flat_map, All, false, pos, IfOk, OnOk};
ghost use Rattle.mpy_tree.specs.bc_ops.Code.{spelling};
ghost use Rattle.bc_labels.specs.Choice.{instr_of};
ghost use Rattle.mpy_writer.specs.File.{item_of};
ghost use Rattle.mpy_writer.specs.Positions.{drafted, starts_of};
ghost use Rattle.mpy_writer.specs.Tables as numbers;
ghost use Rattle.mpy_writer.specs.Tables.{TablesFit};
ghost use Rattle.mpy_writer.specs.Writable.{IsFine, IsNumberedItem};

use crate::object::object_text;
use crate::tables::Tables;
use bc_ops::{Instr, Op, encode};
use mpy_base::NoMemory;
use mpy_base::limits::MAX_DEPTH;
use mpy_tree::{Constant, Item};
use std::alloc::Global;

/// The bytes of items, and where each starts.
#[derive(Drop)]
pub(crate) struct Draft {
    pub text: Vec<u8>,
    pub starts: Vec<usize>,
}

/// The number of the object, and 0 of one that has none.
fn object_number(alloc: Global, tables: &Tables, object: &Constant) -> Result<u32, NoMemory>
    requires { IsFine MAX_DEPTH object.now }
    ensures { IfOk result (λ n. n ≡ numbers.object_number tables.now object.now) }
{
    let text = object_text(alloc, object)?;
    Ok(tables.objects.find(&text).unwrap_or(0))
}

/// Adds the bytes of an item.
pub(crate) fn write_draft(
    alloc: Global,
    out: &mut Vec<u8>,
    tables: &Tables,
    item: &Item,
    count: usize,
) -> Result<(), NoMemory>
    requires fit { TablesFit tables.now }
    requires sound { IsNumberedItem count item.now }
    ensures { OnOk result (out.new.items ≡ out.old.items ++ flat_map spelling (instr_of (item_of tables.now item.now) (pos 0) false)) }
{
    match item {
        Item::Plain(instr) => encode(out, instr),
        Item::Named(op, text) => encode(out, &Instr::Name(*op, tables.text_number(text))),
        Item::Object(object) => {
            let number = object_number(alloc, tables, object)?;
            encode(out, &Instr::Num(Op::LoadConstObj, number))
        }
        Item::Jump(op, _) => encode(
            out,
            &Instr::Jump {
                op: *op,
                offset: 0,
                wide: false,
            },
        ),
        Item::Unwind(_, byte) => encode(
            out,
            &Instr::Unwind {
                offset: 0,
                wide: false,
                byte: *byte,
            },
        ),
    }
}

/// The draft of the items.
pub(crate) fn make_draft(alloc: Global, tables: &Tables, items: &[Item]) -> Result<Draft, NoMemory>
    requires fit { TablesFit tables.now }
    requires sound { All (IsNumberedItem (length items.now)) items.now }
    ensures text { IfOk result (λ draft. draft.text.items ≡ drafted tables.now items.now) }
    ensures starts { IfOk result (λ draft. draft.starts.items ≡ starts_of tables.now items.now []) }
{
    let mut text = Vec::with_capacity(alloc, items.len())?;
    let mut starts = Vec::with_capacity(alloc, items.len())?;
    for item in items {
        starts.push(text.len())?;
        write_draft(alloc, &mut text, tables, item, items.len())?;
    }
    Ok(Draft { text, starts })
}
