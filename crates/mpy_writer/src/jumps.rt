//! Items that name other items by their positions.

ghost use Rattle.std.specs.Prelude.{◌≡◌, ◌↔◌, ◌+◌, ◌*◌, ◌<◌, ◌≤◌, ◌++◌, length, slice_index, flat_map, All, false, true, pos};
ghost use Rattle.std.specs.Prelude.{◌+ℤ◌, ◌-ℤ◌, ◌≤ℤ◌, ◌<ℤ◌, IsTrue, OnOk};
ghost use Rattle.mpy_tree.specs.bc_ops.Code.{spelling, IsEncodable};
ghost use Rattle.mpy_tree.specs.bc_ops.Offset as offsets;
ghost use Rattle.bc_labels.specs.Places as places;
ghost use Rattle.mpy_tree.specs.declared.module.Item.{Item};
ghost use Rattle.mpy_writer.specs.Positions as specs;
ghost use Rattle.mpy_writer.specs.Positions.{jump_in};

use bc_ops::{Instr, encode, offset_fits};
use mpy_base::NoMemory;
use mpy_tree::Item;

/// Does the item name another?
pub(crate) fn is_jump(item: &Item) -> bool
    ensures { result ≡ specs.is_jump item.now }
{
    matches!(item, Item::Jump(..) | Item::Unwind(..))
}

/// Does one of the items name another?
pub(crate) fn has_jumps(items: &[Item]) -> bool
    ensures { result ≡ false → All (λ item. specs.is_jump item ≡ false) items.now }
{
    for item in items {
        if is_jump(item) {
            return true;
        }
    }
    false
}

/// The position that the item names, and 0 for another item.
pub(crate) fn position_of(item: &Item) -> usize
    ensures { result ≡ specs.position_in item.now }
{
    match item {
        Item::Jump(_, position) => *position as usize,
        Item::Unwind(position, _) => *position as usize,
        _ => 0,
    }
}

/// The bytes of an item that names another, where its offset takes one byte.
pub(crate) fn short_size(item: &Item) -> usize
    ensures { result ≡ specs.short_size item.now }
{
    match item {
        Item::Jump(..) => 2,
        Item::Unwind(..) => 3,
        _ => 0,
    }
}

/// How many bytes an offset takes.
fn offset_size(wide: bool) -> usize
    ensures { result ≡ places.offset_size wide }
{
    if wide { 2 } else { 1 }
}

/// The offset from the end of an item's own to another item.
pub(crate) fn offset(starts: &[usize], from: usize, to: usize, wide: bool) -> i64
    requires from { from < length starts.now }
    requires to { to < length starts.now }
    requires near { All (λ start. start ≤ 6 * length starts.now) starts.now }
    ensures { result ≡ pos (slice_index starts.now to) -ℤ pos (slice_index starts.now from + 1 + places.offset_size wide) }
{
    let end = starts[from] + 1 + offset_size(wide);
    starts[to] as i64 - end as i64
}

/// Does the offset of the item fit? One of an item that names none always does.
pub(crate) fn fits(item: &Item, wide: bool, offset: i64) -> bool
    ensures { IsTrue result ↔ (specs.is_jump item.now ≡ true → offsets.Fits (specs.signed_in item.now) wide offset) }
{
    match item {
        Item::Jump(op, _) => offset_fits(op.has_signed_offset(), wide, offset),
        Item::Unwind(..) => offset_fits(true, wide, offset),
        _ => true,
    }
}

/// The offset in as many bits as an instruction has for it.
fn narrow(offset: i64) -> i32
    requires least { pos 0 ≤ℤ (offset +ℤ pos 0x8000) }
    requires below { offset <ℤ pos 0x8000 }
    ensures { result ≡ offset }
{
    offset as i32
}

/// Adds the bytes of an item that names another.
fn write_jump(out: &mut Vec<u8>, item: &Item, offset: i64, wide: bool) -> Result<(), NoMemory>
    requires { All IsEncodable (jump_in item.now offset wide) }
    ensures { OnOk result (out.new.items ≡ out.old.items ++ flat_map spelling (jump_in item.now offset wide)) }
{
    match item {
        Item::Jump(op, _) => {
            let offset = narrow(offset);
            encode(
                out,
                &Instr::Jump {
                    op: *op,
                    offset,
                    wide,
                },
            )
        }
        Item::Unwind(_, byte) => {
            let offset = narrow(offset);
            encode(
                out,
                &Instr::Unwind {
                    offset,
                    wide,
                    byte: *byte,
                },
            )
        }
        _ => Ok(()),
    }
}

/// Adds what stands in front of an item that names another, and the item.
pub(crate) fn add_jump(
    out: &mut Vec<u8>,
    front: &[u8],
    item: &Item,
    offset: i64,
    wide: bool,
) -> Result<(), NoMemory>
    requires { All IsEncodable (jump_in item.now offset wide) }
    ensures { OnOk result (out.new.items ≡ (out.old.items ++ front.now) ++ flat_map spelling (jump_in item.now offset wide)) }
{
    out.extend_from_slice(front)?;
    write_jump(out, item, offset, wide)
}
