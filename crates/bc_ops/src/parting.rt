//! A code's bytes parted into the list of its instructions.

ghost use Rattle.std.specs.Prelude.{◌≡◌, ◌≤◌, List, [], IfOk, length, map};
ghost use Rattle.std.specs.List.Sorted.{IsStrictlyIncreasing};
ghost use Rattle.bc_ops.specs.declared.listing.Item.{Item};
ghost use Rattle.bc_ops.specs.Listing as specs;
ghost use Rattle.bc_ops.specs.Listing.{IsListOf, Lists};
ghost use Rattle.bc_ops.specs.Parting.{IsParted, placed};

use crate::decoding::decode_at;
use crate::instr::Instr;
use crate::listing::{Item, Target};
use mpy_base::NoMemory;
use mpy_base::limits::MAX_CODE_BYTES;
use std::alloc::Global;

/// The instructions of a code, and the offset that each starts at.
#[derive(Debug, Drop)]
pub struct Listed {
    pub items: Vec<Item>,
    pub offsets: Vec<usize>,
}

/// The items as their bytes have them, each jump with the offset that it goes to.
#[derive(Drop)]
struct Parted {
    items: Vec<Item>,
    offsets: Vec<usize>,
}

/// The item of an instruction that ends at the offset, a jump with the offset that it goes to.
#[inline(always)]
fn parted_item(instr: Instr, end: usize) -> Item
    requires { end ≤ MAX_CODE_BYTES }
    ensures { result ≡ specs.item [] end instr }
{
    match instr {
        Instr::Jump { op, offset, .. } => {
            Item::Jump(op, Target::Offset(end as i64 + i64::from(offset)))
        }
        Instr::Unwind { offset, byte, .. } => {
            let behind = end.saturating_sub(1) as i64;
            Item::Unwind(Target::Offset(behind + i64::from(offset)), byte)
        }
        instr => Item::Plain(instr),
    }
}

/// Reads one instruction behind the other.
fn part(alloc: Global, code: &[u8]) -> Result<Parted, NoMemory>
    requires decodes { (items : List Item) × IsListOf code.now items }
    requires short { length code.now ≤ MAX_CODE_BYTES }
    ensures { IfOk result (λ parted. IsParted code.now parted.offsets.items parted.items.items) }
{
    let room = code.len() / 2;
    let mut items = Vec::with_capacity(alloc, room)?;
    let mut offsets = Vec::with_capacity(alloc, room)?;
    let mut at = 0;
    while at < code.len() {
        let Ok((instr, end)) = decode_at(code, at) else {
            unreachable!();
        };
        offsets.push(at)?;
        items.push(parted_item(instr, end))?;
        at = end;
    }
    Ok(Parted { items, offsets })
}

/// The position of the instruction that starts at the offset, if one does.
fn target(starts: &[usize], offset: i64) -> Target
    requires { IsStrictlyIncreasing starts.now }
    ensures { result ≡ specs.target starts.now 0 offset }
{
    if offset < 0 {
        return Target::Offset(offset);
    }
    match starts.binary_search(&(offset as usize)) {
        Ok(position) => Target::Position(position),
        Err(_) => Target::Offset(offset),
    }
}

/// Gives a jump to an offset the position of the instruction that starts there, if one does. Other items aren't written.
#[inline(always)]
fn settle(starts: &[usize], item: &mut Item)
    requires { IsStrictlyIncreasing starts.now }
    ensures { item.new ≡ placed starts.now item.old }
{
    match *item {
        Item::Jump(op, Target::Offset(offset)) => *item = Item::Jump(op, target(starts, offset)),
        Item::Unwind(Target::Offset(offset), byte) => {
            *item = Item::Unwind(target(starts, offset), byte);
        }
        _ => {}
    }
}

/// Gives each jump the position of the instruction that starts at its offset, if one does.
fn place(starts: &[usize], items: &mut [Item])
    requires { IsStrictlyIncreasing starts.now }
    ensures { items.new ≡ map (placed starts.now) items.old }
{
    for item in items.iter_mut() {
        settle(starts, item);
    }
}

/// The list of a code's instructions.
pub fn items_of(alloc: Global, code: &[u8]) -> Result<Listed, NoMemory>
    requires decodes { (items : List Item) × IsListOf code.now items }
    requires short { length code.now ≤ MAX_CODE_BYTES }
    ensures { IfOk result (λ listed. Lists code.now listed.items.items listed.offsets.items) }
{
    let Parted { mut items, offsets } = part(alloc, code)?;
    place(&offsets, &mut items);
    Ok(Listed { items, offsets })
}
