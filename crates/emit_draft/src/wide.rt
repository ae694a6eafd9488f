//! How long code gets.

ghost use Rattle.std.specs.Prelude.{◌≡◌, ◌≤◌, ◌-◌, ◌^◌, min, map};
ghost use Rattle.emit_draft.specs.Draft.{Labels};
ghost use Rattle.emit_draft.specs.Emits.{item_at, line_at};
ghost use Rattle.emit_draft.specs.Wide.{wide_instr as wide_of, wide_item as wide_in, wide_length as wide_all};

use crate::draft::{Draft, DraftItem};
use bc_ops::{Instr, Op};

/// How many bytes an instruction takes with its operand at its longest.
fn wide_instr(instr: Instr) -> usize
    ensures { result ≡ wide_of instr }
{
    match instr {
        Instr::Plain(_) | Instr::Unary(_) | Instr::Binary(_) => 1,
        Instr::Name(..) => 4,
        Instr::Num(op, _) => {
            if matches!(op, Op::LoadFast | Op::StoreFast) {
                return 1;
            }
            4
        }
        Instr::Int(n) => {
            if -16 <= n && n < 48 {
                return 1;
            }
            6
        }
        Instr::Jump { .. } => 3,
        Instr::Unwind { .. } => 4,
    }
}

/// How many bytes an item of a draft takes with its operand at its longest.
fn wide_item(item: &DraftItem) -> usize
    ensures { (labels : Labels) → result ≡ wide_in (item_at labels item.now) }
{
    match item {
        DraftItem::Plain(instr) => wide_instr(*instr),
        DraftItem::Named(..) | DraftItem::Str(_) => 4,
        DraftItem::Jump(..) => 3,
        DraftItem::Unwind(..) => 4,
    }
}

/// The bytes of a draft's instructions with each operand at its longest, or the greatest number where they are more.
pub fn wide_length(draft: &Draft) -> usize
    ensures { (labels : Labels) → result ≡ min (wide_all (map (line_at labels) draft.now.lines)) (2 ^ 64 - 1) }
{
    let lines = draft.lines.as_slice();
    let mut length: usize = 0;
    for line in lines {
        length = length.saturating_add(wide_item(&line.item));
    }
    length
}
