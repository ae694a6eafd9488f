//! Jumps out of loops.

ghost use Rattle.std.specs.Prelude.{OnOk};
ghost use Rattle.emit_expr.specs.emit_draft.declared.scope.Scope.{Scope as Names};
ghost use Rattle.emit_stmt.specs.SimpleEmits.{EmitsJ};

use crate::puts::put_plain;
use bc_ops::Op;
use emit_draft::{Draft, DraftItem};
use mpy_base::NoMemory;

/// The loop around. Where there is none, both labels are the code's end.
#[derive(Clone, Copy)]
pub struct Loop {
    /// The label of the place that a `break` goes to.
    pub end: usize,
    /// The label of the place that a `continue` goes to.
    pub next: usize,
    /// The entries that were set up in it and are held.
    pub entries: usize,
    /// Whether it has an iterator.
    pub iterator: bool,
}

/// The most entries that a jump out of a loop can name.
const MAX_ENTRIES: usize = 127;

/// A jump with no entry held. Of an iterator the four values are taken first.
fn put_jump(draft: &mut Draft, line: u32, label: usize, iterator: bool) -> Result<(), NoMemory>
    ensures { OnOk result ((s : Names) → EmitsJ draft.old draft.new s line label 0 iterator) }
{
    if !iterator {
        draft.put(line, DraftItem::Jump(Op::Jump, label))?;
        return Ok(());
    }
    put_plain(draft, line, Op::PopTop)?;
    put_plain(draft, line, Op::PopTop)?;
    put_plain(draft, line, Op::PopTop)?;
    put_plain(draft, line, Op::PopTop)?;
    draft.put(line, DraftItem::Jump(Op::Jump, label))?;
    Ok(())
}

/// A jump out of a loop, which leaves the entries that are held and the iterator.
pub(crate) fn emit_jump(
    draft: &mut Draft,
    line: u32,
    label: usize,
    entries: usize,
    iterator: bool,
) -> Result<(), NoMemory>
    ensures { OnOk result ((s : Names) → EmitsJ draft.old draft.new s line label entries iterator) }
{
    if entries > MAX_ENTRIES {
        draft.crowded = true;
        return Ok(());
    }
    if entries == 0 {
        return put_jump(draft, line, label, iterator);
    }
    let top = if iterator { 128 } else { 0 };
    draft.put(line, DraftItem::Unwind(label, entries as u8 + top))?;
    Ok(())
}
