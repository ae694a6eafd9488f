//! Instructions with the fewest wide offsets.

ghost use Rattle.std.specs.Prelude.{◌≡◌, ◌≤◌, [], length, drop, All, IfOk};
ghost use Rattle.std.specs.List.{between};
ghost use Rattle.bc_labels.specs.Choice.{IsLayout, IsTooFar, IsFewest};
ghost use Rattle.mpy_writer.specs.File.{labelled_from};
ghost use Rattle.mpy_writer.specs.Layouts.{IsLaidOut};
ghost use Rattle.mpy_writer.specs.Outcome.{IfFault};
ghost use Rattle.mpy_writer.specs.Positions.{drafted, starts_of, spread};
ghost use Rattle.mpy_writer.specs.Tables.{TablesFit};
ghost use Rattle.mpy_writer.specs.Writable.{IsNumberedItem};

use crate::draft::{Draft, make_draft};
use crate::fault::WriteFault;
use crate::jumps::{add_jump, fits, has_jumps, offset, position_of, short_size};
use crate::tables::Tables;
use crate::widths::settle;
use mpy_base::Refused;
use mpy_tree::Item;
use std::alloc::Global;

/// The bytes of instructions, and where each starts.
#[derive(Drop)]
pub(crate) struct Layout {
    pub bytes: Vec<u8>,
    pub starts: Vec<usize>,
}

/// The bytes from one place to another.
fn part(bytes: &[u8], from: usize, to: usize) -> &[u8]
    requires order { from ≤ to }
    requires within { to ≤ length bytes.now }
    ensures { result.now ≡ between from to bytes.now }
{
    &bytes[from..to]
}

/// The bytes from a place on.
fn rest(bytes: &[u8], from: usize) -> &[u8]
    requires { from ≤ length bytes.now }
    ensures { result.now ≡ drop from bytes.now }
{
    &bytes[from..]
}

/// The bytes of the draft with the offsets of these widths.
fn fill(
    alloc: Global,
    tables: &Tables,
    items: &[Item],
    draft: &Draft,
    starts: &[usize],
    widths: &[bool],
) -> Result<Vec<u8>, Refused<WriteFault>>
    requires fit { TablesFit tables.now }
    requires sound { All (IsNumberedItem (length items.now)) items.now }
    requires text { draft.now.text.items ≡ drafted tables.now items.now }
    requires short { draft.now.starts.items ≡ starts_of tables.now items.now [] }
    requires sized { length widths.now ≡ length items.now }
    requires starts { starts.now ≡ starts_of tables.now items.now widths.now }
    requires fewest { IsFewest (labelled_from tables.now 0 items.now) (spread widths.now) }
    ensures ok { IfOk result (λ bytes. IsLayout (labelled_from tables.now 0 items.now) bytes.items) }
    ensures fault { IfFault result (λ fault. (fault ≡ WriteFault.TooFar) × IsTooFar (labelled_from tables.now 0 items.now)) }
{
    let text = draft.text.as_slice();
    let short = draft.starts.as_slice();
    let mut out = Vec::with_capacity(alloc, text.len())?;
    let mut from = 0;
    for (i, item) in items.iter().enumerate() {
        let size = short_size(item);
        if size > 0 {
            let offset = offset(starts, i, position_of(item), widths[i]);
            if !fits(item, widths[i], offset) {
                return Err(Refused::Fault(WriteFault::TooFar));
            }
            let start = short[i];
            let front = part(text, from, start);
            add_jump(&mut out, front, item, offset, widths[i])?;
            from = start + size;
        }
    }
    out.extend_from_slice(rest(text, from))?;
    Ok(out)
}

/// The layout of instructions of which some may be jumps.
fn with_jumps(
    alloc: Global,
    tables: &Tables,
    items: &[Item],
    draft: &Draft,
) -> Result<Layout, Refused<WriteFault>>
    requires fit { TablesFit tables.now }
    requires sound { All (IsNumberedItem (length items.now)) items.now }
    requires text { draft.now.text.items ≡ drafted tables.now items.now }
    requires short { draft.now.starts.items ≡ starts_of tables.now items.now [] }
    ensures ok { IfOk result (IsLaidOut (labelled_from tables.now 0 items.now)) }
    ensures fault { IfFault result (λ fault. (fault ≡ WriteFault.TooFar) × IsTooFar (labelled_from tables.now 0 items.now)) }
{
    let mut starts = Vec::from_slice(alloc, &draft.starts)?;
    let mut widths = vec![in alloc; false; items.len()]?;
    settle(tables, items, &draft.starts, &mut starts, &mut widths)?;
    let bytes = fill(alloc, tables, items, draft, &starts, &widths)?;
    Ok(Layout { bytes, starts })
}

/// The layout of the instructions, each jump with the offset of the item that it names.
pub(crate) fn by_positions(
    alloc: Global,
    tables: &Tables,
    items: &[Item],
) -> Result<Layout, Refused<WriteFault>>
    requires fit { TablesFit tables.now }
    requires sound { All (IsNumberedItem (length items.now)) items.now }
    ensures ok { IfOk result (IsLaidOut (labelled_from tables.now 0 items.now)) }
    ensures fault { IfFault result (λ fault. (fault ≡ WriteFault.TooFar) × IsTooFar (labelled_from tables.now 0 items.now)) }
{
    let draft = make_draft(alloc, tables, items)?;
    if has_jumps(items) {
        with_jumps(alloc, tables, items, &draft)
    } else {
        Ok(Layout {
            bytes: draft.text,
            starts: draft.starts,
        })
    }
}
