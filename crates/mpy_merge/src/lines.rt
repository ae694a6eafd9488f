//! The lines of a code's instructions.

ghost use Rattle.std.specs.Prelude.{◌≡◌, ◌≤◌, length, map, All, IfOk};
ghost use Rattle.std.specs.List.Sorted.{IsStrictlyIncreasing};
ghost use Rattle.bc_verify.specs.bc_prelude.Lines.{line_of};

use bc_prelude::Place;
use mpy_base::NoMemory;
use mpy_base::limits::MAX_CODE_BYTES;
use std::alloc::Global;

/// The lines of the instructions that start at the offsets.
pub(crate) fn lines_at(alloc: Global, table: &[u8], offsets: &[usize]) -> Result<Vec<u32>, NoMemory>
    requires short { length table.now ≤ MAX_CODE_BYTES }
    requires rising { IsStrictlyIncreasing offsets.now }
    requires within { All (λ offset. offset ≤ MAX_CODE_BYTES) offsets.now }
    ensures { IfOk result (λ lines. lines.items ≡ map (line_of table.now) offsets.now) }
{
    let mut lines = Vec::with_capacity(alloc, offsets.len())?;
    let mut place = Place::start();
    for offset in offsets {
        place = place.advance(table, *offset as u32);
        lines.push(place.line)?;
    }
    Ok(lines)
}
