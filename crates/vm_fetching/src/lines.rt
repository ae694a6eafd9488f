//! The line of an instruction.

ghost use Rattle.std.specs.Prelude.{◌≡◌, ℕ, ◌≤◌, length};
ghost use Rattle.frame_moves.specs.mpy_base.declared.limits.TheConstants.{MAX_CODE_BYTES};
ghost use Rattle.bc_prelude.specs.Lines as tables;
ghost use Rattle.bc_rows.specs.bc_library.Shelf.{Shelf};
ghost use Rattle.vm_fetching.specs.Fetches.{IsVerifiedRow};

use bc_prelude::line_at;
use bc_rows::Row;

/// The line of the instruction at the offset, by a table that is no longer than a code.
fn line_in(table: &[u8], offset: u32) -> u32
    requires { length table.now ≤ MAX_CODE_BYTES }
    ensures { result ≡ tables.line_of table.now offset }
{
    line_at(table, offset)
}

/// The line of the instruction at the offset of a row. It walks through the row's line table.
pub fn line_of(row: &Row<'_>, offset: u32) -> u32
    requires { (shelf : Shelf) × (i : ℕ) × IsVerifiedRow shelf i row.now }
    ensures { result ≡ tables.line_of row.now.line_table.now offset }
{
    line_in(row.line_table, offset)
}
