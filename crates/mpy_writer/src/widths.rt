//! The choice of widths with the fewest wide offsets.

ghost use Rattle.std.specs.Prelude.{◌≡◌, ◌+◌, ◌<◌, [], length, All, false, IsTrue, OnOk};
ghost use Rattle.bc_labels.specs.Places.{offset_size};
ghost use Rattle.bc_labels.specs.Choice.{ShortFit, IsNeeded, IsFewest, IsRound, shorts};
ghost use Rattle.mpy_writer.specs.File.{labelled_from};
ghost use Rattle.mpy_writer.specs.Positions.{numbered, starts_of, OnlyJumps, spread};
ghost use Rattle.mpy_writer.specs.Tables.{TablesFit};
ghost use Rattle.mpy_writer.specs.Writable.{IsNumberedItem};

use crate::jumps::{fits, offset, position_of};
use crate::tables::Tables;
use mpy_base::NoMemory;
use mpy_tree::Item;

/// The bytes that a wide offset has more than another.
fn growth(wide: bool) -> usize
    ensures { result + 1 ≡ offset_size wide }
{
    if wide { 1 } else { 0 }
}

/// Finds where the items of the tables start with these widths, of which `short` says where they start with none wide.
fn measure(
    starts: &mut Vec<usize>,
    tables: &Tables,
    items: &[Item],
    short: &[usize],
    widths: &[bool],
) -> Result<(), NoMemory>
    requires fit { TablesFit tables.now }
    requires sound { All (IsNumberedItem (length items.now)) items.now }
    requires short { short.now ≡ starts_of tables.now items.now [] }
    requires sized { length widths.now ≡ length items.now }
    requires only { OnlyJumps (numbered tables.now items.now) widths.now }
    ensures { OnOk result (starts.new.items ≡ starts_of tables.now items.now widths.now) }
{
    starts.clear();
    let mut grown = 0;
    for i in 0..items.len() {
        let start = short[i] + grown;
        starts.push(start)?;
        grown += growth(widths[i]);
    }
    Ok(())
}

/// Makes each offset wide that doesn't fit one byte where the items start there, and says whether there was one.
fn widen(tables: &Tables, items: &[Item], starts: &[usize], widths: &mut [bool]) -> bool
    requires fit { TablesFit tables.now }
    requires sound { All (IsNumberedItem (length items.now)) items.now }
    requires sized { length widths.old ≡ length items.now }
    requires starts { starts.now ≡ starts_of tables.now items.now widths.old }
    ensures sized { length widths.new ≡ length widths.old }
    ensures round { IsRound (labelled_from tables.now 0 items.now) (spread widths.old) (spread widths.new) }
    ensures fewer { IsTrue result → shorts (spread widths.new) < shorts (spread widths.old) }
    ensures same { result ≡ false → widths.new ≡ widths.old }
    ensures done { result ≡ false → ShortFit (labelled_from tables.now 0 items.now) (spread widths.old) }
{
    let mut wider = false;
    for (i, item) in items.iter().enumerate() {
        if !widths[i] && !fits(item, false, offset(starts, i, position_of(item), false)) {
            widths[i] = true;
            wider = true;
        }
    }
    wider
}

/// Makes the offsets wide that have to be, and keeps with them where the items start.
pub(crate) fn settle(
    tables: &Tables,
    items: &[Item],
    short: &[usize],
    starts: &mut Vec<usize>,
    widths: &mut [bool],
) -> Result<(), NoMemory>
    requires fit { TablesFit tables.now }
    requires sound { All (IsNumberedItem (length items.now)) items.now }
    requires short { short.now ≡ starts_of tables.now items.now [] }
    requires sized { length widths.old ≡ length items.now }
    requires only { OnlyJumps (numbered tables.now items.now) widths.old }
    requires needed { IsNeeded (labelled_from tables.now 0 items.now) (spread widths.old) }
    requires starts { starts.old.items ≡ starts_of tables.now items.now widths.old }
    ensures sized { OnOk result (length widths.new ≡ length items.now) }
    ensures fewest { OnOk result (IsFewest (labelled_from tables.now 0 items.now) (spread widths.new)) }
    ensures starts { OnOk result (starts.new.items ≡ starts_of tables.now items.now widths.new) }
{
    'rounds: while widen(tables, items, starts, widths) {
        measure(starts, tables, items, short, widths)?;
    }
    Ok(())
}
