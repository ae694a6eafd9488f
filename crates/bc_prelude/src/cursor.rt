//! A walk along a table of lines, for offsets that rise.

ghost use Rattle.std.specs.Prelude.{◌≡◌, ℕ, ◌≤◌, List, length};
ghost use Rattle.bc_prelude.specs.Lines.{line_of};
ghost use Rattle.bc_prelude.specs.Cursor.{IsPlace};

use crate::lines::entry_at;
use mpy_base::limits::MAX_CODE_BYTES;

/// A place in a table of lines.
#[derive(Clone, Copy, Debug)]
pub struct Place {
    /// How many bytes of the table stand in front of it.
    pub at: usize,
    /// How many bytes of the instructions the entries in front of it pass.
    pub passed: u32,
    /// The line behind them.
    pub line: u32,
}

impl Place {
    /// The place in front of a table.
    pub fn start() -> Place
        ensures place { (table : List ℕ) → IsPlace table result }
        ensures passed { result.passed ≡ 0 }
    {
        Place {
            at: 0,
            passed: 0,
            line: 1,
        }
    }

    /// The place that gives the line of the offset. The cost is that of the entries between the two places.
    pub fn advance(self, table: &[u8], offset: u32) -> Place
        requires place { IsPlace table.now self }
        requires ahead { self.passed ≤ offset }
        requires short { length table.now ≤ MAX_CODE_BYTES }
        ensures place { IsPlace table.now result }
        ensures ahead { result.passed ≤ offset }
        ensures line { result.line ≡ line_of table.now offset }
    {
        let mut place = self;
        while let Some(entry) = entry_at(table, place.at) {
            if offset - place.passed < entry.bytes {
                return place;
            }
            place = Place {
                at: place.at + entry.len,
                passed: place.passed + entry.bytes,
                line: place.line + entry.lines,
            };
        }
        place
    }
}
