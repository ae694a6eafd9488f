//! The table of a code's lines.

ghost use Rattle.std.specs.Prelude.{◌≡◌, ℕ, ◌+◌, ◌-◌, ◌*◌, ◌/◌, ◌%◌, ◌<◌, ◌≤◌, ◌^◌, List, [], ◌∷◌, ◌++◌, All, length, drop, min};
ghost use Rattle.std.specs.Prelude.{map, MatchOption, OnOk, OnErr, IsTrue, false};
ghost use Rattle.bc_prelude.specs.Lines.{entries_of, line_of, lines_together, is_short, bytes_taken, lines_taken, entry_bytes};
ghost use Rattle.bc_prelude.specs.Lines.{change, table_of, table_behind, Rises, RisesFrom, line_among};

use mpy_base::NoMemory;

/// An entry of a table: how many bytes of the instructions it passes, by how many lines the line rises there, and how
/// many bytes of the table it takes.
#[derive(Clone, Copy, Debug)]
pub(crate) struct Entry {
    pub bytes: u32,
    pub lines: u32,
    pub len: usize,
}

/// The entry at `at`, unless the table ends before its end.
pub(crate) fn entry_at(table: &[u8], at: usize) -> Option<Entry>
    requires { at ≤ length table.now }
    ensures { MatchOption result (entries_of (drop at table.now) ≡ []) (λ entry.
        (entries_of (drop at table.now)
        ≡ record { bytes = entry.bytes; lines = entry.lines } ∷ entries_of (drop (at + entry.len) table.now))
        × (0 < entry.len) × (at + entry.len ≤ length table.now) × (entry.lines ≤ 2047)) }
{
    let first = table.get(at).copied()?;
    if first < 128 {
        return Some(Entry {
            bytes: u32::from(first % 32),
            lines: u32::from(first / 32),
            len: 1,
        });
    }
    let second = table.get(at + 1).copied()?;
    Some(Entry {
        bytes: u32::from(first % 16),
        lines: 256 * u32::from(first / 16 % 8) + u32::from(second),
        len: 2,
    })
}

/// The line of the instruction at the offset.
pub fn line_at(table: &[u8], offset: u32) -> u32
    requires { lines_together (entries_of table.now) < 2 ^ 32 - 1 }
    ensures { result ≡ line_of table.now offset }
{
    let mut at = 0;
    let mut left = offset;
    let mut line = 1;
    while let Some(entry) = entry_at(table, at) {
        if left < entry.bytes {
            break;
        }
        left -= entry.bytes;
        line += entry.lines;
        at += entry.len;
    }
    line
}

/// An entry that can be written: whether it is short, its bytes and its lines.
#[derive(Clone, Copy)]
struct Step {
    short: bool,
    bytes: u32,
    lines: u32,
    ghost bytes_fit: { bytes < 32 },
    ghost lines_fit: { lines < 2048 },
    ghost short_fits: { IsTrue short → lines < 4 },
    ghost long_fits: { short ≡ false → bytes < 16 },
}

/// The entry that a change begins with.
fn first_step(bytes: u32, lines: u32) -> Step
    ensures short { result.short ≡ is_short bytes lines }
    ensures bytes { result.bytes ≡ bytes_taken bytes }
    ensures lines { result.lines ≡ lines_taken bytes lines }
{
    let short = lines <= 6 || bytes > 15;
    let risen = if !short {
        lines.min(2047)
    } else if bytes <= 31 {
        lines.min(3)
    } else {
        0
    };
    Step {
        short,
        bytes: bytes.min(31),
        lines: risen,
    }
}

/// Adds the bytes of an entry, of which it may leave a front where memory isn't found.
fn write_step(out: &mut Vec<u8>, step: Step) -> Result<(), NoMemory>
    ensures ok { OnOk result (out.new.items ≡ out.old.items ++ entry_bytes step.short step.bytes step.lines) }
    ensures err { OnErr result ((front : List ℕ) × (out.new.items ≡ out.old.items ++ front)) }
{
    if step.short {
        out.push((32 * step.lines + step.bytes) as u8)?;
    } else {
        out.push((128 + 16 * (step.lines / 256) + step.bytes) as u8)?;
        out.push((step.lines % 256) as u8)?;
    }
    Ok(())
}

/// Adds the entries of a change, of which it may leave a front where memory isn't found.
fn write_change(out: &mut Vec<u8>, bytes: u32, lines: u32) -> Result<(), NoMemory>
    ensures ok { OnOk result (out.new.items ≡ out.old.items ++ change bytes lines) }
    ensures err { OnErr result ((front : List ℕ) × (out.new.items ≡ out.old.items ++ front)) }
{
    let mut bytes_left = bytes;
    let mut lines_left = lines;
    while bytes_left > 0 || lines_left > 0 {
        let step = first_step(bytes_left, lines_left);
        write_step(out, step)?;
        bytes_left -= step.bytes;
        lines_left -= step.lines;
    }
    Ok(())
}

/// Adds the table, of which it may leave a front where memory isn't found.
fn write_changes(out: &mut Vec<u8>, lines: &[(u32, u32)]) -> Result<(), NoMemory>
    requires { Rises lines.now }
    ensures ok { OnOk result (out.new.items ≡ out.old.items ++ table_of lines.now) }
    ensures err { OnErr result ((front : List ℕ) × (out.new.items ≡ out.old.items ++ front)) }
{
    let mut offset = 0;
    let mut line = 1;
    for (next_offset, next_line) in lines {
        write_change(out, *next_offset - offset, *next_line - line)?;
        offset = *next_offset;
        line = *next_line;
    }
    Ok(())
}

/// Adds the table for pairs of an offset and the line that begins there. An `Err` leaves `out` as it was.
pub fn write_lines(out: &mut Vec<u8>, lines: &[(u32, u32)]) -> Result<(), NoMemory>
    requires { Rises lines.now }
    ensures ok { OnOk result (out.new.items ≡ out.old.items ++ table_of lines.now) }
    ensures err { OnErr result (out.new.items ≡ out.old.items) }
{
    let start = out.len();
    let written = write_changes(out, lines);
    if written.is_err() {
        out.truncate(start);
    }
    written
}

/// A table that was written gives, for each offset, the line of the last pair that isn't behind it, and 1 before the
/// first. It may be read, and so may each table of no more than 4,194,303 bytes, since a byte of it has no more than
/// 1024 lines.
pub fn lines_law()
    ensures lines { (pairs : List (ℕ × ℕ)) (offset : ℕ) → Rises pairs
        → line_of (table_of pairs) offset ≡ line_among 1 pairs offset }
    ensures readable { (pairs : List (ℕ × ℕ)) → Rises pairs → All (λ pair. pair.1 < 2 ^ 32) pairs
        → lines_together (entries_of (table_of pairs)) < 2 ^ 32 - 1 }
    ensures few { (table : List ℕ) → All (λ byte. byte < 256) table
        → lines_together (entries_of table) ≤ 1024 * length table }
{}
