//! Sources at the limits of codes and of files, and a step past each, with what they compile to.
//!
//! A row of data/limits begins with `#` and what it is about. `$` has the level, and a text that is the stored name so often as the
//! number before it says. Of the source `|` has a line, `.` a text, `*` a line so often, `~` a text so often, and `%` a text so often
//! with a number in place of its `#`, one more each time, from the number given; `/` has a line so often, each time behind a blank
//! more, and `\` behind a blank less, down to none; what stands from `[` to `]` stands so often. Then comes `=` with the length of
//! the file and its checksum (Adler-32), or `!` with the number of the fault and its line.

use crate::row::Row;
use std::alloc::{AllocError, Global};
use std::{fs, io};

/// How many rows were tried, and how many of them came to something else, with what these are about.
#[derive(Drop)]
struct Count {
    rows: usize,
    wrong: Vec<String>,
}

/// Tries the rows of a text.
fn tried(alloc: Global, text: &str) -> Result<Count, AllocError> {
    let mut rows: usize = 0;
    let mut wrong = Vec::new(alloc);
    let mut row = Row::new(alloc, "")?;
    for line in text.split("\n") {
        if line.starts_with("# ") {
            rows = rows.saturating_add(1);
            row = Row::new(alloc, line)?;
        } else if !row.goes_on(alloc, line)? {
            wrong.push(String::from_str(alloc, row.about())?)?;
        }
    }
    Ok(Count { rows, wrong })
}

/// Tries the rows of the file `limits`, and prints which come to something else, and how many there are.
pub(crate) fn print_limits(rt: &HostRuntime) -> io::Result<()> {
    let text = fs::read_to_string(rt, "limits")?;
    let count = tried(rt.alloc(), &text)?;
    let rows = count.rows;
    for about in count.wrong.iter() {
        println!(rt; "{about}")?;
    }
    println!(rt; "{rows} rows")
}
