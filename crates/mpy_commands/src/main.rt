//! Whole commands through the top call with the forms in memory: those that no process can be made to run, as they have calls that
//! fail at will, no port, or names that a disk reads in another way. `bin/test` runs all others by the program itself.
//!
//! The file `memory` has a row for each, with an empty line between two. A row's line begins with a tag: `$` the command's words, of
//! which `''` is the empty one; `@` a file's name, and behind it `|` a line of it, `x` bytes of it in hexadecimal. `?` gives the answers
//! of a port, and without it there is none; `!f`, `!o`, `!s` and `!p` number a call of the folder, of the output, of what is said and of
//! the port that fails. `#` is a remark.
//!
//! What is to come of it: `=` is the status, `>` a line that is printed, `+` a text, and `<` says that only a front of that is printed;
//! `-` is a line that is said and `-+` a text, `w` has the numbers that the port has written, and `^` names a file that is there behind
//! the command with the bytes in `o`, in hexadecimal. With no line `o` it isn't there, and an empty one has a line `o` with nothing.
#![tactic(auto)]

mod parts;
mod row;

use crate::row::Row;
use std::process::ExitCode;
use std::{fs, io};

/// Tries each row, and tells which come to something else.
fn main(rt: HostRuntime) -> io::Result<ExitCode> {
    let text = fs::read_to_string(&rt, "memory")?;
    let mut count = 0_u64;
    let mut status = 0;
    for lines in text.trim_end().split("\n\n") {
        count = count.saturating_add(1);
        if !Row::read(rt.alloc(), lines)?.is_so(rt.alloc())? {
            println!(rt; "row {count} comes to something else: {lines}")?;
            status = 1;
        }
    }
    println!(rt; "{count} rows")?;
    Ok(ExitCode::from(status))
}
