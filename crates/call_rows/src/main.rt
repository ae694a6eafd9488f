//! Calls of single crates: each line of data/calls has a call's name and what it is given, and is printed again with what is
//! answered. A byte that isn't printed is written as in Python's texts (`\n`, `\x80`); bytes of files are hexadecimal. Behind these the
//! streams, and the sources of data/limits.
#![tactic(auto)]

mod codes;
mod limits;
mod numbers;
mod row;
mod source;
mod spelling;
mod streams;
mod tokens;

use crate::spelling::{from_hex, from_text};
use std::alloc::{AllocError, Global};
use std::{fs, io};

/// What a call that is given bytes or a text answers, if there is one.
fn spelled(alloc: Global, call: &str, given: &str) -> Result<Option<String>, AllocError> {
    let bytes = from_hex(alloc, given)?;
    if let Some(answer) = codes::of_bytes(alloc, call, &bytes)? {
        return Ok(Some(answer));
    }
    let text = from_text(alloc, given)?;
    tokens::of_text(alloc, call, &text)
}

/// What a call that is given numbers answers, if there is one.
fn counted(alloc: Global, call: &str, given: &str) -> Result<Option<String>, AllocError> {
    match numbers::answer(alloc, call, given)? {
        Some(answer) => Ok(Some(answer)),
        None => codes::of_number(alloc, call, given),
    }
}

/// What is answered to a call with these words.
fn answer(alloc: Global, call: &str, given: &str) -> Result<String, AllocError> {
    if let Some(answer) = counted(alloc, call, given)? {
        return Ok(answer);
    }
    match spelled(alloc, call, given)? {
        Some(answer) => Ok(answer),
        None => String::from_str(alloc, "no such call"),
    }
}

/// Answers each call of the file `calls`, a line for each, then tries streams and the sources at the limits.
fn main(rt: HostRuntime) -> io::Result<()> {
    let calls = fs::read_to_string(&rt, "calls")?;
    for line in calls.trim_end().split("\n") {
        let (call, given) = line.split_once(" ").unwrap_or((line, ""));
        let answer = answer(rt.alloc(), call, given)?;
        println!(rt; "{line} -> {answer}")?;
    }
    streams::print_streams(&rt)?;
    limits::print_limits(&rt)
}
