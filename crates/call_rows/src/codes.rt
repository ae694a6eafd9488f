//! Numbers, instructions and preludes as their bytes spell them, and texts by numbers.

use crate::spelling::{to_hex, to_text};
use bc_ops::{CodeFault, Instr, decode_at};
use bc_prelude::{Prelude, PreludeFault, read_prelude, write_size};
use mpy_base::{NoMemory, VuintFault, read_vuint, write_vuint};
use qstr_pool::static_text;
use std::alloc::{AllocError, Global};

/// What reading a number answers.
fn vuint(alloc: Global, read: Result<(u32, usize), VuintFault>) -> Result<String, AllocError> {
    match read {
        Ok((n, end)) => format!(in alloc; "{n} end {end}"),
        Err(fault) => format!(in alloc; "{fault:?}"),
    }
}

/// What was written.
fn written(alloc: Global, bytes: &[u8], done: Result<(), NoMemory>) -> Result<String, AllocError> {
    match done {
        Ok(()) => to_hex(alloc, bytes),
        Err(NoMemory) => String::from_str(alloc, "memory"),
    }
}

/// The bytes that a number is written as.
fn vuint_of(alloc: Global, word: &str) -> Result<String, AllocError> {
    let mut bytes = Vec::new(alloc);
    let n = word.parse::<u32>().unwrap_or(0);
    if n >= 1 << 31 {
        return String::from_str(alloc, "no number");
    }
    let done = write_vuint(&mut bytes, n);
    written(alloc, &bytes, done)
}

/// An instruction, with its code and its operand.
fn instr(alloc: Global, instr: Instr) -> Result<String, AllocError> {
    match instr {
        Instr::Plain(op) => format!(in alloc; "plain {:02x}", op.code()),
        Instr::Name(op, n) => format!(in alloc; "name {:02x} {n}", op.code()),
        Instr::Num(op, n) => format!(in alloc; "number {:02x} {n}", op.code()),
        Instr::Int(n) => format!(in alloc; "integer {n}"),
        Instr::Jump { op, offset, wide } => {
            format!(in alloc; "jump {:02x} {offset} wide {wide}", op.code())
        }
        Instr::Unwind { offset, wide, byte } => {
            format!(in alloc; "unwind {offset} wide {wide} byte {byte}")
        }
        Instr::Unary(n) => format!(in alloc; "unary {n}"),
        Instr::Binary(n) => format!(in alloc; "binary {n}"),
    }
}

/// What reading an instruction answers.
fn decoded(alloc: Global, read: Result<(Instr, usize), CodeFault>) -> Result<String, AllocError> {
    match read {
        Ok((found, end)) => {
            let text = instr(alloc, found)?;
            format!(in alloc; "{text} end {end}")
        }
        Err(fault) => format!(in alloc; "{fault:?}"),
    }
}

/// What reading a prelude answers.
fn prelude(alloc: Global, read: Result<Prelude, PreludeFault>) -> Result<String, AllocError> {
    match read {
        Ok(found) => format!(in alloc;
            "slots {} handlers {} arguments {} defaulted {} at {} {} {}",
            found.n_state,
            found.n_exc,
            found.args,
            found.defaults,
            found.info_at,
            found.lines_at,
            found.code_at
        ),
        Err(fault) => format!(in alloc; "{fault:?}"),
    }
}

/// The bytes that the size field of a prelude is written as.
fn size_of(alloc: Global, word: &str) -> Result<String, AllocError> {
    let mut bytes = Vec::new(alloc);
    let done = write_size(&mut bytes, word.parse::<usize>().unwrap_or(0));
    written(alloc, &bytes, done)
}

/// The text that every file may name by this number.
fn text_of_number(alloc: Global, word: &str) -> Result<String, AllocError> {
    match static_text(word.parse::<u16>().unwrap_or(0)) {
        Some(text) => to_text(alloc, text),
        None => String::from_str(alloc, "none"),
    }
}

/// What a call that is given bytes answers, if there is one.
pub(crate) fn of_bytes(
    alloc: Global,
    call: &str,
    bytes: &[u8],
) -> Result<Option<String>, AllocError> {
    let answer = match call {
        "vuint" => vuint(alloc, read_vuint(bytes, 0))?,
        "decode" => decoded(alloc, decode_at(bytes, 0))?,
        "prelude" => prelude(alloc, read_prelude(bytes))?,
        _ => return Ok(None),
    };
    Ok(Some(answer))
}

/// What a call that is given a number answers, if there is one.
pub(crate) fn of_number(
    alloc: Global,
    call: &str,
    word: &str,
) -> Result<Option<String>, AllocError> {
    let answer = match call {
        "vuint_of" => vuint_of(alloc, word)?,
        "size_of" => size_of(alloc, word)?,
        "text" => text_of_number(alloc, word)?,
        _ => return Ok(None),
    };
    Ok(Some(answer))
}
