//! Rows of small integers: an operation, its numbers, and what it answers.

use py_values::{NumFault, SmallInt};
use std::alloc::{AllocError, Global};

/// A number, or why there is none.
fn shown(alloc: Global, answer: Result<SmallInt, NumFault>) -> Result<String, AllocError> {
    match answer {
        Ok(number) => {
            let value = number.value();
            format!(in alloc; "{value}")
        }
        Err(fault) => format!(in alloc; "{fault}"),
    }
}

/// What an operation on two numbers answers, if there is such an operation.
fn of_two(call: &str, a: SmallInt, b: SmallInt) -> Option<Result<SmallInt, NumFault>> {
    match call {
        "add" => Some(a.add(b)),
        "sub" => Some(a.sub(b)),
        "mul" => Some(a.mul(b)),
        "floor_div" => Some(a.floor_div(b)),
        "modulo" => Some(a.modulo(b)),
        "power" => Some(a.power(b)),
        "shl" => Some(a.shl(b)),
        "shr" => Some(a.shr(b)),
        "and" => Some(a.and(b)),
        "or" => Some(a.or(b)),
        "xor" => Some(a.xor(b)),
        _ => None,
    }
}

/// What an operation on one number answers, if there is such an operation.
fn of_one(call: &str, n: SmallInt) -> Option<Result<SmallInt, NumFault>> {
    match call {
        "neg" => Some(n.neg()),
        "invert" => Some(n.invert()),
        "absolute" => Some(n.absolute()),
        "small" => Some(Ok(n)),
        _ => None,
    }
}

/// The small number that a word spells, if it does.
fn small(word: &str) -> Option<SmallInt> {
    SmallInt::new(word.parse::<i32>().ok()?)
}

/// What an operation on the numbers of a row answers, if there is one, and they are small.
fn found(call: &str, given: &str) -> Option<Result<SmallInt, NumFault>> {
    match given.split_once(" ") {
        Some((a, b)) => of_two(call, small(a)?, small(b)?),
        None => of_one(call, small(given)?),
    }
}

/// What an operation answers to the numbers of a row, as its table has it; nothing where there is no such operation.
pub(crate) fn answer(alloc: Global, call: &str, given: &str) -> Result<Option<String>, AllocError> {
    match found(call, given) {
        Some(answer) => Ok(Some(shown(alloc, answer)?)),
        None => Ok(None),
    }
}
