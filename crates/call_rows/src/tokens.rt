//! Tokens of sources, what these begin with, and the locals of functions.

use crate::spelling::to_text;
use mpy_base::{Refused, SourceFault, Text};
use py_parser::parse;
use py_scopes::{NameSlots, scopes};
use py_tokens::{
    NumberFault, Operator, Spelled, Tok, Token, name_len, number_len, number_of, operator_at,
    read_word, tokens,
};
use qstr_pool::static_number;
use std::alloc::{AllocError, Global};

/// What a name spells: a word of the language, one that is refused, or a name.
fn word(alloc: Global, text: &[u8]) -> Result<String, AllocError> {
    match read_word(text, 0) {
        Spelled::Word(word) => {
            let spelled = to_text(alloc, word.spelling())?;
            format!(in alloc; "word {spelled}")
        }
        Spelled::Refused => String::from_str(alloc, "refused"),
        Spelled::Name => String::from_str(alloc, "name"),
    }
}

/// The operator in front, and how long it is.
fn operator(alloc: Global, text: &[u8]) -> Result<String, AllocError> {
    match operator_at(text) {
        Some((Operator::Op(op), len)) => {
            let spelled = to_text(alloc, op.spelling())?;
            format!(in alloc; "{spelled} {len}")
        }
        Some((Operator::Refused, len)) => format!(in alloc; "refused {len}"),
        None => String::from_str(alloc, "none"),
    }
}

/// How long the run of a number is, and the number or why there is none.
fn number(alloc: Global, text: &[u8]) -> Result<String, AllocError> {
    let len = number_len(text);
    if len == 0 {
        return String::from_str(alloc, "no number");
    }
    match number_of(&text[..len]) {
        Ok(n) => format!(in alloc; "{len} {n}"),
        Err(NumberFault::BadToken) => format!(in alloc; "{len} BadToken"),
        Err(NumberFault::TooBig) => format!(in alloc; "{len} TooBig"),
        Err(NumberFault::Float) => format!(in alloc; "{len} float"),
        Err(NumberFault::Complex) => format!(in alloc; "{len} complex"),
    }
}

/// A letter for each kind: name, integer, string, word, operator; `;` for a Newline, `>` and `<` for levels, `.` for the end.
fn letter(token: &Token) -> char {
    match token.kind {
        Tok::Name(_) => 'n',
        Tok::Int(_) => 'i',
        Tok::Str(_) => 's',
        Tok::Word(_) => 'w',
        Tok::Op(_) => 'o',
        Tok::Newline => ';',
        Tok::Indent => '>',
        Tok::Dedent => '<',
        Tok::End => '.',
    }
}

/// A token's kind, where it begins and ends, and its line; and the text of a string.
fn put_token(alloc: Global, text: &mut String, token: &Token) -> Result<(), AllocError> {
    let kind = letter(token);
    let (at, end, line) = (token.at, token.end, token.line);
    text.push_str(format!(in alloc; " {kind}{at}-{end}:{line}")?.as_str())?;
    if let Tok::Str(read) = &token.kind {
        text.push_str(to_text(alloc, read.bytes())?.as_str())?;
    }
    Ok(())
}

/// A fault of a source, with its line and its word.
fn fault(alloc: Global, refused: Refused<SourceFault>) -> Result<String, AllocError> {
    match refused {
        Refused::Fault(fault) => {
            let word = to_text(alloc, fault.word.bytes())?;
            format!(in alloc; "{} line {} {word}", fault.code.name(), fault.line)
        }
        Refused::NoMemory => String::from_str(alloc, "memory"),
    }
}

/// The tokens of a source, each behind a blank, or its first fault.
fn all_tokens(alloc: Global, source: &[u8]) -> Result<String, AllocError> {
    match tokens(alloc, source, 0) {
        Ok(found) => {
            let mut text = String::new(alloc);
            for token in &found {
                put_token(alloc, &mut text, token)?;
            }
            Ok(text)
        }
        Err(refused) => fault(alloc, refused),
    }
}

/// The locals of one function, each behind a blank.
fn put_locals(alloc: Global, text: &mut String, locals: &[Text]) -> Result<(), AllocError> {
    for local in locals {
        text.push_str(" ")?;
        text.push_str(to_text(alloc, local.bytes())?.as_str())?;
    }
    text.push_str(";")
}

/// Adds the locals of each function, by the functions' numbers.
fn put_slots(alloc: Global, text: &mut String, slots: &NameSlots) -> Result<(), AllocError> {
    for function in 0..=u32::MAX {
        match slots.locals(function) {
            Some(locals) => put_locals(alloc, text, locals)?,
            None => break,
        }
    }
    Ok(())
}

/// The locals of each function of a source, in slot order.
fn locals(alloc: Global, source: &[u8]) -> Result<String, AllocError> {
    let mut text = String::new(alloc);
    let Ok(tokens) = tokens(alloc, source, 0) else {
        return Ok(text);
    };
    let Ok(tree) = parse(alloc, &tokens) else {
        return Ok(text);
    };
    if let Ok(slots) = scopes(alloc, &tree) {
        put_slots(alloc, &mut text, &slots)?;
    }
    Ok(text)
}

/// A length as digits.
fn length(alloc: Global, length: usize) -> Result<String, AllocError> {
    format!(in alloc; "{length}")
}

/// The number by which every file may name this text.
fn number_of_text(alloc: Global, text: &[u8]) -> Result<String, AllocError> {
    match static_number(text) {
        Some(n) => format!(in alloc; "{n}"),
        None => String::from_str(alloc, "none"),
    }
}

/// What a call that is given a text answers, if there is one.
pub(crate) fn of_text(
    alloc: Global,
    call: &str,
    text: &[u8],
) -> Result<Option<String>, AllocError> {
    let answer = match call {
        "word" => word(alloc, text)?,
        "name" => length(alloc, name_len(text))?,
        "number" => number_of_text(alloc, text)?,
        "operator" => operator(alloc, text)?,
        "int" => number(alloc, text)?,
        "tokens" => all_tokens(alloc, text)?,
        "locals" => locals(alloc, text)?,
        _ => return Ok(None),
    };
    Ok(Some(answer))
}
