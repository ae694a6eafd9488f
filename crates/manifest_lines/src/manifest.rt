//! The lines of a manifest.

ghost use Rattle.std.specs.Prelude.{◌≡◌, ◌≤◌, map, length, IfOk};
ghost use Rattle.manifest_lines.specs.Ahead.{Gives};
ghost use Rattle.manifest_lines.specs.Lines as spec;

use crate::ahead::NoCall;
use crate::call::read_call;
use crate::order::{Order, order_of};
use mpy_base::{NoMemory, Refused};
use py_tokens::{Tok, Token};
use std::alloc::Global;

/// A logical line of a manifest.
#[derive(Debug, Drop)]
pub struct Line {
    /// The line of its first token, counted from 1.
    pub number: u32,
    /// What it orders; none where it is no call that a manifest may make.
    pub order: Option<Order>,
}

/// Is it the end of a line?
fn is_newline(kind: &Tok) -> bool
    ensures { result ≡ spec.is_newline kind.now }
{
    matches!(kind, Tok::Newline)
}

/// How many tokens stand in front of the first end of a line.
fn line_length(tokens: &[Token]) -> usize
    ensures length { result ≡ spec.line_length tokens.now }
    ensures within { result ≤ length tokens.now }
{
    for (at, token) in tokens.iter().enumerate() {
        if is_newline(&token.kind) {
            return at;
        }
    }
    tokens.len()
}

/// What a line of these tokens orders, if it is a call.
#[tactic(auto, unfolding(crate::specs::Lines::order))]
fn ordered(alloc: Global, tokens: &[Token]) -> Result<Order, Refused<NoCall>>
    ensures { Gives (spec.order tokens.now) result }
{
    let call = read_call(alloc, tokens)?;
    order_of(alloc, &call)
}

/// The line of the first token.
fn number(tokens: &[Token]) -> u32
    ensures { result ≡ spec.number tokens.now }
{
    match tokens {
        [token, ..] => token.line,
        [] => 0,
    }
}

/// The line of these tokens: what its call orders, or that it has none.
fn judged(alloc: Global, tokens: &[Token]) -> Result<Line, NoMemory>
    ensures { IfOk result (λ line. line ≡ spec.line tokens.now) }
{
    let number = number(tokens);
    match ordered(alloc, tokens) {
        Ok(order) => Ok(Line {
            number,
            order: Some(order),
        }),
        Err(Refused::Fault(NoCall)) => Ok(Line {
            number,
            order: None,
        }),
        Err(Refused::NoMemory) => Err(NoMemory),
    }
}

/// The lines of a manifest, by its tokens.
pub fn lines(alloc: Global, tokens: &[Token]) -> Result<Vec<Line>, NoMemory>
    ensures { IfOk result (λ lines. lines.items ≡ spec.lines_of tokens.now) }
{
    let mut found = Vec::new(alloc);
    let mut rest = tokens;
    'more: while !rest.is_empty() {
        let (line, behind) = rest.split_at(line_length(rest));
        let Some((_end, others)) = behind.split_first() else {
            return Ok(found);
        };
        found.push(judged(alloc, line)?)?;
        rest = others;
    }
    Ok(found)
}
