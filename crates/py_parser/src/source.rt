//! A whole source: statements up to the end, and the fault where there is no tree.

ghost use Rattle.std.specs.Prelude.{◌≡◌, ◌⊎◌, ◌-◌, [], ◌∷◌, List, length, drop, Err, IfOk, MatchResult};
ghost use Rattle.mpy_base.specs.declared.refused.Refused.TheVariants as refused;
ghost use Rattle.mpy_base.specs.declared.source.SourceFault.{SourceFault};
ghost use Rattle.py_tokens.specs.declared.token.Token.{Token};
ghost use Rattle.py_tokens.specs.Formed.{AreFormed};
ghost use Rattle.py_tree.specs.declared.stmt.Module.{Module};
ghost use Rattle.py_tree.specs.Formed.{IsFormed};
ghost use Rattle.py_expressions.specs.Input.{Reads, input_of};
ghost use Rattle.py_nest.specs.Nest.{Nests};
ghost use Rattle.py_statements.specs.Reading.{line_at};
ghost use Rattle.py_parser.specs.Grammar.{IsTree};
ghost use Rattle.py_parser.specs.Reading as spec;
ghost use Rattle.py_parser.specs.Fronts.{IsLongest};
ghost use Rattle.py_parser.specs.Parsed.{ReadsAll, fault_of, IsFault, IsEnded};

use crate::stmt::{append, mark, stmt};
use mpy_base::{Items, Refused, SourceCode, SourceFault, Text};
use py_expressions::{Cursor, Mark, Syntax, release};
use py_nest::nest_fault;
use py_tokens::Token;
use py_tree::{Module, Stmt};
use std::alloc::Global;

/// Nothing but the end is ahead.
#[tactic(auto, unfolding(crate::specs::Reading::is_end, py_expressions::specs::Input::sees))]
fn is_end(tokens: &Cursor<'_>) -> bool
    ensures { result ≡ spec.is_end (input_of tokens.now) }
{
    match tokens.ahead {
        [_] => tokens.sees(Mark::End),
        _ => false,
    }
}

/// Reads `{ stmt } End` in `turns` turns at most.
fn file_from(
    alloc: Global,
    tokens: &mut Cursor<'_>,
    depth: usize,
    turns: usize,
) -> Result<Items<Stmt>, Refused<Syntax>>
    ensures { Reads (spec.file_from depth turns [] (input_of tokens.old)) result tokens.new }
{
    let mut found = Items::new(alloc);
    for _turn in 0..turns {
        if is_end(tokens) {
            return Ok(found);
        }
        let some = stmt(alloc, tokens, depth)?;
        append(&mut found, some)?;
        mark(tokens);
    }
    release(found);
    Err(tokens.refuse())
}

/// Reads `{ stmt } End`.
fn file(alloc: Global, tokens: &[Token]) -> Result<Items<Stmt>, Refused<Syntax>>
    ensures { ReadsAll (spec.file tokens.now) result }
{
    let mut ahead = Cursor {
        ahead: tokens,
        front: tokens.len(),
    };
    file_from(alloc, &mut ahead, tokens.len() + 2, tokens.len() + 1)
}

/// The fault in that line, which names no word.
fn fault_of(alloc: Global, code: SourceCode, line: u32) -> SourceFault
    ensures { result ≡ fault_of code line }
{
    SourceFault {
        code,
        line,
        word: Text::empty(alloc),
    }
}

/// The line of the first of the last `left` tokens.
fn line_with(tokens: &[Token], left: usize) -> u32
    ensures { result ≡ line_at (drop (length tokens.now - left) tokens.now) }
{
    let at = tokens.len().saturating_sub(left);
    match &tokens[at..] {
        [] => 0,
        [token, ..] => token.line,
    }
}

/// The tree of the tokens of a source.
pub fn parse(alloc: Global, tokens: &[Token]) -> Result<Module, Refused<SourceFault>>
    // What is answered is the tree of the tokens, and it is answered where there is one, unless they nest too deep or
    // memory isn't found.
    ensures found { IfOk result (λ tree. IsTree tokens.now tree) }
    ensures nests { IfOk result (λ _. Nests tokens.now) }
    ensures only { (tree : Module) → Nests tokens.now → IsTree tokens.now tree
        → MatchResult result (λ found. found ≡ tree) (λ error. error ≡ refused.NoMemory) }

    ensures fault { (fault : SourceFault) → result ≡ Err (refused.Fault fault) → IsFault tokens.now fault }
    ensures fault_only { (fault : SourceFault) → IsFault tokens.now fault
        → (result ≡ Err (refused.Fault fault)) ⊎ (result ≡ Err refused.NoMemory) }
{
    if let Some(line) = nest_fault(tokens) {
        return Err(Refused::Fault(fault_of(alloc, SourceCode::TooDeep, line)));
    }
    match file(alloc, tokens) {
        Ok(body) => Ok(Module { body }),
        Err(Refused::Fault(syntax)) => {
            let line = line_with(tokens, syntax.left);
            Err(Refused::Fault(fault_of(alloc, SourceCode::Syntax, line)))
        }
        Err(Refused::NoMemory) => Err(Refused::NoMemory),
    }
}

/// Tokens have one tree at most, or one fault, and never both unless they nest too deep.
pub fn parser_law()
    ensures one_tree { (tokens : List Token) (first second : Module) → IsTree tokens first → IsTree tokens second → first ≡ second }
    ensures one_fault { (tokens : List Token) (first second : SourceFault) → IsFault tokens first → IsFault tokens second → first ≡ second }
    ensures not_both { (tokens : List Token) (tree : Module) (fault : SourceFault) → Nests tokens → IsTree tokens tree
        → IsFault tokens fault → ⊥ }

    // Where tokens end with an End, one of them stands behind their longest front.
    ensures stands { (tokens rest : List Token) → IsEnded tokens → IsLongest tokens rest
        → (token : Token) × (more : List Token) × (rest ≡ token ∷ more) }

    // Tokens such as a source gives have a formed tree.
    ensures formed { (tokens : List Token) (tree : Module) → AreFormed tokens → IsTree tokens tree → IsFormed tree }
{}
