//! A line of statements.

ghost use Rattle.std.specs.Prelude.{◌≡◌, List, true};
ghost use Rattle.py_tokens.specs.declared.token.Token.{Token};
ghost use Rattle.py_expressions.specs.Input.{Reads, input_of, kind_at};
ghost use Rattle.py_expressions.specs.Laws.{IsFound, IsRead, NamesFront};
ghost use Rattle.py_statements.specs.Grammar.{Line, line_text, line_tree};
ghost use Rattle.py_statements.specs.Reading as spec;

use crate::small::statement;
use mpy_base::{Items, Refused};
use py_expressions::{Cursor, Mark, Syntax};
use py_tokens::Op;
use py_tree::Stmt;
use std::alloc::Global;

/// Reads `small { ";" small } [ ";" ] Newline`.
fn one_line(alloc: Global, tokens: &mut Cursor<'_>) -> Result<Items<Stmt>, Refused<Syntax>>
    ensures { Reads (spec.one_line (input_of tokens.old)) result tokens.new }
{
    let mut found = Items::new(alloc);
    for _turn in 0..tokens.left() {
        found.push(statement(alloc, tokens)?)?;
        let goes_on = tokens.eat(Mark::Op(Op::Semicolon));
        if tokens.eat(Mark::Newline) {
            return Ok(found);
        }
        if !goes_on {
            return Err(tokens.refuse());
        }
    }
    Err(tokens.refuse())
}

/// Reads the small statements of one line, up to and with its end.
pub fn read_line(alloc: Global, tokens: &mut Cursor<'_>) -> Result<Items<Stmt>, Refused<Syntax>>
    ensures reads { Reads (spec.one_line (input_of tokens.old)) result tokens.new }
    ensures found { IsFound line_text line_tree tokens.old result tokens.new }
    ensures only { (one : Line) (rest : List Token) → tokens.old.ahead.now ≡ line_text one rest
        → IsRead (line_tree one) rest result tokens.new }
    ensures fault { NamesFront tokens.old result }
{
    one_line(alloc, tokens)
}

/// Tokens are read one way as a line, which begins as no compound statement and no clause does.
pub fn lines_law()
    ensures one { (one other : Line) (rest more : List Token) → line_text one rest ≡ line_text other more
        → (line_tree one ≡ line_tree other) × (rest ≡ more) }
    ensures begins { (one : Line) (rest : List Token) → spec.begins_line (kind_at (line_text one rest)) ≡ true }
{}
