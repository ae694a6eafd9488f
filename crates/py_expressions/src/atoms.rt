//! Atoms: names, constants, adjacent strings, and what stands in brackets.

ghost use Rattle.py_expressions.specs.Input.{Reads, input_of};
ghost use Rattle.py_expressions.specs.Reading as spec;
ghost use Rattle.py_expressions.specs.Nests.{Nests};

use crate::cursor::{Cursor, Mark, Syntax};
use crate::grammar::{Grammar, Rule};
use crate::members::{begins_test, tuple_of};
use mpy_base::{Items, Refused, Text};
use py_tokens::{Op, Tok, Word};
use py_tree::Expr;
use std::alloc::Global;

/// Adjacent strings as one.
fn strings(alloc: Global, tokens: &mut Cursor<'_>) -> Result<Text, Refused<Syntax>>
    ensures { Reads (spec.all_strings (input_of tokens.old)) result tokens.new }
{
    let mut bytes = Vec::new(alloc);
    for _turn in 0..tokens.left() {
        let Some(Tok::Str(text)) = tokens.peek() else {
            return Ok(Text::new(alloc, &bytes)?);
        };
        bytes.extend_from_slice(text.bytes())?;
        tokens.take();
    }
    Ok(Text::new(alloc, &bytes)?)
}

impl<F: Fn(Global, &mut Cursor<'_>, usize, Rule) -> Result<Expr, Refused<Syntax>>> Grammar<F> {
    /// Reads `[ tests ] ")"`.
    fn round(&self, tokens: &mut Cursor<'_>) -> Result<Expr, Refused<Syntax>>
        requires { Nests self.now.depth (F.pre self.now.expr) (F.post self.now.expr) }
        ensures { Reads (spec.round (spec.expr self.now.depth) (input_of tokens.old)) result tokens.new }
    {
        if begins_test(tokens.peek()) {
            self.closed_tests(tokens, Mark::Op(Op::CloseParen))
        } else {
            let empty = tuple_of(Items::new(self.alloc), false);
            tokens.closed(Mark::Op(Op::CloseParen), empty)
        }
    }

    /// Reads `[ tests ] "]"`.
    #[tactic(auto, unfolding(crate::specs::Reading::square))]
    fn square(&self, tokens: &mut Cursor<'_>) -> Result<Expr, Refused<Syntax>>
        requires { Nests self.now.depth (F.pre self.now.expr) (F.post self.now.expr) }
        ensures { Reads (spec.square (spec.expr self.now.depth) (input_of tokens.old)) result tokens.new }
    {
        let (found, _) = self.some_members(tokens)?;
        tokens.expect(Mark::Op(Op::CloseBracket))?;
        Ok(Expr::List(found))
    }

    /// The key, with the value that stands behind its colon.
    fn valued<T: Drop>(&self, tokens: &mut Cursor<'_>, key: T) -> Result<(T, Expr), Refused<Syntax>>
        requires { Nests self.now.depth (F.pre self.now.expr) (F.post self.now.expr) }
        ensures { Reads (spec.valued (spec.expr self.now.depth) key (input_of tokens.old)) result tokens.new }
    {
        tokens.expect(Mark::Op(Op::Colon))?;
        let value = self.inner(tokens, Rule::Test)?;
        Ok((key, value))
    }

    /// Reads `test ":" test`.
    #[tactic(auto, unfolding(crate::specs::Reading::pair))]
    fn pair(&self, tokens: &mut Cursor<'_>) -> Result<(Expr, Expr), Refused<Syntax>>
        requires { Nests self.now.depth (F.pre self.now.expr) (F.post self.now.expr) }
        ensures { Reads (spec.pair (spec.expr self.now.depth) (input_of tokens.old)) result tokens.new }
    {
        let key = self.inner(tokens, Rule::Test)?;
        self.valued(tokens, key)
    }

    /// Reads `[ pair { "," pair } [ "," ] ]`.
    #[inline(never)]
    fn pairs(&self, tokens: &mut Cursor<'_>) -> Result<Items<(Expr, Expr)>, Refused<Syntax>>
        requires { Nests self.now.depth (F.pre self.now.expr) (F.post self.now.expr) }
        ensures { Reads (spec.pairs (spec.expr self.now.depth) (input_of tokens.old)) result tokens.new }
    {
        let mut found = Items::new(self.alloc);
        for _turn in 0..tokens.left() {
            if !begins_test(tokens.peek()) {
                return Ok(found);
            }
            found.push(self.pair(tokens)?)?;
            if !tokens.eat(Mark::Op(Op::Comma)) {
                return Ok(found);
            }
        }
        Ok(found)
    }

    /// Reads `pairs "}"`.
    #[tactic(auto, unfolding(crate::specs::Reading::brace))]
    fn brace(&self, tokens: &mut Cursor<'_>) -> Result<Expr, Refused<Syntax>>
        requires { Nests self.now.depth (F.pre self.now.expr) (F.post self.now.expr) }
        ensures { Reads (spec.brace (spec.expr self.now.depth) (input_of tokens.old)) result tokens.new }
    {
        let found = self.pairs(tokens)?;
        tokens.expect(Mark::Op(Op::CloseBrace))?;
        Ok(Expr::Dict(found))
    }

    /// Reads an atom: a name, a constant, or what stands in brackets of one kind.
    #[inline(never)]
    #[tactic(auto, unfolding(crate::specs::Reading::atom))]
    pub fn atom(&self, tokens: &mut Cursor<'_>) -> Result<Expr, Refused<Syntax>>
        requires { Nests self.now.depth (F.pre self.now.expr) (F.post self.now.expr) }
        ensures { Reads (spec.atom (spec.expr self.now.depth) (input_of tokens.old)) result tokens.new }
    {
        match tokens.peek() {
            Some(Tok::Name(text)) => {
                let copy = Text::new(self.alloc, text.bytes())?;
                tokens.take();
                Ok(Expr::Name(copy))
            }
            Some(Tok::Int(value)) => {
                tokens.take();
                Ok(Expr::Int(*value))
            }
            Some(Tok::Str(_)) => Ok(Expr::Str(strings(self.alloc, tokens)?)),
            Some(Tok::Word(Word::None)) => {
                tokens.take();
                Ok(Expr::None)
            }
            Some(Tok::Word(Word::True)) => {
                tokens.take();
                Ok(Expr::True)
            }
            Some(Tok::Word(Word::False)) => {
                tokens.take();
                Ok(Expr::False)
            }
            Some(Tok::Op(Op::OpenParen)) => {
                tokens.take();
                self.round(tokens)
            }
            Some(Tok::Op(Op::OpenBracket)) => {
                tokens.take();
                self.square(tokens)
            }
            Some(Tok::Op(Op::OpenBrace)) => {
                tokens.take();
                self.brace(tokens)
            }
            _ => Err(tokens.refuse()),
        }
    }
}
