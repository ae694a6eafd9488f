//! Members with commas between.

ghost use Rattle.std.specs.Prelude.{◌≡◌, [], ◌∷◌, length};
ghost use Rattle.std.specs.Option.{option_copied};
ghost use Rattle.py_tree.specs.declared.expr.Expr.TheVariants as ex;
ghost use Rattle.py_expressions.specs.Apart as apart;
ghost use Rattle.py_expressions.specs.Input.{Reads, input_of, seen};
ghost use Rattle.py_expressions.specs.Reading as spec;
ghost use Rattle.py_expressions.specs.Nests.{Nests};
ghost use Rattle.py_expressions.specs.declared.grammar.Rule.TheVariants as rule;

use crate::cursor::{Cursor, Mark, Syntax};
use crate::grammar::{Grammar, Rule};
use mpy_base::{Items, Refused};
use py_tokens::{Op, Tok, Word};
use py_tree::Expr;
use std::alloc::Global;

/// Whether a test may begin so.
pub(crate) fn begins_test(kind: Option<&Tok>) -> bool
    ensures { result ≡ spec.begins_test (seen (option_copied kind.entry)) }
{
    match kind {
        Some(Tok::Name(_) | Tok::Int(_) | Tok::Str(_)) => true,
        Some(Tok::Word(Word::None | Word::True | Word::False | Word::Not)) => true,
        Some(Tok::Op(Op::OpenParen | Op::OpenBracket | Op::OpenBrace)) => true,
        Some(Tok::Op(Op::Plus | Op::Minus | Op::Tilde)) => true,
        _ => false,
    }
}

/// The expression of a list of one.
fn only(found: Items<Expr>) -> Expr
    requires { length found ≡ 1 }
    ensures { found ≡ result ∷ [] }
{
    found.into_vec().remove(0)
}

/// One member without a comma is itself, others are a tuple.
#[tactic(auto, unfolding(crate::specs::Reading::tuple_of))]
pub(crate) fn tuple_of(found: Items<Expr>, comma: bool) -> Expr
    ensures { result ≡ spec.tuple_of found comma }
{
    if comma || found.len() != 1 {
        return Expr::Tuple(found);
    }
    only(found)
}

/// The operands of `and`; one alone is itself.
#[inline(never)]
#[tactic(auto, unfolding(crate::specs::Reading::joined))]
pub(crate) fn and_of(found: Items<Expr>) -> Expr
    ensures { result ≡ spec.joined ex.And found }
{
    if found.len() != 1 {
        return Expr::And(found);
    }
    only(found)
}

/// The operands of `or`; one alone is itself.
#[inline(never)]
#[tactic(auto, unfolding(crate::specs::Reading::joined))]
pub(crate) fn or_of(found: Items<Expr>) -> Expr
    ensures { result ≡ spec.joined ex.Or found }
{
    if found.len() != 1 {
        return Expr::Or(found);
    }
    only(found)
}

impl<F: Fn(Global, &mut Cursor<'_>, usize, Rule) -> Result<Expr, Refused<Syntax>>> Grammar<F> {
    /// One or more that the rule reads, `turns` at most, behind those that were found, and whether a comma stands behind the
    /// last.
    #[inline(never)]
    fn members_from(
        &self,
        tokens: &mut Cursor<'_>,
        item: Rule,
        mut found: Items<Expr>,
        turns: usize,
    ) -> Result<(Items<Expr>, bool), Refused<Syntax>>
        requires { Nests self.now.depth (F.pre self.now.expr) (F.post self.now.expr) }
        ensures { Reads (spec.members_from (spec.expr self.now.depth item) turns found (input_of tokens.old)) result tokens.new }
    {
        for _turn in 0..turns {
            found.push(self.inner(tokens, item)?)?;
            if !tokens.eat(Mark::Op(Op::Comma)) {
                return Ok((found, false));
            }
            if !begins_test(tokens.peek()) {
                return Ok((found, true));
            }
        }
        Err(tokens.refuse())
    }

    /// One or more that the rule reads, and whether a comma stands behind the last.
    #[tactic(auto, unfolding(crate::specs::Reading::members))]
    pub fn members(
        &self,
        tokens: &mut Cursor<'_>,
        item: Rule,
    ) -> Result<(Items<Expr>, bool), Refused<Syntax>>
        requires { Nests self.now.depth (F.pre self.now.expr) (F.post self.now.expr) }
        ensures { Reads (spec.members (spec.expr self.now.depth item) (input_of tokens.old)) result tokens.new }
    {
        let turns = tokens.left();
        self.members_from(tokens, item, Items::new(self.alloc), turns)
    }

    /// One test without a comma, or a tuple of tests, `turns` at most behind the first. One alone takes no list.
    fn first_apart(&self, tokens: &mut Cursor<'_>, turns: usize) -> Result<Expr, Refused<Syntax>>
        requires { Nests self.now.depth (F.pre self.now.expr) (F.post self.now.expr) }
        ensures { Reads (apart.first_apart (spec.expr self.now.depth rule.Test) turns (input_of tokens.old)) result tokens.new }
    {
        let first = self.inner(tokens, Rule::Test)?;
        if !tokens.eat(Mark::Op(Op::Comma)) {
            return Ok(first);
        }
        let mut found = Items::new(self.alloc);
        found.push(first)?;
        if !begins_test(tokens.peek()) {
            return Ok(tuple_of(found, true));
        }
        let (found, comma) = self.members_from(tokens, Rule::Test, found, turns)?;
        Ok(tuple_of(found, comma))
    }

    /// Tests as one expression: one without a comma is itself, others are a tuple.
    pub fn joined_tests(&self, tokens: &mut Cursor<'_>) -> Result<Expr, Refused<Syntax>>
        requires { Nests self.now.depth (F.pre self.now.expr) (F.post self.now.expr) }
        ensures { Reads (spec.tests self.now.depth (input_of tokens.old)) result tokens.new }
    {
        let turns = tokens.left();
        if turns == 0 {
            return Err(tokens.refuse());
        }
        self.first_apart(tokens, turns - 1)
    }

    /// Tests as one expression, and the mark behind them.
    pub fn closed_tests(&self, tokens: &mut Cursor<'_>, mark: Mark) -> Result<Expr, Refused<Syntax>>
        requires { Nests self.now.depth (F.pre self.now.expr) (F.post self.now.expr) }
        ensures { Reads (apart.closed_tests self.now.depth mark (input_of tokens.old)) result tokens.new }
    {
        let found = self.joined_tests(tokens)?;
        tokens.closed(mark, found)
    }

    /// Members in brackets, if there are any.
    #[tactic(auto, unfolding(crate::specs::Reading::some_members))]
    pub fn some_members(
        &self,
        tokens: &mut Cursor<'_>,
    ) -> Result<(Items<Expr>, bool), Refused<Syntax>>
        requires { Nests self.now.depth (F.pre self.now.expr) (F.post self.now.expr) }
        ensures { Reads (spec.some_members (spec.expr self.now.depth) (input_of tokens.old)) result tokens.new }
    {
        if begins_test(tokens.peek()) {
            self.members(tokens, Rule::Test)
        } else {
            Ok((Items::new(self.alloc), false))
        }
    }
}
