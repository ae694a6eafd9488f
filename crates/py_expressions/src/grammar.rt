//! The rules that hold tests take the reader of those as a parameter, so that each is proved by itself.
//!
//! A level of brackets takes the frames of all rules from a test to an atom, so what holds trees beside a rule's first operand
//! stands in functions of their own, which aren't inlined.

ghost use Rattle.py_expressions.specs.Input.{Reads, input_of};
ghost use Rattle.py_expressions.specs.Reading as spec;
ghost use Rattle.py_expressions.specs.Nests.{Nests};

use crate::cursor::{Cursor, Syntax};
use mpy_base::Refused;
use py_tree::Expr;
use std::alloc::Global;

/// What stands inside another expression.
#[derive(Clone, Copy)]
pub enum Rule {
    Test,
    NotTest,
    Factor,
    Primary,
}

/// The rules, of which each reads what nests by `expr`, one level of nesting less.
#[derive(Clone, Copy)]
pub(crate) struct Grammar<F> {
    pub alloc: Global,
    /// How deep brackets, signs and the like may still nest.
    pub depth: usize,
    pub expr: F,
}

impl<F: Fn(Global, &mut Cursor<'_>, usize, Rule) -> Result<Expr, Refused<Syntax>>> Grammar<F> {
    /// Reads what nests, one level deeper.
    #[inline(always)]
    pub fn inner(&self, tokens: &mut Cursor<'_>, rule: Rule) -> Result<Expr, Refused<Syntax>>
        requires { Nests self.now.depth (F.pre self.now.expr) (F.post self.now.expr) }
        ensures { Reads (spec.expr self.now.depth rule (input_of tokens.old)) result tokens.new }
    {
        (self.expr)(self.alloc, tokens, self.depth, rule)
    }

    /// Reads by the rule.
    #[inline(always)]
    fn by_rule(&self, tokens: &mut Cursor<'_>, rule: Rule) -> Result<Expr, Refused<Syntax>>
        requires { Nests self.now.depth (F.pre self.now.expr) (F.post self.now.expr) }
        ensures { Reads (spec.by_rule (spec.expr self.now.depth) rule (input_of tokens.old)) result tokens.new }
    {
        match rule {
            Rule::Test => self.test(tokens),
            Rule::NotTest => self.not_test(tokens),
            Rule::Factor => self.factor(tokens),
            Rule::Primary => self.primary(tokens),
        }
    }
}

/// Reads by a rule, with no more than `depth` nestings.
pub(crate) fn expr(
    alloc: Global,
    tokens: &mut Cursor<'_>,
    depth: usize,
    rule: Rule,
) -> Result<Expr, Refused<Syntax>>
    ensures { Reads (spec.expr depth rule (input_of tokens.old)) result tokens.new }
{
    if depth == 0 {
        return Err(tokens.refuse());
    }
    Grammar {
        alloc,
        depth: depth - 1,
        expr,
    }
    .by_rule(tokens, rule)
}
