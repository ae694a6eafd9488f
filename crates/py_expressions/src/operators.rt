//! Signs, powers and binary operators.

ghost use Rattle.std.specs.Prelude.{◌≡◌, ◌<◌, ◌-◌};
ghost use Rattle.std.specs.Option.{option_copied};
ghost use Rattle.py_expressions.specs.Alone as alone;
ghost use Rattle.py_expressions.specs.Input.{Reads, input_of, seen};
ghost use Rattle.py_expressions.specs.Reading as spec;
ghost use Rattle.py_expressions.specs.Nests.{Nests};

use crate::cursor::{Cursor, Mark, Syntax};
use crate::grammar::{Grammar, Rule};
use mpy_base::{Boxed, Refused};
use py_tokens::{Op, Tok};
use py_tree::{BinaryOp, Expr, UnaryOp};
use std::alloc::Global;

/// The operator that a sign is.
fn sign(kind: Option<&Tok>) -> Option<UnaryOp>
    ensures { result ≡ spec.sign (seen (option_copied kind.entry)) }
{
    match kind {
        Some(Tok::Op(Op::Plus)) => Some(UnaryOp::Plus),
        Some(Tok::Op(Op::Minus)) => Some(UnaryOp::Minus),
        Some(Tok::Op(Op::Tilde)) => Some(UnaryOp::Invert),
        _ => None,
    }
}

/// The operator of a level, counted from 1 at the tightest one.
fn operator(level: u8, kind: Option<&Tok>) -> Option<BinaryOp>
    ensures { result ≡ spec.operator level (seen (option_copied kind.entry)) }
{
    let Some(Tok::Op(op)) = kind else {
        return None;
    };
    match (level, *op) {
        (1, Op::Star) => Some(BinaryOp::Mul),
        (1, Op::DoubleSlash) => Some(BinaryOp::FloorDiv),
        (1, Op::Percent) => Some(BinaryOp::Mod),
        (2, Op::Plus) => Some(BinaryOp::Add),
        (2, Op::Minus) => Some(BinaryOp::Sub),
        (3, Op::ShiftLeft) => Some(BinaryOp::Shl),
        (3, Op::ShiftRight) => Some(BinaryOp::Shr),
        (4, Op::Ampersand) => Some(BinaryOp::And),
        (5, Op::Caret) => Some(BinaryOp::Xor),
        (6, Op::Bar) => Some(BinaryOp::Or),
        _ => None,
    }
}

/// Is it a binary operator of any level?
fn operates(kind: Option<&Tok>) -> bool
    ensures { result ≡ alone.operates (seen (option_copied kind.entry)) }
{
    let Some(Tok::Op(op)) = kind else {
        return false;
    };
    match op {
        Op::Star | Op::DoubleSlash | Op::Percent | Op::Plus | Op::Minus => true,
        Op::ShiftLeft | Op::ShiftRight | Op::Ampersand | Op::Caret | Op::Bar => true,
        _ => false,
    }
}

impl<F: Fn(Global, &mut Cursor<'_>, usize, Rule) -> Result<Expr, Refused<Syntax>>> Grammar<F> {
    /// Behind the sign of a power.
    #[inline(never)]
    fn raised(&self, tokens: &mut Cursor<'_>, left: Boxed<Expr>) -> Result<Expr, Refused<Syntax>>
        requires { Nests self.now.depth (F.pre self.now.expr) (F.post self.now.expr) }
        ensures { Reads (spec.raised (spec.expr self.now.depth) left (input_of tokens.old)) result tokens.new }
    {
        let op = BinaryOp::Pow;
        let right = Boxed::new(self.alloc, self.inner(tokens, Rule::Factor)?)?;
        Ok(Expr::Binary { op, left, right })
    }

    /// Reads `primary [ "**" factor ]`.
    #[inline(never)]
    #[tactic(auto, unfolding(crate::specs::Reading::power))]
    fn power(&self, tokens: &mut Cursor<'_>) -> Result<Expr, Refused<Syntax>>
        requires { Nests self.now.depth (F.pre self.now.expr) (F.post self.now.expr) }
        ensures { Reads (spec.power (spec.expr self.now.depth) (input_of tokens.old)) result tokens.new }
    {
        let base = self.primary(tokens)?;
        if !tokens.eat(Mark::Op(Op::DoubleStar)) {
            return Ok(base);
        }
        let left = Boxed::new(self.alloc, base)?;
        self.raised(tokens, left)
    }

    /// Behind a sign that stands first.
    #[inline(never)]
    fn signed(&self, tokens: &mut Cursor<'_>, op: UnaryOp) -> Result<Expr, Refused<Syntax>>
        requires { Nests self.now.depth (F.pre self.now.expr) (F.post self.now.expr) }
        ensures { Reads (spec.signed (spec.expr self.now.depth) op (input_of tokens.old)) result tokens.new }
    {
        let value = Boxed::new(self.alloc, self.inner(tokens, Rule::Factor)?)?;
        Ok(Expr::Unary { op, value })
    }

    /// Reads a power, or a sign with the factor behind it.
    #[tactic(auto, unfolding(crate::specs::Reading::factor))]
    pub fn factor(&self, tokens: &mut Cursor<'_>) -> Result<Expr, Refused<Syntax>>
        requires { Nests self.now.depth (F.pre self.now.expr) (F.post self.now.expr) }
        ensures { Reads (spec.factor (spec.expr self.now.depth) (input_of tokens.old)) result tokens.new }
    {
        let Some(op) = sign(tokens.peek()) else {
            return self.power(tokens);
        };
        tokens.take();
        self.signed(tokens, op)
    }

    /// Reads `{ operator operand }` of one level behind the first operand.
    #[cycle(sum)]
    #[inline(never)]
    fn chain(
        &self,
        tokens: &mut Cursor<'_>,
        level: u8,
        mut left: Expr,
    ) -> Result<Expr, Refused<Syntax>>
        requires callable { Nests self.now.depth (F.pre self.now.expr) (F.post self.now.expr) }
        requires above { 0 < level }
        ensures { Reads (spec.whole_chain (spec.sum (spec.expr self.now.depth) (level - 1)) level left (input_of tokens.old)) result tokens.new }
    {
        for _turn in 0..tokens.left() {
            let Some(op) = operator(level, tokens.peek()) else {
                return Ok(left);
            };
            tokens.take();
            let first = Boxed::new(self.alloc, left)?;
            let right = Boxed::new(self.alloc, self.sum(tokens, level - 1)?)?;
            left = Expr::Binary {
                op,
                left: first,
                right,
            };
        }
        Ok(left)
    }

    /// Operators of this level and all tighter ones.
    #[cycle(sum)]
    pub fn sum(&self, tokens: &mut Cursor<'_>, level: u8) -> Result<Expr, Refused<Syntax>>
        requires { Nests self.now.depth (F.pre self.now.expr) (F.post self.now.expr) }
        ensures { Reads (spec.sum (spec.expr self.now.depth) level (input_of tokens.old)) result tokens.new }
    {
        let mut found = self.factor(tokens)?;
        if !operates(tokens.peek()) {
            return Ok(found);
        }
        for tighter in 0..level {
            found = self.chain(tokens, tighter + 1, found)?;
        }
        Ok(found)
    }
}
