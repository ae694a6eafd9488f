//! Comparisons, `not`, `and`, `or` and `if`.

ghost use Rattle.std.specs.Prelude.{◌≡◌, IfOk};
ghost use Rattle.std.specs.Option.{option_copied};
ghost use Rattle.py_tokens.specs.declared.word.Word.TheVariants as word;
ghost use Rattle.py_expressions.specs.Alone as alone;
ghost use Rattle.py_expressions.specs.Input.{Reads, input_of, seen};
ghost use Rattle.py_expressions.specs.Reading as spec;
ghost use Rattle.py_expressions.specs.Nests.{Nests};

use crate::cursor::{Cursor, Mark, Syntax, release};
use crate::grammar::{Grammar, Rule};
use crate::members::{and_of, or_of};
use mpy_base::{Boxed, Items, NoMemory, Refused};
use py_tokens::{Op, Tok, Word};
use py_tree::{CompareOp, Expr};
use std::alloc::Global;

/// The level of the loosest binary operators.
const TOP_LEVEL: u8 = 6;

/// The comparisons of one token, but `is`.
fn comparison(kind: Option<&Tok>) -> Option<CompareOp>
    ensures { result ≡ spec.comparison (seen (option_copied kind.entry)) }
{
    match kind {
        Some(Tok::Op(Op::Less)) => Some(CompareOp::Lt),
        Some(Tok::Op(Op::Greater)) => Some(CompareOp::Gt),
        Some(Tok::Op(Op::Equal)) => Some(CompareOp::Eq),
        Some(Tok::Op(Op::LessEqual)) => Some(CompareOp::Le),
        Some(Tok::Op(Op::GreaterEqual)) => Some(CompareOp::Ge),
        Some(Tok::Op(Op::NotEqual)) => Some(CompareOp::Ne),
        Some(Tok::Word(Word::In)) => Some(CompareOp::In),
        _ => None,
    }
}

/// Is the token an operand by itself?
fn is_operand(kind: &Tok) -> bool
    ensures { result ≡ alone.is_operand kind.now }
{
    match kind {
        Tok::Name(_) | Tok::Int(_) | Tok::Str(_) => true,
        Tok::Word(Word::None | Word::True | Word::False) => true,
        _ => false,
    }
}

/// Does the token go on with no test in front of it?
fn ends_test(kind: &Tok) -> bool
    ensures { result ≡ alone.ends_test kind.now }
{
    match kind {
        Tok::Op(Op::Comma | Op::Colon | Op::Assign) => true,
        Tok::Op(Op::CloseParen | Op::CloseBracket | Op::CloseBrace) => true,
        Tok::Newline => true,
        _ => false,
    }
}

/// One token comes next that is a whole test.
fn is_alone(tokens: &Cursor<'_>) -> bool
    ensures { result ≡ alone.alone_at tokens.now.ahead.now }
{
    match tokens.ahead {
        [first, second, ..] => is_operand(&first.kind) && ends_test(&second.kind),
        _ => false,
    }
}

/// Reads `[ comparison ]`.
#[tactic(auto, unfolding(crate::specs::Reading::compare_op))]
fn compare_op(tokens: &mut Cursor<'_>) -> Result<Option<CompareOp>, Refused<Syntax>>
    ensures { Reads (spec.compare_op (input_of tokens.old)) result tokens.new }
{
    match tokens.peek() {
        Some(Tok::Word(Word::Not)) => {
            tokens.take();
            tokens.expect(Mark::Word(Word::In))?;
            Ok(Some(CompareOp::NotIn))
        }
        Some(Tok::Word(Word::Is)) => {
            tokens.take();
            let negates = tokens.eat(Mark::Word(Word::Not));
            Ok(Some(if negates {
                CompareOp::IsNot
            } else {
                CompareOp::Is
            }))
        }
        kind => {
            let found = comparison(kind);
            if found.is_some() {
                tokens.take();
            }
            Ok(found)
        }
    }
}

/// An operand with its comparisons; alone it is itself.
#[inline(never)]
#[tactic(auto, unfolding(crate::specs::Reading::compared))]
fn compared(alloc: Global, first: Expr, rest: Items<(CompareOp, Expr)>) -> Result<Expr, NoMemory>
    ensures { IfOk result (λ e. e ≡ spec.compared first rest) }
{
    if rest.is_empty() {
        return Ok(first);
    }
    let first = Boxed::new(alloc, first)?;
    Ok(Expr::Compare { first, rest })
}

impl<F: Fn(Global, &mut Cursor<'_>, usize, Rule) -> Result<Expr, Refused<Syntax>>> Grammar<F> {
    /// Reads `{ comparison bor }`.
    #[inline(never)]
    fn comparisons(
        &self,
        tokens: &mut Cursor<'_>,
    ) -> Result<Items<(CompareOp, Expr)>, Refused<Syntax>>
        requires { Nests self.now.depth (F.pre self.now.expr) (F.post self.now.expr) }
        ensures { Reads (spec.all_comparisons (spec.expr self.now.depth) (input_of tokens.old)) result tokens.new }
    {
        let mut found = Items::new(self.alloc);
        for _turn in 0..tokens.left() {
            let Some(op) = compare_op(tokens)? else {
                return Ok(found);
            };
            let right = self.sum(tokens, TOP_LEVEL)?;
            found.push((op, right))?;
        }
        Ok(found)
    }

    /// Reads `bor { comparison bor }`.
    #[inline(never)]
    #[tactic(auto, unfolding(crate::specs::Reading::compare))]
    fn compare(&self, tokens: &mut Cursor<'_>) -> Result<Expr, Refused<Syntax>>
        requires { Nests self.now.depth (F.pre self.now.expr) (F.post self.now.expr) }
        ensures { Reads (spec.compare (spec.expr self.now.depth) (input_of tokens.old)) result tokens.new }
    {
        let first = self.sum(tokens, TOP_LEVEL)?;
        match self.comparisons(tokens) {
            Ok(rest) => Ok(compared(self.alloc, first, rest)?),
            Err(refused) => {
                release(first);
                Err(refused)
            }
        }
    }

    /// Behind a `not`.
    #[inline(never)]
    fn negated(&self, tokens: &mut Cursor<'_>) -> Result<Expr, Refused<Syntax>>
        requires { Nests self.now.depth (F.pre self.now.expr) (F.post self.now.expr) }
        ensures { Reads (spec.negated (spec.expr self.now.depth) (input_of tokens.old)) result tokens.new }
    {
        let value = Boxed::new(self.alloc, self.inner(tokens, Rule::NotTest)?)?;
        Ok(Expr::Not(value))
    }

    /// Reads a comparison behind any number of `not`.
    #[tactic(auto, unfolding(crate::specs::Reading::not_test))]
    pub fn not_test(&self, tokens: &mut Cursor<'_>) -> Result<Expr, Refused<Syntax>>
        requires { Nests self.now.depth (F.pre self.now.expr) (F.post self.now.expr) }
        ensures { Reads (spec.not_test (spec.expr self.now.depth) (input_of tokens.old)) result tokens.new }
    {
        if tokens.eat(Mark::Word(Word::Not)) {
            self.negated(tokens)
        } else {
            self.compare(tokens)
        }
    }

    /// Reads `{ "and" nottest }` behind the first operand.
    #[inline(never)]
    fn and_operands(
        &self,
        tokens: &mut Cursor<'_>,
        first: Expr,
    ) -> Result<Items<Expr>, Refused<Syntax>>
        requires { Nests self.now.depth (F.pre self.now.expr) (F.post self.now.expr) }
        ensures { Reads (spec.operands (spec.not_test (spec.expr self.now.depth)) word.And first (input_of tokens.old)) result tokens.new }
    {
        let mut found = Items::new(self.alloc);
        found.push(first)?;
        for _turn in 0..tokens.left() {
            if !tokens.eat(Mark::Word(Word::And)) {
                return Ok(found);
            }
            found.push(self.not_test(tokens)?)?;
        }
        Ok(found)
    }

    /// Reads `nottest { "and" nottest }`.
    #[tactic(auto, unfolding(crate::specs::Reading::and_test, crate::specs::Reading::junction))]
    fn and_test(&self, tokens: &mut Cursor<'_>) -> Result<Expr, Refused<Syntax>>
        requires { Nests self.now.depth (F.pre self.now.expr) (F.post self.now.expr) }
        ensures { Reads (spec.and_test (spec.expr self.now.depth) (input_of tokens.old)) result tokens.new }
    {
        let first = self.not_test(tokens)?;
        if !tokens.sees(Mark::Word(Word::And)) {
            return Ok(first);
        }
        let found = self.and_operands(tokens, first)?;
        Ok(and_of(found))
    }

    /// Reads `{ "or" andtest }` behind the first operand.
    #[inline(never)]
    fn or_operands(
        &self,
        tokens: &mut Cursor<'_>,
        first: Expr,
    ) -> Result<Items<Expr>, Refused<Syntax>>
        requires { Nests self.now.depth (F.pre self.now.expr) (F.post self.now.expr) }
        ensures { Reads (spec.operands (spec.and_test (spec.expr self.now.depth)) word.Or first (input_of tokens.old)) result tokens.new }
    {
        let mut found = Items::new(self.alloc);
        found.push(first)?;
        for _turn in 0..tokens.left() {
            if !tokens.eat(Mark::Word(Word::Or)) {
                return Ok(found);
            }
            found.push(self.and_test(tokens)?)?;
        }
        Ok(found)
    }

    /// Reads `andtest { "or" andtest }`.
    #[tactic(auto, unfolding(crate::specs::Reading::or_test, crate::specs::Reading::junction))]
    fn or_test(&self, tokens: &mut Cursor<'_>) -> Result<Expr, Refused<Syntax>>
        requires { Nests self.now.depth (F.pre self.now.expr) (F.post self.now.expr) }
        ensures { Reads (spec.or_test (spec.expr self.now.depth) (input_of tokens.old)) result tokens.new }
    {
        let first = self.and_test(tokens)?;
        if !tokens.sees(Mark::Word(Word::Or)) {
            return Ok(first);
        }
        let found = self.or_operands(tokens, first)?;
        Ok(or_of(found))
    }

    /// Reads `ortest "else" test` behind the first operand and its `if`.
    #[inline(never)]
    #[tactic(auto, unfolding(crate::specs::Reading::conditional))]
    fn conditional(
        &self,
        tokens: &mut Cursor<'_>,
        yes: Boxed<Expr>,
    ) -> Result<Expr, Refused<Syntax>>
        requires { Nests self.now.depth (F.pre self.now.expr) (F.post self.now.expr) }
        ensures { Reads (spec.conditional (spec.expr self.now.depth) yes (input_of tokens.old)) result tokens.new }
    {
        let test = Boxed::new(self.alloc, self.or_test(tokens)?)?;
        tokens.expect(Mark::Word(Word::Else))?;
        let no = Boxed::new(self.alloc, self.inner(tokens, Rule::Test)?)?;
        Ok(Expr::Cond { test, yes, no })
    }

    /// Reads a test of any length.
    #[inline(always)]
    #[tactic(auto, unfolding(crate::specs::Reading::whole_test))]
    fn long_test(&self, tokens: &mut Cursor<'_>) -> Result<Expr, Refused<Syntax>>
        requires { Nests self.now.depth (F.pre self.now.expr) (F.post self.now.expr) }
        ensures { Reads (spec.whole_test (spec.expr self.now.depth) (input_of tokens.old)) result tokens.new }
    {
        let first = self.or_test(tokens)?;
        if tokens.eat(Mark::Word(Word::If)) {
            let yes = Boxed::new(self.alloc, first)?;
            self.conditional(tokens, yes)
        } else {
            Ok(first)
        }
    }

    /// Reads a whole expression: `or` and what binds closer, and the `if` with its `else` behind it, if there is one. Most are
    /// one token, which is an atom.
    pub fn test(&self, tokens: &mut Cursor<'_>) -> Result<Expr, Refused<Syntax>>
        requires { Nests self.now.depth (F.pre self.now.expr) (F.post self.now.expr) }
        ensures { Reads (spec.whole_test (spec.expr self.now.depth) (input_of tokens.old)) result tokens.new }
    {
        if is_alone(tokens) {
            self.atom(tokens)
        } else {
            self.long_test(tokens)
        }
    }
}
