//! Calls, indexes and attributes.

ghost use Rattle.std.specs.Prelude.{◌≡◌, [], ◌∷◌, ◌++◌, true, IfOk};
ghost use Rattle.std.specs.List.{list_any};
ghost use Rattle.std.specs.Option.{option_copied};
ghost use Rattle.std.specs.Str.{bytes_eq};
ghost use Rattle.py_expressions.specs.Input.{Reads, input_of, seen};
ghost use Rattle.py_expressions.specs.Reading as spec;
ghost use Rattle.py_expressions.specs.Names.{HasLater};
ghost use Rattle.py_expressions.specs.Nests.{Nests};

use crate::cursor::{Cursor, Mark, Syntax};
use crate::grammar::{Grammar, Rule};
use crate::members::begins_test;
use crate::name_table::{FEW_NAMES, NameTable};
use mpy_base::{Boxed, Items, NoMemory, Refused, Text};
use py_tokens::{Op, Tok};
use py_tree::Expr;
use std::alloc::Global;

/// The arguments of a call.
#[derive(Drop)]
pub struct Arguments {
    pub args: Items<Expr>,
    pub keys: Items<(Text, Expr)>,
}

/// Whether a keyword argument has the name.
fn has_name(keys: &[(Text, Expr)], name: &Text) -> bool
    ensures { result ≡ list_any (λ key. bytes_eq key.0 name.now) keys.now }
{
    keys.iter().any(|key| key.0.bytes() == name.bytes())
}

/// Has none of the keyword arguments this name? The first 16 are compared with it one by one; the names of the others are
/// in the table, and a new name goes there too if it stands behind the first 16.
fn is_new(
    alloc: Global,
    table: &mut NameTable,
    name: &Text,
    keys: &[(Text, Expr)],
) -> Result<bool, NoMemory>
    requires { HasLater table.old keys.now }
    ensures tells { IfOk result (λ was_new. was_new ≡ spec.is_new name.now (spec.names keys.now)) }
    ensures later { IfOk result (λ was_new. was_new ≡ true → (value : Expr) → HasLater table.new (keys.now ++ (name.now, value) ∷ [])) }
{
    if keys.len() < FEW_NAMES {
        return Ok(!has_name(keys, name));
    }
    if has_name(&keys[..FEW_NAMES], name) {
        return Ok(false);
    }
    table.insert(alloc, name.bytes())
}

/// Whether a primary goes on so.
pub(crate) fn begins_trailer(kind: Option<&Tok>) -> bool
    ensures { result ≡ spec.begins_trailer (seen (option_copied kind.entry)) }
{
    matches!(
        kind,
        Some(Tok::Op(Op::OpenParen | Op::OpenBracket | Op::Dot))
    )
}

impl<F: Fn(Global, &mut Cursor<'_>, usize, Rule) -> Result<Expr, Refused<Syntax>>> Grammar<F> {
    /// Reads one more positional argument behind those that are given.
    #[tactic(auto, unfolding(crate::specs::Reading::positional))]
    fn positional(
        &self,
        tokens: &mut Cursor<'_>,
        given: Arguments,
    ) -> Result<Arguments, Refused<Syntax>>
        requires { Nests self.now.depth (F.pre self.now.expr) (F.post self.now.expr) }
        ensures reads { Reads (spec.positional (spec.expr self.now.depth) given (input_of tokens.old)) result tokens.new }
        ensures keys { IfOk result (λ more. more.keys ≡ given.keys) }
    {
        let value = self.inner(tokens, Rule::Test)?;
        let Arguments { mut args, keys } = given;
        args.push(value)?;
        if !keys.is_empty() {
            return Err(tokens.refuse());
        }
        Ok(Arguments { args, keys })
    }

    /// Reads one more keyword argument, whose name none of those has that are given.
    #[tactic(auto, unfolding(crate::specs::Reading::keyword))]
    fn keyword(
        &self,
        tokens: &mut Cursor<'_>,
        table: &mut NameTable,
        given: Arguments,
    ) -> Result<Arguments, Refused<Syntax>>
        requires nests { Nests self.now.depth (F.pre self.now.expr) (F.post self.now.expr) }
        requires later { HasLater table.old given.keys }
        ensures reads { Reads (spec.keyword (spec.expr self.now.depth) given (input_of tokens.old)) result tokens.new }
        ensures later { IfOk result (λ more. HasLater table.new more.keys) }
    {
        let name = tokens.name(self.alloc)?;
        tokens.expect(Mark::Op(Op::Assign))?;
        let value = self.inner(tokens, Rule::Test)?;
        let Arguments { args, mut keys } = given;
        let was_new = is_new(self.alloc, table, &name, keys.as_slice())?;
        keys.push((name, value))?;
        if !was_new {
            return Err(tokens.refuse());
        }
        Ok(Arguments { args, keys })
    }

    /// Reads one more argument behind those that are given.
    #[tactic(auto, unfolding(crate::specs::Reading::argument))]
    fn argument(
        &self,
        tokens: &mut Cursor<'_>,
        table: &mut NameTable,
        given: Arguments,
    ) -> Result<Arguments, Refused<Syntax>>
        requires nests { Nests self.now.depth (F.pre self.now.expr) (F.post self.now.expr) }
        requires later { HasLater table.old given.keys }
        ensures reads { Reads (spec.argument (spec.expr self.now.depth) given (input_of tokens.old)) result tokens.new }
        ensures later { IfOk result (λ more. HasLater table.new more.keys) }
    {
        if tokens.sees_keyword() {
            self.keyword(tokens, table, given)
        } else {
            self.positional(tokens, given)
        }
    }

    /// Reads `[ arg { "," arg } [ "," ] ]`.
    fn arguments(&self, tokens: &mut Cursor<'_>) -> Result<Arguments, Refused<Syntax>>
        requires { Nests self.now.depth (F.pre self.now.expr) (F.post self.now.expr) }
        ensures { Reads (spec.arguments (spec.expr self.now.depth) (input_of tokens.old)) result tokens.new }
    {
        let mut given = Arguments {
            args: Items::new(self.alloc),
            keys: Items::new(self.alloc),
        };
        let mut table = NameTable::new(self.alloc);
        for _turn in 0..tokens.left() {
            if !begins_test(tokens.peek()) {
                return Ok(given);
            }
            given = self.argument(tokens, &mut table, given)?;
            if !tokens.eat(Mark::Op(Op::Comma)) {
                return Ok(given);
            }
        }
        Ok(given)
    }

    /// Reads `arguments ")"` behind the callee and its opening bracket.
    #[tactic(auto, unfolding(crate::specs::Reading::call))]
    fn call(&self, tokens: &mut Cursor<'_>, callee: Boxed<Expr>) -> Result<Expr, Refused<Syntax>>
        requires { Nests self.now.depth (F.pre self.now.expr) (F.post self.now.expr) }
        ensures { Reads (spec.call (spec.expr self.now.depth) callee (input_of tokens.old)) result tokens.new }
    {
        let Arguments { args, keys } = self.arguments(tokens)?;
        tokens.expect(Mark::Op(Op::CloseParen))?;
        Ok(Expr::Call { callee, args, keys })
    }

    /// Reads `tests "]"` behind the object and its opening bracket.
    fn index(&self, tokens: &mut Cursor<'_>, object: Boxed<Expr>) -> Result<Expr, Refused<Syntax>>
        requires { Nests self.now.depth (F.pre self.now.expr) (F.post self.now.expr) }
        ensures { Reads (spec.index (spec.expr self.now.depth) object (input_of tokens.old)) result tokens.new }
    {
        let found = self.closed_tests(tokens, Mark::Op(Op::CloseBracket))?;
        let index = Boxed::new(self.alloc, found)?;
        Ok(Expr::Index { object, index })
    }

    /// Reads one trailer behind what is on its left.
    #[tactic(auto, unfolding(crate::specs::Reading::trailer))]
    fn trailer(&self, tokens: &mut Cursor<'_>, left: Expr) -> Result<Expr, Refused<Syntax>>
        requires { Nests self.now.depth (F.pre self.now.expr) (F.post self.now.expr) }
        ensures { Reads (spec.trailer (spec.expr self.now.depth) left (input_of tokens.old)) result tokens.new }
    {
        let object = Boxed::new(self.alloc, left)?;
        match tokens.peek() {
            Some(Tok::Op(Op::OpenParen)) => {
                tokens.take();
                self.call(tokens, object)
            }
            Some(Tok::Op(Op::OpenBracket)) => {
                tokens.take();
                self.index(tokens, object)
            }
            _ => {
                tokens.take();
                let name = tokens.name(self.alloc)?;
                Ok(Expr::Attr { object, name })
            }
        }
    }

    /// Reads all calls, indexes and attributes that follow `left`, the innermost first.
    #[inline(never)]
    pub fn trailers(&self, tokens: &mut Cursor<'_>, mut left: Expr) -> Result<Expr, Refused<Syntax>>
        requires { Nests self.now.depth (F.pre self.now.expr) (F.post self.now.expr) }
        ensures { Reads (spec.all_trailers (spec.expr self.now.depth) left (input_of tokens.old)) result tokens.new }
    {
        for _turn in 0..tokens.left() {
            if !begins_trailer(tokens.peek()) {
                return Ok(left);
            }
            left = self.trailer(tokens, left)?;
        }
        Ok(left)
    }

    /// Reads a primary: an atom with the calls, indexes and attributes behind it.
    #[tactic(auto, unfolding(crate::specs::Reading::primary))]
    pub fn primary(&self, tokens: &mut Cursor<'_>) -> Result<Expr, Refused<Syntax>>
        requires { Nests self.now.depth (F.pre self.now.expr) (F.post self.now.expr) }
        ensures { Reads (spec.primary (spec.expr self.now.depth) (input_of tokens.old)) result tokens.new }
    {
        let first = self.atom(tokens)?;
        self.trailers(tokens, first)
    }
}
