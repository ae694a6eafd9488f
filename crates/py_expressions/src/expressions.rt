//! Whole expressions, as statements hold them.

ghost use Rattle.std.specs.Prelude.{◌≡◌, ◌≤◌, List};
ghost use Rattle.py_tokens.specs.declared.token.Token.{Token};
ghost use Rattle.py_expressions.specs.Follow.{rank, behind_test, behind_tests};
ghost use Rattle.py_expressions.specs.Grammar.{Members, Test, members_text, members_tree, test_text, test_tree};
ghost use Rattle.py_expressions.specs.Input.{Reads, input_of};
ghost use Rattle.py_expressions.specs.Laws.{IsFound, IsRead, NamesFront};
ghost use Rattle.py_expressions.specs.Reading as spec;

use crate::cursor::{Cursor, Syntax};
use crate::grammar::{Grammar, Rule, expr};
use mpy_base::Refused;
use py_tree::Expr;
use std::alloc::Global;

/// Reads `test { "," test } [ "," ]`, with no more nestings than `depth`.
fn tests(alloc: Global, tokens: &mut Cursor<'_>, depth: usize) -> Result<Expr, Refused<Syntax>>
    ensures { Reads (spec.tests depth (input_of tokens.old)) result tokens.new }
{
    Grammar { alloc, depth, expr }.joined_tests(tokens)
}

/// Reads `test { "," test } [ "," ]`, with room for each nesting of what is ahead.
fn all_tests(alloc: Global, tokens: &mut Cursor<'_>) -> Result<Expr, Refused<Syntax>>
    ensures { Reads (spec.all_tests (input_of tokens.old)) result tokens.new }
{
    let depth = tokens.left() + 1;
    tests(alloc, tokens, depth)
}

/// Reads `test`, with room for each nesting of what is ahead.
fn one_test(alloc: Global, tokens: &mut Cursor<'_>) -> Result<Expr, Refused<Syntax>>
    ensures { Reads (spec.one_test (input_of tokens.old)) result tokens.new }
{
    let depth = tokens.left() + 1;
    expr(alloc, tokens, depth, Rule::Test)
}

/// Reads tests with commas between: one without a comma is itself, others are a tuple.
pub fn read_tests(alloc: Global, tokens: &mut Cursor<'_>) -> Result<Expr, Refused<Syntax>>
    ensures reads { Reads (spec.all_tests (input_of tokens.old)) result tokens.new }
    ensures found { IsFound members_text members_tree tokens.old result tokens.new }
    ensures only { (m : Members) (rest : List Token) → behind_tests ≤ rank rest
        → tokens.old.ahead.now ≡ members_text m rest → IsRead (members_tree m) rest result tokens.new }
    ensures fault { NamesFront tokens.old result }
{
    all_tests(alloc, tokens)
}

/// Reads one test.
pub fn read_test(alloc: Global, tokens: &mut Cursor<'_>) -> Result<Expr, Refused<Syntax>>
    ensures reads { Reads (spec.one_test (input_of tokens.old)) result tokens.new }
    ensures found { IsFound test_text test_tree tokens.old result tokens.new }
    ensures only { (t : Test) (rest : List Token) → behind_test ≤ rank rest
        → tokens.old.ahead.now ≡ test_text t rest → IsRead (test_tree t) rest result tokens.new }
    ensures fault { NamesFront tokens.old result }
{
    one_test(alloc, tokens)
}

/// Tokens are read one way as tests, or as one test, in front of what ends them.
pub fn expressions_law()
    ensures tests { (m n : Members) (rest more : List Token) → behind_tests ≤ rank rest → behind_tests ≤ rank more
        → members_text m rest ≡ members_text n more → (members_tree m ≡ members_tree n) × (rest ≡ more) }
    ensures test { (t u : Test) (rest more : List Token) → behind_test ≤ rank rest → behind_test ≤ rank more
        → test_text t rest ≡ test_text u more → (test_tree t ≡ test_tree u) × (rest ≡ more) }
{}
