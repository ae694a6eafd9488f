//! The lengths of expressions, and of parts of them in a row.

ghost use Rattle.std.specs.Prelude.{◌≡◌, map, ◌<◌, ◌≤◌};
ghost use Rattle.std.specs.List.{list_any};
ghost use Rattle.std.specs.Str.{bytes_eq};
ghost use Rattle.bc_scheme.specs.py_meaning.Plain.{plain_expr, exprs, operands, pairs_of, keys_of};
ghost use Rattle.bc_scheme.specs.py_meaning.Tree.{And};
ghost use Rattle.emit_measures.specs.Limits.{saturated, plain_pairs, plain_keys};
ghost use Rattle.emit_measures.specs.Wide.{wide_int};
ghost use Rattle.emit_measures.specs.Lengths.{name_length as name_wide, comparison_length as comparison_wide};
ghost use Rattle.emit_measures.specs.Lengths.{expr_length as expr_wide, exprs_length as exprs_wide, pairs_length as pairs_wide};
ghost use Rattle.emit_measures.specs.Lengths.{keys_length as keys_wide};
ghost use Rattle.emit_measures.specs.Rows.{links_wide};

use crate::number_lengths::{both, plus, three};
use mpy_base::Text;
use py_tree::{CompareOp, Expr};

/// Whether the name is one of the locals.
fn is_among(locals: &[Text], name: &[u8]) -> bool
    ensures { result ≡ list_any (λ local. bytes_eq name.now local) locals.now }
{
    locals.iter().any(|local| name == local.bytes())
}

/// A load of a name or a store to it. The first 16 locals have a short form, and no other local is looked at.
pub(crate) fn name_length(locals: &[Text], name: &[u8]) -> usize
    ensures { result ≡ name_wide locals.now name.now }
{
    let early = &locals[..locals.len().min(16)];
    if is_among(early, name) { 1 } else { 4 }
}

/// How many bytes a load of a small int takes with its operand at its longest.
fn int_length(n: i32) -> usize
    ensures { result ≡ wide_int n }
{
    if -16 <= n && n < 48 {
        return 1;
    }
    6
}

/// How many bytes a comparison takes. `not in` and `is not` are two instructions.
fn comparison_length(op: CompareOp) -> usize
    ensures { result ≡ comparison_wide op }
{
    if matches!(op, CompareOp::NotIn | CompareOp::IsNot) {
        return 2;
    }
    1
}

/// How many bytes each of `count` links has beside its operand and its comparison.
fn beside_links(count: usize) -> usize
    ensures one { count ≤ 1 → result ≡ 0 }
    ensures many { 1 < count → result ≡ 5 }
{
    if count > 1 { 5 } else { 0 }
}

/// How many bytes the code of an expression has at most, or 2^64 - 1 where there are more.
#[cycle(lengths)]
pub(crate) fn expr_length(locals: &[Text], expr: &Expr) -> usize
    ensures { result ≡ saturated (expr_wide locals.now (plain_expr expr.now)) }
{
    match expr {
        Expr::None | Expr::True | Expr::False => 1,
        Expr::Int(n) => int_length(*n),
        Expr::Str(_) => 4,
        Expr::Name(name) => name_length(locals, name.bytes()),
        Expr::Unary { value, .. } => plus(expr_length(locals, value.get()), 1),
        Expr::Not(value) => plus(expr_length(locals, value.get()), 1),
        Expr::Attr { object, .. } => plus(expr_length(locals, object.get()), 4),
        Expr::Binary { left, right, .. } => {
            let first = expr_length(locals, left.get());
            both(first, expr_length(locals, right.get()), 1)
        }
        Expr::Index { object, index } => {
            let first = expr_length(locals, object.get());
            both(first, expr_length(locals, index.get()), 1)
        }
        Expr::And(items) => joined_length(locals, items.as_slice()),
        Expr::Or(items) => joined_length(locals, items.as_slice()),
        Expr::Compare { first, rest } => {
            let compared = expr_length(locals, first.get());
            both(compared, links_length(locals, rest.as_slice()), 0)
        }
        Expr::Cond { test, yes, no } => {
            let tested = expr_length(locals, test.get());
            let chosen = expr_length(locals, yes.get());
            three(tested, chosen, expr_length(locals, no.get()), 6)
        }
        Expr::Tuple(items) => plus(row_length(locals, items.as_slice()), 4),
        Expr::List(items) => plus(row_length(locals, items.as_slice()), 4),
        Expr::Dict(pairs) => plus(pairs_length(locals, pairs.as_slice()), 4),
        Expr::Call { callee, args, keys } => {
            let called = expr_length(locals, callee.get());
            let given = row_length(locals, args.as_slice());
            three(called, given, keys_length(locals, keys.as_slice()), 4)
        }
    }
}

/// The operands of `and` or `or`, of which each but the first stands behind a jump.
#[cycle(lengths)]
fn joined_length(locals: &[Text], items: &[Expr]) -> usize
    ensures { result ≡ saturated (expr_wide locals.now (operands And (map plain_expr items.now))) }
{
    let Some((first, rest)) = items.split_first() else {
        return 1;
    };
    let own = expr_length(locals, first);
    let mut length: usize = 0;
    for item in rest {
        length = length.saturating_add(plus(expr_length(locals, item), 3));
    }
    both(own, length, 0)
}

/// How long the code of expressions is, one behind the other.
#[cycle(lengths)]
pub(crate) fn row_length(locals: &[Text], items: &[Expr]) -> usize
    ensures { result ≡ saturated (exprs_wide locals.now (exprs (map plain_expr items.now))) }
{
    let mut length: usize = 0;
    for item in items {
        length = length.saturating_add(expr_length(locals, item));
    }
    length
}

/// What stands behind the first operand of a comparison. Where there is more than one link, each has five bytes
/// beside its operand and its comparison.
#[cycle(lengths)]
fn links_length(locals: &[Text], links: &[(CompareOp, Expr)]) -> usize
    ensures { result ≡ saturated (links_wide locals.now links.now) }
{
    let beside = beside_links(links.len());
    let mut length: usize = 0;
    for (op, value) in links {
        let own = plus(
            plus(expr_length(locals, value), beside),
            comparison_length(*op),
        );
        length = length.saturating_add(own);
    }
    length
}

/// Pairs, each value in front of its key.
#[cycle(lengths)]
fn pairs_length(locals: &[Text], pairs: &[(Expr, Expr)]) -> usize
    ensures { result ≡ saturated (pairs_wide locals.now (pairs_of (plain_pairs pairs.now))) }
{
    let mut length: usize = 0;
    for (key, value) in pairs {
        let own = both(expr_length(locals, value), expr_length(locals, key), 1);
        length = length.saturating_add(own);
    }
    length
}

/// Keyword arguments, each behind its name.
#[cycle(lengths)]
fn keys_length(locals: &[Text], keys: &[(Text, Expr)]) -> usize
    ensures { result ≡ saturated (keys_wide locals.now (keys_of (plain_keys keys.now))) }
{
    let mut length: usize = 0;
    for (_, value) in keys {
        length = length.saturating_add(plus(expr_length(locals, value), 4));
    }
    length
}
