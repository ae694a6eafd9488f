//! The heights of expressions, and of parts of them in a row. A height past the greatest number is told as that one.

ghost use Rattle.std.specs.Prelude.{◌≡◌, ℕ, ◌+◌, ◌<◌, max, map};
ghost use Rattle.bc_scheme.specs.py_meaning.Plain.{plain_expr, exprs, operands, pairs_of, keys_of};
ghost use Rattle.bc_scheme.specs.py_meaning.Tree.{And};
ghost use Rattle.bc_scheme.specs.Heights.{tall, tallest as tallest_of, tall_above, tall_pairs, tall_keys};
ghost use Rattle.emit_measures.specs.Limits.{saturated, plain_pairs, plain_keys, links_height as links_tall, slots_of};

use mpy_base::Text;
use py_tree::{CompareOp, Expr};

/// What a double takes, which is made where something is left behind it.
pub(crate) fn if_left(left: usize, slots: usize) -> usize
    ensures some { 0 < left → result ≡ slots }
    ensures none { left ≡ 0 → result ≡ 0 }
{
    if left > 0 { slots } else { 0 }
}

/// A value, and one over its slot.
pub(crate) fn over(low: usize, high: usize) -> usize
    ensures { (a b : ℕ) → low ≡ saturated a → high ≡ saturated b → result ≡ saturated (max a (1 + b)) }
{
    low.max(high.saturating_add(1))
}

/// How many slots an expression takes at most, or 2^64 - 1 where there are more.
#[cycle(heights)]
pub(crate) fn expr_height(expr: &Expr) -> usize
    ensures { result ≡ saturated (tall (plain_expr expr.now)) }
{
    match expr {
        Expr::None | Expr::True | Expr::False | Expr::Int(_) | Expr::Str(_) | Expr::Name(_) => 1,
        Expr::Unary { value, .. } => expr_height(value.get()),
        Expr::Not(value) => expr_height(value.get()),
        Expr::Attr { object, .. } => expr_height(object.get()),
        Expr::Binary { left, right, .. } => over(expr_height(left.get()), expr_height(right.get())),
        Expr::Index { object, index } => over(expr_height(object.get()), expr_height(index.get())),
        Expr::And(items) => joined_height(items.as_slice()),
        Expr::Or(items) => joined_height(items.as_slice()),
        Expr::Compare { first, rest } => {
            expr_height(first.get()).max(links_height(rest.as_slice()))
        }
        Expr::Cond { test, yes, no } => {
            expr_height(test.get()).max(expr_height(yes.get()).max(expr_height(no.get())))
        }
        Expr::Tuple(items) => row_height(0, items.as_slice()).max(1),
        Expr::List(items) => row_height(0, items.as_slice()).max(1),
        Expr::Dict(pairs) => pairs_height(pairs.as_slice()).max(1),
        Expr::Call { callee, args, keys } => {
            let callee = callee.get();
            let args = args.as_slice();
            let slots = callee_slots(callee);
            let below = slots.saturating_add(args.len());
            let called = expr_height(callee).max(slots);
            let given = row_height(slots, args);
            called.max(given).max(keys_height(below, keys.as_slice()))
        }
    }
}

/// The operands of `and` or `or`.
#[cycle(heights)]
fn joined_height(items: &[Expr]) -> usize
    ensures { result ≡ saturated (tall (operands And (map plain_expr items.now))) }
{
    if items.is_empty() {
        return 1;
    }
    tallest(items)
}

/// The greatest height of these expressions, each over the same slots.
#[cycle(heights)]
fn tallest(items: &[Expr]) -> usize
    ensures { result ≡ saturated (tallest_of (exprs (map plain_expr items.now))) }
{
    let mut height: usize = 0;
    for item in items {
        height = height.max(expr_height(item));
    }
    height
}

/// Each over those in front of it.
#[cycle(heights)]
pub(crate) fn row_height(below: usize, items: &[Expr]) -> usize
    ensures { result ≡ saturated (tall_above below (exprs (map plain_expr items.now))) }
{
    let mut slots = below;
    let mut height: usize = 0;
    for item in items {
        height = height.max(slots.saturating_add(expr_height(item)));
        slots = slots.saturating_add(1);
    }
    height
}

/// What stands behind the first operand of a comparison. Each link but the last doubles its operand.
#[cycle(heights)]
fn links_height(links: &[(CompareOp, Expr)]) -> usize
    ensures { result ≡ saturated (links_tall links.now) }
{
    let mut left = links.len();
    let mut height: usize = 0;
    for (_, value) in links {
        left -= 1;
        let doubled = if_left(left, 3);
        let own = expr_height(value).saturating_add(1);
        height = height.max(doubled.max(own));
    }
    height
}

/// Pairs, each value in front of its key, over a dict.
#[cycle(heights)]
fn pairs_height(pairs: &[(Expr, Expr)]) -> usize
    ensures { result ≡ saturated (tall_pairs (pairs_of (plain_pairs pairs.now))) }
{
    let mut height: usize = 0;
    for (key, value) in pairs {
        let first = expr_height(value).saturating_add(1);
        let second = expr_height(key).saturating_add(2);
        height = height.max(first.max(second));
    }
    height
}

/// Keyword arguments, each behind its name.
#[cycle(heights)]
fn keys_height(below: usize, keys: &[(Text, Expr)]) -> usize
    ensures { (n : ℕ) → below ≡ saturated n → result ≡ saturated (tall_keys n (keys_of (plain_keys keys.now))) }
{
    let mut slots = below;
    let mut height: usize = 0;
    for (_, value) in keys {
        let own = expr_height(value).saturating_add(1);
        height = height.max(slots.saturating_add(own));
        slots = slots.saturating_add(2);
    }
    height
}

/// The slots of what is called: an attribute's method and object, or one callee.
#[cycle(callees)]
fn callee_slots(callee: &Expr) -> usize
    ensures { result ≡ slots_of (plain_expr callee.now) }
{
    match callee {
        Expr::Attr { .. } => 2,
        Expr::Compare { first, rest } => {
            // A comparison with nothing is what it compares.
            if rest.is_empty() {
                return callee_slots(first.get());
            }
            1
        }
        _ => 1,
    }
}
