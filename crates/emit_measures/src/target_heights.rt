//! The heights of stores and deletions.

ghost use Rattle.std.specs.Prelude.{◌≡◌, ℕ, map};
ghost use Rattle.bc_scheme.specs.py_meaning.Plain.{plain_expr, plain_target, augmented, from_targets};
ghost use Rattle.bc_scheme.specs.py_meaning.Tree.{Pass, Assign, Delete};
ghost use Rattle.py_tree.specs.declared.expr.BinaryOp.{BinaryOp};
ghost use Rattle.bc_scheme.specs.Heights.{tall_store, tall_stores, tall_assign, tall_delete, tall_stmt};
ghost use Rattle.emit_measures.specs.Limits.{saturated};

use crate::expr_heights::{expr_height, if_left, over};
use py_tree::{Expr, Target};

/// A store, with the value that is stored.
#[cycle(stores)]
pub(crate) fn store_height(target: &Target) -> usize
    ensures { result ≡ saturated (tall_store (plain_target target.now)) }
{
    match target {
        Target::Name(_) => 1,
        Target::Attr { object, .. } => expr_height(object).saturating_add(1),
        Target::Index { object, index } => over(
            expr_height(object),
            expr_height(index),
        ).saturating_add(1),
        Target::Unpack(targets) => {
            // Nothing to store to is a name without bytes.
            if targets.is_empty() {
                return 1;
            }
            targets.len().max(stores_height(targets.as_slice()))
        }
    }
}

/// Stores of the topmost values, one for each, over those that are still to be stored.
#[cycle(stores)]
fn stores_height(targets: &[Target]) -> usize
    ensures { result ≡ saturated (from_targets 0 tall_stores (map plain_target targets.now)) }
{
    let mut left = targets.len();
    let mut height: usize = 0;
    for target in targets {
        left -= 1;
        height = height.max(left.saturating_add(store_height(target)));
    }
    height
}

/// Stores of one value into each. It is doubled in front of all but the last.
fn assigns_height(targets: &[Target]) -> usize
    ensures { result ≡ saturated (from_targets 0 tall_assign (map plain_target targets.now)) }
{
    let mut left = targets.len();
    let mut height: usize = 0;
    for target in targets {
        left -= 1;
        let doubled = if_left(left, 2);
        let kept = if_left(left, 1);
        let own = store_height(target).saturating_add(kept);
        height = height.max(doubled.max(own));
    }
    height
}

/// An assignment.
pub(crate) fn assign_height(targets: &[Target], value: &Expr) -> usize
    ensures { (level : ℕ) → result ≡ saturated (tall_stmt level (from_targets Pass (λ us. Assign us (plain_expr value.now)) (map plain_target targets.now))) }
{
    if targets.is_empty() {
        return 0;
    }
    expr_height(value).max(assigns_height(targets))
}

/// An augmented assignment.
pub(crate) fn augmented_height(target: &Target, value: &Expr) -> usize
    ensures { (level : ℕ) (op : BinaryOp) → result ≡ saturated (tall_stmt level (augmented (plain_target target.now) op (plain_expr value.now))) }
{
    let height = expr_height(value);
    match target {
        Target::Name(_) => height.saturating_add(1),
        Target::Attr { object, .. } => expr_height(object).max(height.saturating_add(2)),
        Target::Index { object, index } => {
            let read = over(expr_height(object), expr_height(index));
            read.max(height.saturating_add(3).max(4))
        }
        Target::Unpack(targets) => {
            if targets.is_empty() {
                return height.saturating_add(1);
            }
            0
        }
    }
}

/// A deletion. That of a name has no value.
fn delete_height(target: &Target) -> usize
    ensures { result ≡ saturated (tall_delete (plain_target target.now)) }
{
    match target {
        Target::Index { object, index } => over(expr_height(object), expr_height(index)).max(3),
        _ => 0,
    }
}

/// Deletions in a row.
pub(crate) fn deletes_height(targets: &[Target]) -> usize
    ensures { (level : ℕ) → result ≡ saturated (tall_stmt level (from_targets Pass Delete (map plain_target targets.now))) }
{
    let mut height: usize = 0;
    for target in targets {
        height = height.max(delete_height(target));
    }
    height
}
