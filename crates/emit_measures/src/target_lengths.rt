//! The lengths of stores and deletions.

ghost use Rattle.std.specs.Prelude.{◌≡◌, ℕ, Bool, map};
ghost use Rattle.bc_scheme.specs.py_meaning.Plain.{plain_expr, plain_target, augmented, from_targets};
ghost use Rattle.bc_scheme.specs.py_meaning.Tree.{Pass, Assign, Delete};
ghost use Rattle.py_tree.specs.declared.expr.BinaryOp.{BinaryOp};
ghost use Rattle.emit_measures.specs.Limits.{saturated};
ghost use Rattle.emit_measures.specs.Lengths.{store_length as store_wide, stores_length as stores_wide, delete_length as delete_wide, stmt_length as stmt_wide};
ghost use Rattle.emit_measures.specs.Rows.{doubled_wide};

use crate::expr_lengths::{expr_length, name_length};
use crate::number_lengths::{both, plus, three};
use mpy_base::Text;
use py_tree::{Expr, Target};

/// How many bytes a store into the target has at most, or 2^64 - 1 where there are more.
#[cycle(stores)]
pub(crate) fn store_length(locals: &[Text], target: &Target) -> usize
    ensures { result ≡ saturated (store_wide locals.now (plain_target target.now)) }
{
    match target {
        Target::Name(name) => name_length(locals, name.bytes()),
        Target::Attr { object, .. } => plus(expr_length(locals, object), 4),
        Target::Index { object, index } => both(
            expr_length(locals, object),
            expr_length(locals, index),
            1,
        ),
        Target::Unpack(targets) => {
            // Nothing to store to is a name without bytes.
            if targets.is_empty() {
                return name_length(locals, &[]);
            }
            plus(stores_length(locals, targets.as_slice()), 4)
        }
    }
}

/// Stores of the topmost values, one for each.
#[cycle(stores)]
fn stores_length(locals: &[Text], targets: &[Target]) -> usize
    ensures { result ≡ saturated (from_targets 0 (stores_wide locals.now) (map plain_target targets.now)) }
{
    let mut length: usize = 0;
    for target in targets {
        length = length.saturating_add(store_length(locals, target));
    }
    length
}

/// Stores of one value into each, which is doubled in front.
fn doubled_length(locals: &[Text], targets: &[Target]) -> usize
    ensures { result ≡ saturated (doubled_wide locals.now targets.now) }
{
    let mut length: usize = 0;
    for target in targets {
        length = length.saturating_add(plus(store_length(locals, target), 1));
    }
    length
}

/// An assignment.
pub(crate) fn assign_length(locals: &[Text], targets: &[Target], value: &Expr) -> usize
    ensures { (level : ℕ) (held iterator : Bool)
        → result ≡ saturated (stmt_wide locals.now level held iterator
        (from_targets Pass (λ us. Assign us (plain_expr value.now)) (map plain_target targets.now))) }
{
    let Some((first, rest)) = targets.split_first() else {
        return 0;
    };
    let stored = store_length(locals, first);
    three(
        expr_length(locals, value),
        stored,
        doubled_length(locals, rest),
        0,
    )
}

/// An augmented assignment.
pub(crate) fn augmented_length(locals: &[Text], target: &Target, value: &Expr) -> usize
    ensures { (level : ℕ) (held iterator : Bool) (op : BinaryOp)
        → result ≡ saturated (stmt_wide locals.now level held iterator (augmented (plain_target target.now) op (plain_expr value.now))) }
{
    let added = expr_length(locals, value);
    match target {
        Target::Name(name) => {
            let own = name_length(locals, name.bytes());
            three(own, own, added, 1)
        }
        Target::Attr { object, .. } => both(expr_length(locals, object), added, 11),
        Target::Index { object, index } => {
            let first = expr_length(locals, object);
            three(first, expr_length(locals, index), added, 5)
        }
        Target::Unpack(targets) => {
            if targets.is_empty() {
                let own = name_length(locals, &[]);
                return three(own, own, added, 1);
            }
            0
        }
    }
}

/// A deletion. There is none of an attribute or of names in a row.
fn delete_length(locals: &[Text], target: &Target) -> usize
    ensures { result ≡ saturated (delete_wide locals.now (plain_target target.now)) }
{
    match target {
        Target::Name(_) => 4,
        Target::Attr { .. } => 0,
        Target::Index { object, index } => both(
            expr_length(locals, object),
            expr_length(locals, index),
            3,
        ),
        Target::Unpack(targets) => {
            if targets.is_empty() {
                return 4;
            }
            0
        }
    }
}

/// Deletions in a row.
pub(crate) fn deletes_length(locals: &[Text], targets: &[Target]) -> usize
    ensures { (level : ℕ) (held iterator : Bool)
        → result ≡ saturated (stmt_wide locals.now level held iterator (from_targets Pass Delete (map plain_target targets.now))) }
{
    let mut length: usize = 0;
    for target in targets {
        length = length.saturating_add(delete_length(locals, target));
    }
    length
}
