//! How many handler entries are held. A `try` has one for its clauses, and one for its `finally`.

ghost use Rattle.std.specs.Prelude.{◌≡◌, ℕ, max, map};
ghost use Rattle.bc_scheme.specs.py_meaning.Tree.{NoHandler};
ghost use Rattle.bc_scheme.specs.py_meaning.Tree as tree;
ghost use Rattle.bc_scheme.specs.py_meaning.Plain.{plain_stmt, block, chain, part, Part};
ghost use Rattle.bc_scheme.specs.Heights.{held, held_in, held_by, held_of};
ghost use Rattle.emit_measures.specs.Limits.{saturated, plain_kind, plain_branch, plain_handler, named};

use crate::statement_heights::covered;
use mpy_base::Text;
use py_tree::{Branch, Handler, Stmt, StmtKind};

/// The greatest number of handler entries that a text holds at one place. A number past the greatest one is told as
/// that one. It takes one walk over the statements.
#[cycle(entries)]
pub fn block_entries(stmts: &[Stmt]) -> usize
    ensures { (n : ℕ) → result ≡ saturated (held_in ((block (map plain_stmt stmts.now)).make n)) }
{
    let mut entries: usize = 0;
    for stmt in stmts {
        entries = entries.max(kind_entries(&stmt.kind));
    }
    entries
}

/// How many handler entries a statement holds at once at most.
#[cycle(entries)]
fn kind_entries(kind: &StmtKind) -> usize
    ensures { (n : ℕ) → result ≡ saturated (held ((plain_kind kind.now).make n)) }
{
    match kind {
        StmtKind::If { branches, rest } => {
            let tested = branches_entries(branches.as_slice());
            tested.max(block_entries(rest.as_slice()))
        }
        StmtKind::While { body, rest, .. } => {
            block_entries(body.as_slice()).max(block_entries(rest.as_slice()))
        }
        StmtKind::For { body, rest, .. } => {
            block_entries(body.as_slice()).max(block_entries(rest.as_slice()))
        }
        StmtKind::Try {
            body,
            handlers,
            rest,
            last,
        } => {
            let tried = block_entries(body.as_slice());
            let caught = tried
                .max(handlers_entries(handlers.as_slice()))
                .saturating_add(1);
            let whole = caught.max(block_entries(rest.as_slice()));
            match last {
                None => whole,
                Some(last) => {
                    let ended = block_entries(last.as_slice());
                    covered(handlers.is_empty(), tried, whole)
                        .max(ended)
                        .saturating_add(1)
                }
            }
        }
        _ => 0,
    }
}

/// The bodies of branches in front of an `else`.
#[cycle(entries)]
fn branches_entries(branches: &[Branch]) -> usize
    ensures { (n : ℕ) (rest : Part tree.Branches)
        → (m : ℕ) × (saturated (held_by ((chain (map plain_branch branches.now) rest).make n))
        ≡ max result (saturated (held_by (rest.make m)))) }
{
    let mut entries: usize = 0;
    for branch in branches {
        entries = entries.max(block_entries(branch.body.as_slice()));
    }
    entries
}

/// Clauses, of which one with a name has an entry. None stands behind one without a test.
#[cycle(entries)]
fn handlers_entries(handlers: &[Handler]) -> usize
    ensures { (n : ℕ) → result ≡ saturated (held_of ((chain (map plain_handler handlers.now) (part NoHandler)).make n)) }
{
    let mut entries: usize = 0;
    for handler in handlers {
        let inner = block_entries(handler.body.as_slice());
        match &handler.test {
            None => return entries.max(inner),
            Some(_) => entries = entries.max(inner.saturating_add(name_entries(&handler.name))),
        }
    }
    entries
}

/// A clause with a name has an entry.
fn name_entries(name: &Option<Text>) -> usize
    ensures { result ≡ named name.now }
{
    match name {
        None => 0,
        Some(_) => 1,
    }
}
