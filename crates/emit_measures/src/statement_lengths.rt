//! The lengths of statements. The body of a function is a text of its own.

ghost use Rattle.std.specs.Prelude.{◌≡◌, ◌+◌, ℕ, Bool, true, false, map, is_some};
ghost use Rattle.std.specs.List.{list_any};
ghost use Rattle.bc_scheme.specs.py_meaning.Tree.{NoHandler, Assert, AssertWith};
ghost use Rattle.bc_scheme.specs.py_meaning.Tree as tree;
ghost use Rattle.bc_scheme.specs.py_meaning.Plain.{plain_expr, plain_stmt, block, chain, part, on_option, defaults_of, Part};
ghost use Rattle.bc_scheme.specs.Statements.{is_over};
ghost use Rattle.emit_measures.specs.Limits.{saturated, plain_kind, plain_branch, plain_handler};
ghost use Rattle.emit_measures.specs.Rows.{behind_wide, clause_wide};
ghost use Rattle.emit_measures.specs.Lengths.{exit_length as exit_wide, expr_length as expr_wide};
ghost use Rattle.emit_measures.specs.Lengths.{defaults_length as defaults_wide, stmt_length as stmt_wide};
ghost use Rattle.emit_measures.specs.Lengths.{block_length as block_wide, branches_length as branches_wide};
ghost use Rattle.emit_measures.specs.Lengths.{handlers_length as handlers_wide, text_length as text_wide};

use crate::expr_lengths::{expr_length, name_length, row_length};
use crate::imports::{imports_length, taken_length};
use crate::number_lengths::{both, plus, three};
use crate::target_lengths::{assign_length, augmented_length, deletes_length, store_length};
use mpy_base::Text;
use py_tree::{Branch, Expr, Handler, Param, Stmt, StmtKind};

/// The bytes of the code of a module's or a function's own text with each operand at its longest, by the level of its
/// source and its locals. More than the greatest number is told as that one. It takes one walk over the text.
pub fn text_length(level: u8, locals: &[Text], body: &[Stmt]) -> usize
    ensures { (n : ℕ) → result ≡ saturated (text_wide locals.now level ((block (map plain_stmt body.now)).make n)) }
{
    plus(block_length(level, locals, false, false, body), 2)
}

/// A block, in the loop around: whether entries are held that were set up in it, and whether it has an iterator.
#[cycle(blocks)]
fn block_length(level: u8, locals: &[Text], held: bool, iterator: bool, stmts: &[Stmt]) -> usize
    ensures { (n : ℕ) → result ≡ saturated (block_wide locals.now level held iterator ((block (map plain_stmt stmts.now)).make n)) }
{
    let mut length: usize = 0;
    for stmt in stmts {
        let own = kind_length(level, locals, held, iterator, &stmt.kind);
        length = length.saturating_add(own);
    }
    length
}

/// A statement, in the loop around: whether entries are held that were set up in it, and whether it has an iterator.
#[cycle(blocks)]
fn kind_length(level: u8, locals: &[Text], held: bool, iterator: bool, kind: &StmtKind) -> usize
    ensures { (n : ℕ) → result ≡ saturated (stmt_wide locals.now level held iterator ((plain_kind kind.now).make n)) }
{
    match kind {
        StmtKind::Expr(value) => plus(expr_length(locals, value), 1),
        StmtKind::Assign { targets, value } => assign_length(locals, targets.as_slice(), value),
        StmtKind::Aug { target, value, .. } => augmented_length(locals, target, value),
        StmtKind::Del(targets) => deletes_length(locals, targets.as_slice()),
        StmtKind::Pass | StmtKind::Global(_) => 0,
        StmtKind::Break => exit_length(held, iterator),
        StmtKind::Continue => exit_length(held, false),
        StmtKind::Return(value) => option_length(locals, 2, value),
        StmtKind::Raise(value) => option_length(locals, 1, value),
        StmtKind::Import(names) => imports_length(locals, names.as_slice()),
        StmtKind::From { names, .. } => plus(taken_length(locals, names.as_slice()), 10),
        StmtKind::Assert { test, message } => assert_length(level, locals, test, message),
        StmtKind::If { branches, rest } => {
            let branches = branches.as_slice();
            let bare = rest.is_empty();
            let tested = branches_length(level, locals, held, iterator, bare, branches);
            let behind = block_length(level, locals, held, iterator, rest.as_slice());
            both(tested, behind, 0)
        }
        StmtKind::While { test, body, rest } => {
            let inner = block_length(level, locals, false, false, body.as_slice());
            let behind = block_length(level, locals, held, iterator, rest.as_slice());
            three(expr_length(locals, test), inner, behind, 6)
        }
        StmtKind::For {
            target,
            over,
            body,
            rest,
        } => {
            let first = both(expr_length(locals, over), store_length(locals, target), 7);
            let inner = block_length(level, locals, false, true, body.as_slice());
            let behind = block_length(level, locals, held, iterator, rest.as_slice());
            three(first, inner, behind, 0)
        }
        StmtKind::Try {
            body,
            handlers,
            rest,
            last,
        } => {
            let tried = block_length(level, locals, true, iterator, body.as_slice());
            let caught = handlers_length(level, locals, iterator, handlers.as_slice());
            match last {
                None => {
                    let behind = block_length(level, locals, held, iterator, rest.as_slice());
                    three(tried, caught, behind, 7)
                }
                Some(last) => {
                    let behind = block_length(level, locals, true, iterator, rest.as_slice());
                    let whole = three(tried, caught, behind, 7);
                    let ended = block_length(level, locals, true, iterator, last.as_slice());
                    both(covered(handlers.is_empty(), tried, whole), ended, 5)
                }
            }
        }
        StmtKind::Def { name, params, .. } => {
            let own = name_length(locals, name.bytes());
            both(defaults_length(locals, params.as_slice()), own, 0)
        }
    }
}

/// A jump out of a loop.
fn exit_length(held: bool, iterator: bool) -> usize
    ensures { result ≡ exit_wide held iterator }
{
    if held {
        return 4;
    }
    if iterator {
        return 7;
    }
    3
}

/// A value, and one byte behind it.
fn option_length(locals: &[Text], none: usize, value: &Option<Expr>) -> usize
    ensures { result ≡ saturated (on_option none (λ e. expr_wide locals.now e + 1) value.now) }
{
    match value {
        None => none,
        Some(value) => plus(expr_length(locals, value), 1),
    }
}

/// From level 1 on an assertion has no code.
fn assert_length(level: u8, locals: &[Text], test: &Expr, message: &Option<Expr>) -> usize
    ensures { (held iterator : Bool)
        → result ≡ saturated (stmt_wide locals.now level held iterator
        (on_option (Assert (plain_expr test.now)) (AssertWith (plain_expr test.now)) message.now)) }
{
    if level > 0 {
        return 0;
    }
    let tested = expr_length(locals, test);
    match message {
        None => plus(tested, 8),
        Some(message) => both(tested, expr_length(locals, message), 12),
    }
}

/// What a `finally` covers: where no clauses stand, the body alone.
fn covered(bare: bool, alone: usize, whole: usize) -> usize
    ensures bare { bare ≡ true → result ≡ alone }
    ensures caught { bare ≡ false → result ≡ whole }
{
    if bare { alone } else { whole }
}

/// The jump behind a branch, of 3 bytes: there is none behind the last branch where the `else` is bare.
fn behind_length(left: usize, bare: bool) -> usize
    ensures { result ≡ behind_wide left bare }
{
    if left == 0 && bare {
        return 0;
    }
    3
}

/// The tests and bodies of branches in front of an `else`, which is bare where it has no statement.
#[cycle(blocks)]
fn branches_length(
    level: u8,
    locals: &[Text],
    held: bool,
    iterator: bool,
    bare: bool,
    branches: &[Branch],
) -> usize
    ensures { (n : ℕ) (rest : Part tree.Branches) → ((m : ℕ) → is_over (rest.make m) ≡ bare) → (m : ℕ)
        × (saturated (branches_wide locals.now level held iterator ((chain (map plain_branch branches.now) rest).make n))
        ≡ saturated (result + branches_wide locals.now level held iterator (rest.make m))) }
{
    let mut left = branches.len();
    let mut length: usize = 0;
    for branch in branches {
        left -= 1;
        let tested = expr_length(locals, &branch.test);
        let inner = block_length(level, locals, held, iterator, branch.body.as_slice());
        let own = plus(both(tested, inner, 3), behind_length(left, bare));
        length = length.saturating_add(own);
    }
    length
}

/// Clauses, for which an entry is held. None stands behind one without a test.
#[cycle(blocks)]
fn handlers_length(level: u8, locals: &[Text], iterator: bool, handlers: &[Handler]) -> usize
    ensures { (n : ℕ) → result ≡ saturated (handlers_wide locals.now level true iterator ((chain (map plain_handler handlers.now) (part NoHandler)).make n)) }
{
    let mut length: usize = 0;
    for handler in handlers {
        let inner = block_length(level, locals, true, iterator, handler.body.as_slice());
        match &handler.test {
            None => return both(length, inner, 4),
            Some(test) => {
                let tested = expr_length(locals, test);
                let own = both(tested, inner, clause_length(locals, &handler.name));
                length = length.saturating_add(own);
            }
        }
    }
    length
}

/// What stands in a clause beside its test and its body.
fn clause_length(locals: &[Text], name: &Option<Text>) -> usize
    ensures { result ≡ clause_wide locals.now name.now }
{
    match name {
        None => 9,
        Some(name) => name_length(locals, name.bytes()) * 2 + 18,
    }
}

/// A default, where there is one.
fn default_length(locals: &[Text], default: &Option<Expr>) -> usize
    ensures { result ≡ saturated (on_option 0 (expr_wide locals.now) default.now) }
{
    match default {
        None => 0,
        Some(default) => expr_length(locals, default),
    }
}

/// Has one of the parameters a default?
fn has_defaults(params: &[Param]) -> bool
    ensures { result ≡ list_any (λ param. is_some param.default) params.now }
{
    params.iter().any(|param| param.default.is_some())
}

/// The making of a function, behind the tuple of its defaults if it has some.
fn defaults_length(locals: &[Text], params: &[Param]) -> usize
    ensures { result ≡ saturated (defaults_wide locals.now (defaults_of params.now)) }
{
    if !has_defaults(params) {
        return 4;
    }
    let mut length: usize = 0;
    for param in params {
        length = length.saturating_add(default_length(locals, &param.default));
    }
    plus(length, 9)
}
