//! The heights of statements. The body of a function is a text of its own.

ghost use Rattle.std.specs.Prelude.{◌≡◌, ℕ, ◌+◌, max, true, false, map};
ghost use Rattle.bc_scheme.specs.py_meaning.Tree.{NoHandler, Assert, AssertWith};
ghost use Rattle.bc_scheme.specs.py_meaning.Plain.{plain_expr, plain_stmt, block, chain, part, on_option, defaults_of, Part};
ghost use Rattle.bc_scheme.specs.py_meaning.Tree as tree;
ghost use Rattle.bc_scheme.specs.Heights.{tall, tall_stmt, tall_block, tall_branches, tall_handlers, tall_defaults, tall_import};
ghost use Rattle.emit_measures.specs.Limits.{saturated, plain_kind, plain_branch, plain_handler};

use crate::expr_heights::expr_height;
use crate::target_heights::{assign_height, augmented_height, deletes_height, store_height};
use py_tree::{Alias, Branch, Expr, Handler, Param, Stmt, StmtKind};

/// The greatest height of slots above the locals of a text, by the level of its source. A height past the greatest
/// number is told as that one. It takes one walk over the text.
#[cycle(blocks)]
pub fn block_height(level: u8, stmts: &[Stmt]) -> usize
    ensures { (n : ℕ) → result ≡ saturated (tall_block level ((block (map plain_stmt stmts.now)).make n)) }
{
    let mut height: usize = 0;
    for stmt in stmts {
        height = height.max(kind_height(level, &stmt.kind));
    }
    height
}

/// How many slots a statement holds at once at most.
#[cycle(blocks)]
fn kind_height(level: u8, kind: &StmtKind) -> usize
    ensures { (n : ℕ) → result ≡ saturated (tall_stmt level ((plain_kind kind.now).make n)) }
{
    match kind {
        StmtKind::Expr(value) => expr_height(value),
        StmtKind::Assign { targets, value } => assign_height(targets.as_slice(), value),
        StmtKind::Aug { target, value, .. } => augmented_height(target, value),
        StmtKind::Del(targets) => deletes_height(targets.as_slice()),
        StmtKind::Pass | StmtKind::Break | StmtKind::Continue | StmtKind::Global(_) => 0,
        StmtKind::Return(value) => option_height(1, value),
        StmtKind::Raise(value) => option_height(0, value),
        StmtKind::Import(names) => import_height(names.as_slice()),
        StmtKind::From { names, .. } => names.len().max(1).saturating_add(1),
        StmtKind::Assert { test, message } => assert_height(level, test, message),
        StmtKind::If { branches, rest } => {
            let tested = branches_height(level, branches.as_slice());
            tested.max(block_height(level, rest.as_slice()))
        }
        StmtKind::While { test, body, rest } => {
            let inner = block_height(level, body.as_slice());
            let behind = block_height(level, rest.as_slice());
            expr_height(test).max(inner.max(behind))
        }
        StmtKind::For {
            target,
            over,
            body,
            rest,
        } => {
            let first = expr_height(over).max(5);
            let stored = store_height(target).saturating_add(4);
            let inner = block_height(level, body.as_slice()).saturating_add(4);
            let behind = block_height(level, rest.as_slice());
            first.max(stored.max(inner.max(behind)))
        }
        StmtKind::Try {
            body,
            handlers,
            rest,
            last,
        } => {
            let tried = block_height(level, body.as_slice());
            let caught = handlers_height(level, handlers.as_slice());
            let whole = tried.max(caught.max(block_height(level, rest.as_slice())));
            match last {
                None => whole,
                Some(last) => {
                    let ended = block_height(level, last.as_slice()).saturating_add(1);
                    covered(handlers.is_empty(), tried, whole).max(ended)
                }
            }
        }
        StmtKind::Def { params, .. } => defaults_height(params.as_slice()),
    }
}

/// What a `finally` covers: where no clauses stand, the body alone.
pub(crate) fn covered(bare: bool, alone: usize, whole: usize) -> usize
    ensures bare { bare ≡ true → result ≡ alone }
    ensures caught { bare ≡ false → result ≡ whole }
{
    if bare { alone } else { whole }
}

/// The slots of an expression, or `none` where there is none.
fn option_height(none: usize, value: &Option<Expr>) -> usize
    ensures { result ≡ saturated (on_option none tall value.now) }
{
    match value {
        None => none,
        Some(value) => expr_height(value),
    }
}

/// From level 1 on an assertion has no code.
fn assert_height(level: u8, test: &Expr, message: &Option<Expr>) -> usize
    ensures { result ≡ saturated (tall_stmt level (on_option (Assert (plain_expr test.now)) (AssertWith (plain_expr test.now)) message.now)) }
{
    if level > 0 {
        return 0;
    }
    let height = expr_height(test);
    match message {
        None => height,
        Some(message) => height.max(expr_height(message).saturating_add(1)),
    }
}

/// The tests and bodies of branches in front of an `else`.
#[cycle(blocks)]
fn branches_height(level: u8, branches: &[Branch]) -> usize
    ensures { (n : ℕ) (rest : Part tree.Branches)
        → (m : ℕ) × (saturated (tall_branches level ((chain (map plain_branch branches.now) rest).make n))
        ≡ max result (saturated (tall_branches level (rest.make m)))) }
{
    let mut height: usize = 0;
    for branch in branches {
        let own = expr_height(&branch.test).max(block_height(level, branch.body.as_slice()));
        height = height.max(own);
    }
    height
}

/// Clauses, over the exception and its double. None stands behind one without a test.
#[cycle(blocks)]
fn handlers_height(level: u8, handlers: &[Handler]) -> usize
    ensures { (n : ℕ) → result ≡ saturated (tall_handlers level ((chain (map plain_handler handlers.now) (part NoHandler)).make n)) }
{
    let mut height: usize = 0;
    for handler in handlers {
        let inner = block_height(level, handler.body.as_slice());
        match &handler.test {
            None => return height.max(inner.max(1)),
            Some(test) => {
                let own = inner.max(expr_height(test).saturating_add(2));
                height = height.max(own);
            }
        }
    }
    height.max(1)
}

/// The slots of `import`: two where it names a module.
fn import_height(names: &[Alias]) -> usize
    ensures { result ≡ saturated (tall_import names.now) }
{
    if names.is_empty() {
        return 0;
    }
    2
}

/// A default, where there is one, over those in front of it.
fn default_height(slots: usize, default: &Option<Expr>) -> usize
    ensures { (n : ℕ) → slots ≡ saturated n → result ≡ saturated (on_option 0 (λ e. n + tall e) default.now) }
{
    match default {
        None => 0,
        Some(default) => slots.saturating_add(expr_height(default)),
    }
}

/// How many values a default puts: one, or none where there is no default.
fn default_count(default: &Option<Expr>) -> usize
    ensures { result ≡ on_option 0 (λ e. 1) default.now }
{
    match default {
        None => 0,
        Some(_) => 1,
    }
}

/// The defaults of a function, for which a tuple is made and a null put over it.
fn defaults_height(params: &[Param]) -> usize
    ensures { result ≡ saturated (tall_defaults (defaults_of params.now)) }
{
    let mut slots: usize = 0;
    let mut height: usize = 0;
    for param in params {
        height = height.max(default_height(slots, &param.default));
        slots = slots.saturating_add(default_count(&param.default));
    }
    if slots == 0 {
        return 1;
    }
    height.max(2)
}
