//! The clauses of a compound statement.

ghost use Rattle.std.specs.Prelude.{◌≡◌, ◌∷◌, ◌++◌, [], IfOk, Some};
ghost use Rattle.std.specs.Option.{option_copied};
ghost use Rattle.py_expressions.specs.Input.{seen};
ghost use Rattle.py_tree.specs.declared.stmt.StmtKind.TheVariants as kinds;
ghost use Rattle.py_parser.specs.Clauses as spec;

use mpy_base::{Items, NoMemory, Text};
use py_expressions::release;
use py_tokens::{Tok, Word};
use py_tree::{Branch, Expr, Handler, Param, Stmt, StmtKind, Target};
use std::alloc::Global;

/// The header of the first clause, up to its colon.
#[derive(Drop)]
pub(crate) enum Head {
    If(Expr),
    While(Expr),
    For { target: Target, over: Expr },
    Try,
    Def { name: Text, params: Items<Param> },
}

/// The header of a further clause.
#[derive(Drop)]
pub(crate) enum Header {
    Elif(Expr),
    Else,
    /// Without a test it takes every exception.
    Except {
        test: Option<Expr>,
        name: Option<Text>,
    },
    Finally,
}

/// Which clauses may come next.
#[derive(Clone, Copy)]
pub(crate) enum Stage {
    /// Behind `if` or `elif`.
    Branches,
    /// Behind `while` or `for`.
    Loop,
    /// Behind `try`, which must go on.
    Tried,
    /// Behind an `except` with a test.
    Handlers,
    /// Behind one without.
    LastHandler,
    /// Behind the `else` of a `try`.
    Rest,
    Ended,
}

/// What the further clauses give.
#[derive(Drop)]
pub(crate) struct Parts {
    pub(crate) branches: Items<Branch>,
    pub(crate) handlers: Items<Handler>,
    pub(crate) rest: Items<Stmt>,
    pub(crate) last: Option<Items<Stmt>>,
}

/// Whether a clause of this word may come next.
fn may_follow(stage: Stage, word: Word) -> bool
    ensures { result ≡ spec.may_follow stage word }
{
    match (stage, word) {
        (Stage::Branches, Word::Elif | Word::Else) => true,
        (Stage::Loop, Word::Else) => true,
        (Stage::Tried, Word::Except | Word::Finally) => true,
        (Stage::Handlers, Word::Except | Word::Else | Word::Finally) => true,
        (Stage::LastHandler, Word::Else | Word::Finally) => true,
        (Stage::Rest, Word::Finally) => true,
        _ => false,
    }
}

/// Whether a clause that begins so may come next.
pub(crate) fn goes_on(stage: Stage, kind: Option<&Tok>) -> bool
    ensures { result ≡ spec.goes_on stage (seen (option_copied kind.entry)) }
{
    match kind {
        Some(Tok::Word(word)) => may_follow(stage, *word),
        _ => false,
    }
}

/// Whether a compound statement begins so.
pub(crate) fn begins_compound(kind: Option<&Tok>) -> bool
    ensures { result ≡ spec.begins_compound (seen (option_copied kind.entry)) }
{
    match kind {
        Some(Tok::Word(Word::If | Word::While | Word::For | Word::Try | Word::Def)) => true,
        _ => false,
    }
}

/// Whether the statement may end.
pub(crate) fn may_end(stage: Stage) -> bool
    ensures { result ≡ spec.may_end stage }
{
    !matches!(stage, Stage::Tried)
}

/// The stage behind the first clause.
pub(crate) fn first_stage(head: &Head) -> Stage
    ensures { result ≡ spec.first_stage head.now }
{
    match head {
        Head::If(_) => Stage::Branches,
        Head::While(_) => Stage::Loop,
        Head::For { .. } => Stage::Loop,
        Head::Try => Stage::Tried,
        Head::Def { .. } => Stage::Ended,
    }
}

/// The stage behind an `else`: that of a `try` may have a `finally` behind it.
fn behind_else(stage: Stage) -> Stage
    ensures { result ≡ spec.behind_else stage }
{
    match stage {
        Stage::Handlers | Stage::LastHandler => Stage::Rest,
        _ => Stage::Ended,
    }
}

/// The stage behind a further clause.
pub(crate) fn behind(stage: Stage, header: &Header) -> Stage
    ensures { result ≡ spec.behind stage header.now }
{
    match header {
        Header::Elif(_) => Stage::Branches,
        Header::Else => behind_else(stage),
        Header::Except { test: Some(_), .. } => Stage::Handlers,
        Header::Except { test: None, .. } => Stage::LastHandler,
        Header::Finally => Stage::Ended,
    }
}

/// A statement of its first clause alone.
pub(crate) fn no_parts(alloc: Global) -> Parts
    ensures { result ≡ spec.no_parts }
{
    Parts {
        branches: Items::new(alloc),
        handlers: Items::new(alloc),
        rest: Items::new(alloc),
        last: None,
    }
}

/// The parts with one branch more.
fn with_branch(one: Branch, mut parts: Parts) -> Result<Parts, NoMemory>
    ensures { IfOk result (λ more. more ≡ record parts { branches = parts.branches ++ one ∷ [] }) }
{
    match parts.branches.push(one) {
        Ok(()) => Ok(parts),
        Err(error) => {
            release(parts);
            Err(error)
        }
    }
}

/// The parts with one handler more.
fn with_handler(one: Handler, mut parts: Parts) -> Result<Parts, NoMemory>
    ensures { IfOk result (λ more. more ≡ record parts { handlers = parts.handlers ++ one ∷ [] }) }
{
    match parts.handlers.push(one) {
        Ok(()) => Ok(parts),
        Err(error) => {
            release(parts);
            Err(error)
        }
    }
}

/// The parts with this body of an `else`.
fn with_rest(body: Items<Stmt>, parts: Parts) -> Parts
    ensures { result ≡ record parts { rest = body } }
{
    let Parts {
        branches,
        handlers,
        rest,
        last,
    } = parts;
    release(rest);
    Parts {
        branches,
        handlers,
        rest: body,
        last,
    }
}

/// The parts with this body of a `finally`.
fn with_last(body: Items<Stmt>, parts: Parts) -> Parts
    ensures { result ≡ record parts { last = Some body } }
{
    let Parts {
        branches,
        handlers,
        rest,
        last,
    } = parts;
    release(last);
    Parts {
        branches,
        handlers,
        rest,
        last: Some(body),
    }
}

/// The parts with one clause more, whose word stands in that line.
pub(crate) fn with_clause(
    line: u32,
    header: Header,
    body: Items<Stmt>,
    parts: Parts,
) -> Result<Parts, NoMemory>
    ensures { IfOk result (λ more. more ≡ spec.with_clause line header body parts) }
{
    match header {
        Header::Elif(test) => with_branch(Branch { line, test, body }, parts),
        Header::Else => Ok(with_rest(body, parts)),
        Header::Except { test, name } => {
            let one = Handler {
                line,
                test,
                name,
                body,
            };
            with_handler(one, parts)
        }
        Header::Finally => Ok(with_last(body, parts)),
    }
}

/// The branch in front of the others.
fn in_front(first: Branch, others: Items<Branch>) -> Result<Items<Branch>, NoMemory>
    ensures { IfOk result (λ all. all ≡ first ∷ others) }
{
    let mut all = others.into_vec();
    all.insert(0, first)?;
    Ok(Items::from_vec(all))
}

/// The body of the `else`; no other part is kept.
fn rest_of(parts: Parts) -> Items<Stmt>
    ensures { result ≡ parts.rest }
{
    let Parts {
        branches,
        handlers,
        rest,
        last,
    } = parts;
    release(branches);
    release(handlers);
    release(last);
    rest
}

/// An `if` of its first branch and the parts behind it.
fn if_of(first: Branch, parts: Parts) -> Result<StmtKind, NoMemory>
    ensures { IfOk result (λ kind. kind ≡ kinds.If (first ∷ parts.branches) parts.rest) }
{
    let Parts {
        branches,
        handlers,
        rest,
        last,
    } = parts;
    release(handlers);
    release(last);
    match in_front(first, branches) {
        Ok(branches) => Ok(StmtKind::If { branches, rest }),
        Err(error) => {
            release(rest);
            Err(error)
        }
    }
}

/// A `try` of its body and the parts behind it.
fn try_of(body: Items<Stmt>, parts: Parts) -> StmtKind
    ensures { result ≡ kinds.Try body parts.handlers parts.rest parts.last }
{
    let Parts {
        branches,
        handlers,
        rest,
        last,
    } = parts;
    release(branches);
    StmtKind::Try {
        body,
        handlers,
        rest,
        last,
    }
}

/// The statement of these clauses, whose first word stands in that line.
pub(crate) fn kind_of(
    line: u32,
    head: Head,
    body: Items<Stmt>,
    parts: Parts,
) -> Result<StmtKind, NoMemory>
    ensures { IfOk result (λ kind. kind ≡ spec.kind_of line head body parts) }
{
    match head {
        Head::If(test) => if_of(Branch { line, test, body }, parts),
        Head::While(test) => {
            let rest = rest_of(parts);
            Ok(StmtKind::While { test, body, rest })
        }
        Head::For { target, over } => {
            let rest = rest_of(parts);
            Ok(StmtKind::For {
                target,
                over,
                body,
                rest,
            })
        }
        Head::Try => Ok(try_of(body, parts)),
        Head::Def { name, params } => {
            release(parts);
            Ok(StmtKind::Def { name, params, body })
        }
    }
}
