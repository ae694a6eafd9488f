//! Statements and their blocks.

ghost use Rattle.std.specs.Prelude.{◌≡◌, ◌++◌, ◌∷◌, [], List, length, IfOk, OnOk};
ghost use Rattle.py_tree.specs.declared.stmt.Stmt.{Stmt};
ghost use Rattle.py_expressions.specs.declared.cursor.Cursor.{Cursor};
ghost use Rattle.py_expressions.specs.Input.{Outcome, Reads, and_then, input_of, pure};
ghost use Rattle.py_statements.specs.Reading as statements;
ghost use Rattle.py_parser.specs.Clauses as clauses;
ghost use Rattle.py_parser.specs.Reading as spec;
ghost use Rattle.py_parser.specs.Nests.{Nests};
ghost use Rattle.py_parser.specs.declared.clause.Parts.{Parts};

use crate::clause::{
    Head, Parts, Stage, begins_compound, behind, first_stage, goes_on, kind_of, may_end, no_parts,
    with_clause,
};
use crate::header::{first, later};
use mpy_base::{Items, NoMemory, Refused};
use py_expressions::{Cursor, Mark, Syntax, release};
use py_statements::read_line;
use py_tree::Stmt;
use std::alloc::Global;

/// Adds the items.
pub(crate) fn append<T: Drop>(found: &mut Items<T>, some: Items<T>) -> Result<(), NoMemory>
    ensures { OnOk result (found.new ≡ found.old ++ some) }
{
    for one in some.into_vec() {
        found.push(one)?;
    }
    Ok(())
}

/// The list of this one item.
fn only<T: Drop>(alloc: Global, one: T) -> Result<Items<T>, NoMemory>
    ensures { IfOk result (λ all. all ≡ one ∷ []) }
{
    let mut all = Items::new(alloc);
    all.push(one)?;
    Ok(all)
}

/// The line of the next token.
fn line(tokens: &Cursor<'_>) -> u32
    ensures { result ≡ statements.line_at tokens.now.ahead.now }
{
    match tokens.ahead {
        [] => 0,
        [token, ..] => token.line,
    }
}

/// Notes that a source might end here: what was read is the longest front so far.
pub(crate) fn mark(tokens: &mut Cursor<'_>)
    ensures { input_of tokens.new ≡ spec.marked (input_of tokens.old) }
{
    tokens.front = tokens.ahead.len();
}

/// Notes that a source might end here, if the statement may end.
fn mark_if(tokens: &mut Cursor<'_>, ends: bool)
    ensures { input_of tokens.new ≡ spec.marked_if ends (input_of tokens.old) }
{
    if ends {
        mark(tokens);
    }
}

/// The parts of a statement that may end here; refused where it may not.
fn ended(tokens: &Cursor<'_>, stage: Stage, parts: Parts) -> Result<Parts, Refused<Syntax>>
    ensures { Reads (spec.ended (clauses.may_end stage) parts (input_of tokens.now)) result tokens.now }
{
    if may_end(stage) {
        Ok(parts)
    } else {
        release(parts);
        Err(tokens.refuse())
    }
}

/// The statement, if what stands behind its first header was read.
fn made(
    line: u32,
    head: Head,
    rest: Result<(Items<Stmt>, Parts), Refused<Syntax>>,
) -> Result<Stmt, Refused<Syntax>>
    ensures { (outcome : Outcome (List Stmt × Parts)) (at : Cursor) → Reads outcome rest at
        → Reads (and_then outcome (λ p. pure (statements.stmt_of line (clauses.kind_of line head p.0 p.1)))) result at }
{
    match rest {
        Ok((body, parts)) => {
            let kind = kind_of(line, head, body, parts)?;
            Ok(Stmt { line, kind })
        }
        Err(refused) => {
            release(head);
            Err(refused)
        }
    }
}

/// The rules of statements, of which each reads the statements of a block by `stmt`, one level of blocks less.
#[derive(Clone, Copy)]
pub(crate) struct Blocks<F> {
    pub alloc: Global,
    /// How deep blocks may still nest.
    pub depth: usize,
    pub stmt: F,
}

impl<F: Fn(Global, &mut Cursor<'_>, usize) -> Result<Items<Stmt>, Refused<Syntax>>> Blocks<F> {
    /// Reads the statements of a line in a block, one level of blocks less.
    fn inner(&self, tokens: &mut Cursor<'_>) -> Result<Items<Stmt>, Refused<Syntax>>
        requires { Nests self.now.depth (F.pre self.now.stmt) (F.post self.now.stmt) }
        ensures { Reads (spec.stmt self.now.depth (input_of tokens.old)) result tokens.new }
    {
        (self.stmt)(self.alloc, tokens, self.depth)
    }

    /// Reads `stmt { stmt } Dedent`.
    fn block_from(&self, tokens: &mut Cursor<'_>) -> Result<Items<Stmt>, Refused<Syntax>>
        requires { Nests self.now.depth (F.pre self.now.stmt) (F.post self.now.stmt) }
        ensures { Reads (spec.whole_block (spec.stmt self.now.depth) (input_of tokens.old)) result tokens.new }
    {
        let mut found = Items::new(self.alloc);
        for _turn in 0..tokens.left() {
            let some = self.inner(tokens)?;
            append(&mut found, some)?;
            mark(tokens);
            if tokens.eat(Mark::Dedent) {
                return Ok(found);
            }
        }
        release(found);
        Err(tokens.refuse())
    }

    /// Reads `Indent stmt { stmt } Dedent`.
    #[tactic(auto, unfolding(crate::specs::Reading::block))]
    fn block(&self, tokens: &mut Cursor<'_>) -> Result<Items<Stmt>, Refused<Syntax>>
        requires { Nests self.now.depth (F.pre self.now.stmt) (F.post self.now.stmt) }
        ensures { Reads (spec.block (spec.stmt self.now.depth) (input_of tokens.old)) result tokens.new }
    {
        tokens.expect(Mark::Indent)?;
        mark(tokens);
        self.block_from(tokens)
    }

    /// Reads `line | Newline Indent stmt { stmt } Dedent`.
    #[tactic(auto, unfolding(crate::specs::Reading::suite))]
    fn suite(&self, tokens: &mut Cursor<'_>) -> Result<Items<Stmt>, Refused<Syntax>>
        requires { Nests self.now.depth (F.pre self.now.stmt) (F.post self.now.stmt) }
        ensures { Reads (spec.suite (spec.stmt self.now.depth) (input_of tokens.old)) result tokens.new }
    {
        if tokens.eat(Mark::Newline) {
            self.block(tokens)
        } else {
            read_line(self.alloc, tokens)
        }
    }

    /// One further clause, and the stage behind it.
    #[tactic(auto, unfolding(crate::specs::Reading::one_clause))]
    fn one_clause(
        &self,
        tokens: &mut Cursor<'_>,
        stage: Stage,
        parts: Parts,
    ) -> Result<(Stage, Parts), Refused<Syntax>>
        requires { Nests self.now.depth (F.pre self.now.stmt) (F.post self.now.stmt) }
        ensures { Reads (spec.one_clause (spec.stmt self.now.depth) stage parts (input_of tokens.old)) result tokens.new }
    {
        let line = line(tokens);
        let header = match later(self.alloc, tokens) {
            Ok(header) => header,
            Err(refused) => {
                release(parts);
                return Err(refused);
            }
        };
        let body = match self.suite(tokens) {
            Ok(body) => body,
            Err(refused) => {
                release(header);
                release(parts);
                return Err(refused);
            }
        };
        let next = behind(stage, &header);
        let parts = with_clause(line, header, body, parts)?;
        Ok((next, parts))
    }

    /// Reads the further clauses of a statement.
    fn clauses(&self, tokens: &mut Cursor<'_>, first: Stage) -> Result<Parts, Refused<Syntax>>
        requires { Nests self.now.depth (F.pre self.now.stmt) (F.post self.now.stmt) }
        ensures { Reads (spec.all_clauses (spec.stmt self.now.depth) first (input_of tokens.old)) result tokens.new }
    {
        let mut stage = first;
        let mut parts = no_parts(self.alloc);
        for _turn in 0..tokens.left() {
            mark_if(tokens, may_end(stage));
            if !goes_on(stage, tokens.peek()) {
                return ended(tokens, stage, parts);
            }
            let (next, more) = self.one_clause(tokens, stage, parts)?;
            stage = next;
            parts = more;
        }
        mark_if(tokens, may_end(stage));
        ended(tokens, stage, parts)
    }

    /// What stands behind the header of the first clause: its suite and the further clauses.
    #[tactic(auto, unfolding(crate::specs::Reading::behind_head))]
    fn behind_head(
        &self,
        tokens: &mut Cursor<'_>,
        first: Stage,
    ) -> Result<(Items<Stmt>, Parts), Refused<Syntax>>
        requires { Nests self.now.depth (F.pre self.now.stmt) (F.post self.now.stmt) }
        ensures { Reads (spec.behind_head (spec.stmt self.now.depth) first (input_of tokens.old)) result tokens.new }
    {
        let body = self.suite(tokens)?;
        match self.clauses(tokens, first) {
            Ok(parts) => Ok((body, parts)),
            Err(refused) => {
                release(body);
                Err(refused)
            }
        }
    }

    /// Reads a compound statement.
    fn compound(&self, tokens: &mut Cursor<'_>) -> Result<Stmt, Refused<Syntax>>
        requires { Nests self.now.depth (F.pre self.now.stmt) (F.post self.now.stmt) }
        ensures { Reads (spec.compound (spec.stmt self.now.depth) (input_of tokens.old)) result tokens.new }
    {
        let line = line(tokens);
        let head = first(self.alloc, tokens)?;
        let rest = self.behind_head(tokens, first_stage(&head));
        made(line, head, rest)
    }

    /// Reads `stmt`: a compound statement, or a line.
    #[tactic(auto, unfolding(crate::specs::Reading::stmt_with))]
    fn stmt_with(&self, tokens: &mut Cursor<'_>) -> Result<Items<Stmt>, Refused<Syntax>>
        requires { Nests self.now.depth (F.pre self.now.stmt) (F.post self.now.stmt) }
        ensures { Reads (spec.stmt_with (spec.stmt self.now.depth) (input_of tokens.old)) result tokens.new }
    {
        if begins_compound(tokens.peek()) {
            let one = self.compound(tokens)?;
            Ok(only(self.alloc, one)?)
        } else {
            read_line(self.alloc, tokens)
        }
    }
}

/// A line of statements or a compound one, with blocks no deeper than `depth`.
pub(crate) fn stmt(
    alloc: Global,
    tokens: &mut Cursor<'_>,
    depth: usize,
) -> Result<Items<Stmt>, Refused<Syntax>>
    ensures { Reads (spec.stmt depth (input_of tokens.old)) result tokens.new }
{
    if depth == 0 {
        return Err(tokens.refuse());
    }
    Blocks {
        alloc,
        depth: depth - 1,
        stmt,
    }
    .stmt_with(tokens)
}
