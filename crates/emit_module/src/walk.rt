//! The codes of the functions in a text.

ghost use Rattle.std.specs.Prelude.{◌≡◌, ◌+◌, ◌^◌, ◌<◌, ◌≤◌, ◌∷◌, ◌++◌, ℕ, [], length, Some, slice_get, OnOk, IfOk};
ghost use Rattle.py_tree.specs.declared.stmt.Stmt.{out-Stmt};
ghost use Rattle.tr_source.specs.py_meaning.Plain.{numbered};
ghost use Rattle.tr_source.specs.py_meaning.Program.{Text as TextOf, or_none};
ghost use Rattle.emit_measures.specs.TextLengths.{HasTextLength};
ghost use Rattle.emit_measures.specs.declared.faults.Measures.{Measures};
ghost use Rattle.emit_measures.specs.Faults.{fault_of, IsMeasured};
ghost use Rattle.emit_stmt.specs.Plain.{plain_kind};
ghost use Rattle.emit_stmt.specs.Parts.{plain_block, plain_handlers};
ghost use Rattle.emit_module.specs.Walk.{planted, planted_in, planted_by, front_defs, WalksAll, WalksFront, WalksBody, CodesFunction, IsPut};

use crate::own::{OwnCode, Place};
use crate::text::{head_of, text_code};
use emit_draft::{code_of, function_scope};
use emit_measures::many_locals_fault;
use mpy_base::{Items, NoMemory, Refused, SourceFault, Text};
use mpy_tree::Code;
use py_scopes::NameSlots;
use py_tree::{Branch, Handler, Param, Stmt, StmtKind};
use std::alloc::Global;

/// The codes of functions in one text, in text order.
#[derive(Drop)]
pub(crate) struct Children {
    /// The level of the source.
    pub(crate) level: u8,
    /// How many functions stand around them.
    pub(crate) depth: usize,
    /// The number of the next function of their source, from 0 on.
    pub(crate) next: u32,
    pub(crate) codes: Items<Code>,
    /// The line of the `def` of each code, and of each code in it, in preorder.
    pub(crate) lines: Items<u32>,
}

/// Adds the codes of the functions that the block defines itself, each with those in it.
#[cycle(functions)]
pub(crate) fn emit_defs(
    alloc: Global,
    slots: &NameSlots,
    children: &mut Children,
    block: &[Stmt],
) -> Result<(), Refused<SourceFault>>
    requires numbers { children.old.next + (plain_block block.now).defs < 2 ^ 32 }
    requires shallow { children.old.depth < 32 }
    ensures numbers { OnOk result (children.new.next ≤ children.old.next + (plain_block block.now).defs) }
    ensures walked { WalksAll slots.now (λ n. planted ((plain_block block.now).make n)) children.old children.new result }
{
    for stmt in block {
        match emit_in(alloc, slots, children, stmt) {
            Ok(()) => {}
            Err(refusal) => return Err(refusal),
        }
    }
    Ok(())
}

/// Walks one statement for the functions that are defined in it.
#[cycle(functions)]
fn emit_in(
    alloc: Global,
    slots: &NameSlots,
    children: &mut Children,
    stmt: &Stmt,
) -> Result<(), Refused<SourceFault>>
    requires numbers { children.old.next + (plain_kind (out-Stmt stmt.now).kind).defs < 2 ^ 32 }
    requires shallow { children.old.depth < 32 }
    ensures numbers { OnOk result (children.new.next ≤ children.old.next + (plain_kind (out-Stmt stmt.now).kind).defs) }
    ensures walked { WalksAll slots.now
        (λ n. planted_in (out-Stmt stmt.now).line ((plain_kind (out-Stmt stmt.now).kind).make n)) children.old children.new result }
{
    match &stmt.kind {
        StmtKind::If { branches, rest } => {
            match emit_branches(alloc, slots, children, branches.as_slice()) {
                Ok(()) => emit_defs(alloc, slots, children, rest.as_slice()),
                Err(refusal) => Err(refusal),
            }
        }
        StmtKind::While { body, rest, .. } => {
            match emit_defs(alloc, slots, children, body.as_slice()) {
                Ok(()) => emit_defs(alloc, slots, children, rest.as_slice()),
                Err(refusal) => Err(refusal),
            }
        }
        StmtKind::For { body, rest, .. } => {
            match emit_defs(alloc, slots, children, body.as_slice()) {
                Ok(()) => emit_defs(alloc, slots, children, rest.as_slice()),
                Err(refusal) => Err(refusal),
            }
        }
        StmtKind::Try {
            body,
            handlers,
            rest,
            last,
        } => {
            match emit_defs(alloc, slots, children, body.as_slice()) {
                Ok(()) => {}
                Err(refusal) => return Err(refusal),
            }
            match emit_handlers(alloc, slots, children, handlers.as_slice()) {
                Ok(()) => {}
                Err(refusal) => return Err(refusal),
            }
            let Some(last) = last else {
                return emit_defs(alloc, slots, children, rest.as_slice());
            };
            if handlers.is_empty() {
                return emit_defs(alloc, slots, children, last.as_slice());
            }
            match emit_defs(alloc, slots, children, rest.as_slice()) {
                Ok(()) => emit_defs(alloc, slots, children, last.as_slice()),
                Err(refusal) => Err(refusal),
            }
        }
        StmtKind::Def { name, params, body } => emit_function(
            alloc,
            slots,
            children,
            stmt.line,
            name.bytes(),
            params.as_slice(),
            body.as_slice(),
        ),
        _ => Ok(()),
    }
}

/// The bodies of branches in front of an `else`.
#[cycle(functions)]
fn emit_branches(
    alloc: Global,
    slots: &NameSlots,
    children: &mut Children,
    branches: &[Branch],
) -> Result<(), Refused<SourceFault>>
    requires numbers { children.old.next + front_defs branches.now < 2 ^ 32 }
    requires shallow { children.old.depth < 32 }
    ensures numbers { OnOk result (children.new.next ≤ children.old.next + front_defs branches.now) }
    ensures walked { WalksFront slots.now branches.now children.old children.new result }
{
    for branch in branches {
        match emit_defs(alloc, slots, children, branch.body.as_slice()) {
            Ok(()) => {}
            Err(refusal) => return Err(refusal),
        }
    }
    Ok(())
}

/// The bodies of clauses. None stands behind one without a test.
#[cycle(functions)]
fn emit_handlers(
    alloc: Global,
    slots: &NameSlots,
    children: &mut Children,
    handlers: &[Handler],
) -> Result<(), Refused<SourceFault>>
    requires numbers { children.old.next + (plain_handlers handlers.now).defs < 2 ^ 32 }
    requires shallow { children.old.depth < 32 }
    ensures numbers { OnOk result (children.new.next ≤ children.old.next + (plain_handlers handlers.now).defs) }
    ensures walked { WalksAll slots.now (λ n. planted_by ((plain_handlers handlers.now).make n)) children.old children.new result }
{
    for handler in handlers {
        match emit_defs(alloc, slots, children, handler.body.as_slice()) {
            Ok(()) => {}
            Err(refusal) => return Err(refusal),
        }
        if handler.test.is_none() {
            return Ok(());
        }
    }
    Ok(())
}

/// Adds the code of a function.
#[cycle(functions)]
fn emit_function(
    alloc: Global,
    slots: &NameSlots,
    children: &mut Children,
    line: u32,
    name: &[u8],
    params: &[Param],
    body: &[Stmt],
) -> Result<(), Refused<SourceFault>>
    requires numbers { children.old.next + (numbered name.now params.now (plain_block body.now)).defs < 2 ^ 32 }
    requires shallow { children.old.depth < 32 }
    ensures numbers { OnOk result (children.new.next ≤ children.old.next + (numbered name.now params.now (plain_block body.now)).defs) }
    ensures walked { WalksAll slots.now (λ n. planted_in line ((numbered name.now params.now (plain_block body.now)).make n)) children.old children.new result }
{
    let own = match function_code(alloc, slots, children, line, params, body) {
        Ok(own) => own,
        Err(refusal) => return Err(refusal),
    };
    match emit_body(alloc, slots, children, body) {
        Ok(inner) => match put_code(alloc, children, line, name, params, own, inner) {
            Ok(()) => Ok(()),
            Err(NoMemory) => Err(Refused::NoMemory),
        },
        Err(refusal) => Err(refusal),
    }
}

/// The codes of the functions in the next one.
#[cycle(functions)]
fn emit_body(
    alloc: Global,
    slots: &NameSlots,
    around: &Children,
    body: &[Stmt],
) -> Result<Children, Refused<SourceFault>>
    requires numbers { around.now.next + 1 + (plain_block body.now).defs < 2 ^ 32 }
    requires shallow { around.now.depth + 1 < 32 }
    ensures numbers { IfOk result (λ inner. inner.next ≤ around.now.next + 1 + (plain_block body.now).defs) }
    ensures walked { WalksBody slots.now (plain_block body.now) around.now result }
{
    let mut inner = Children {
        level: around.level,
        depth: around.depth + 1,
        next: around.next + 1,
        codes: Items::new(alloc),
        lines: Items::new(alloc),
    };
    match emit_defs(alloc, slots, &mut inner, body) {
        Ok(()) => Ok(inner),
        Err(refusal) => Err(refusal),
    }
}

/// The fault of the next function, which has more than 4,096 locals.
fn many_locals(
    alloc: Global,
    slots: &NameSlots,
    around: &Children,
    line: u32,
    body: &[Stmt],
) -> SourceFault
    requires { 4096 < length (or_none (slice_get slots.now around.now.next)) }
    ensures code { (text : TextOf) (n : ℕ) → text.level ≡ around.now.level → text.locals ≡ or_none (slice_get slots.now around.now.next)
        → text.body ≡ (plain_block body.now).make n
        → (measures : Measures) → IsMeasured text measures → HasTextLength text measures → fault_of measures ≡ Some result.code }
    ensures line { result.line ≡ line }
    ensures word { result.word ≡ [] }
{
    let locals: &[Text] = slots.locals(around.next).unwrap_or(&[]);
    SourceFault {
        code: many_locals_fault(around.level, locals, body),
        line,
        word: Text::empty(alloc),
    }
}

/// The code of the next function's own statements.
fn function_code(
    alloc: Global,
    slots: &NameSlots,
    around: &Children,
    line: u32,
    params: &[Param],
    body: &[Stmt],
) -> Result<OwnCode, Refused<SourceFault>>
    requires numbers { (plain_block body.now).defs < 2 ^ 32 }
    requires shallow { around.now.depth < 32 }
    ensures shallow { OnOk result (around.now.depth + 1 < 32) }
    ensures params { OnOk result (length params.now ≤ 255) }
    ensures code { CodesFunction slots.now around.now line params.now body.now result }
{
    let place = Place {
        level: around.level,
        line,
        depth: around.depth + 1,
        params: params.len(),
    };
    let Some(scope) = function_scope(alloc, slots, around.next)? else {
        return Err(Refused::Fault(many_locals(alloc, slots, around, line, body)));
    };
    text_code(alloc, &place, scope, body)
}

/// Adds the line of a function, and behind it those of the functions in it.
fn add_lines(lines: &mut Items<u32>, line: u32, inner: &[u32]) -> Result<(), NoMemory>
    ensures { OnOk result (lines.new ≡ lines.old ++ line ∷ inner.now) }
{
    lines.push(line)?;
    for each in inner {
        lines.push(*each)?;
    }
    Ok(())
}

/// Adds the code of the next function, whose `def` stands in the line, with the codes of those in it.
fn put_code(
    alloc: Global,
    children: &mut Children,
    line: u32,
    name: &[u8],
    params: &[Param],
    own: OwnCode,
    inner: Children,
) -> Result<(), NoMemory>
    requires { length params.now ≤ 255 }
    ensures { OnOk result (IsPut children.old children.new line name.now params.now own inner) }
{
    let Children {
        next,
        codes,
        lines,
        ..
    } = inner;
    let head = head_of(alloc, name, params, own.n_state, own.n_exc)?;
    add_lines(&mut children.lines, line, lines.as_slice())?;
    children.next = next;
    children.codes.push(code_of(head, own.lines, codes))?;
    Ok(())
}
