//! A draft as a code.

ghost use Rattle.std.specs.Prelude.{◌≡◌, ◌<◌, ◌^◌, List, length, map, IfOk};
ghost use Rattle.emit_measures.specs.bc_scheme.mpy_tree.declared.module.Code.{Code as CodeTree};
ghost use Rattle.emit_measures.specs.bc_scheme.mpy_tree.Resolved.{Body, IsBodyOf};
ghost use Rattle.emit_measures.specs.bc_scheme.bc_machine.Library.{line_of};
ghost use Rattle.emit_draft.specs.declared.draft.Draft.{Draft as DraftOf};
ghost use Rattle.emit_draft.specs.Emits.{label_at, line_at};
ghost use Rattle.emit_draft.specs.declared.codes.CodeHead.{CodeHead as Head};
ghost use Rattle.emit_draft.specs.declared.codes.CodeLines.{CodeLines as Lines};
ghost use Rattle.emit_draft.specs.Finished.{AreSmall, IsMade, AreMade, line_number, IsFinished, IsCodeOf, body_of};

use crate::draft::{Draft, DraftItem, DraftLine};
use mpy_base::{Items, NoMemory, Text};
use mpy_tree::{Code, Constant, Item};
use std::alloc::Global;

/// What a code has beside its instructions and its children.
#[derive(Drop)]
pub struct CodeHead {
    pub name: Text,
    pub args: Items<Text>,
    /// How many of the arguments have a default.
    pub defaults: u32,
    /// The slots for locals and the stack.
    pub n_state: u32,
    /// The handler entries.
    pub n_exc: u32,
}

/// Instructions, and a line for each.
#[derive(Drop)]
pub struct CodeLines {
    pub instrs: Items<Item>,
    pub lines: Items<u32>,
}

/// A label's position; 0 where it has none.
fn position(labels: &[Option<usize>], label: usize) -> u32
    requires { AreSmall labels.now }
    ensures { result ≡ label_at labels.now label }
{
    let Some(place) = labels.get(label) else {
        return 0;
    };
    match place {
        Some(position) => *position as u32,
        None => 0,
    }
}

/// An instruction whose labels are known.
fn made(alloc: Global, labels: &[Option<usize>], item: &DraftItem) -> Result<Item, NoMemory>
    requires { AreSmall labels.now }
    ensures { IfOk result (λ made. IsMade labels.now item.now made) }
{
    match item {
        DraftItem::Plain(instr) => Ok(Item::Plain(*instr)),
        DraftItem::Named(op, text) => Ok(Item::Named(*op, Text::new(alloc, text.bytes())?)),
        DraftItem::Str(text) => Ok(Item::Object(Constant::Str(Text::new(alloc, text.bytes())?))),
        DraftItem::Jump(op, label) => Ok(Item::Jump(*op, position(labels, *label))),
        DraftItem::Unwind(label, byte) => Ok(Item::Unwind(position(labels, *label), *byte)),
    }
}

/// The instructions of these lines, each jump with the position of its label.
fn instructions(
    alloc: Global,
    labels: &[Option<usize>],
    lines: &[DraftLine],
) -> Result<Items<Item>, NoMemory>
    requires { AreSmall labels.now }
    ensures { IfOk result (λ items. AreMade labels.now lines.now items) }
{
    let mut items = Items::new(alloc);
    for line in lines {
        items.push(made(alloc, labels, &line.item)?)?;
    }
    Ok(items)
}

/// The line of the source that each instruction is of.
fn line_numbers(alloc: Global, lines: &[DraftLine]) -> Result<Items<u32>, NoMemory>
    ensures { IfOk result (λ numbers. numbers ≡ map line_number lines.now) }
{
    let mut numbers = Items::new(alloc);
    for line in lines {
        numbers.push(line.line)?;
    }
    Ok(numbers)
}

/// The instructions of a draft, each jump with the position of its label.
pub fn finish(alloc: Global, draft: &Draft) -> Result<CodeLines, NoMemory>
    requires { length draft.now.lines < 2 ^ 32 }
    ensures { IfOk result (λ made. IsFinished draft.now made) }
{
    let lines = draft.lines.as_slice();
    let numbers = line_numbers(alloc, lines)?;
    let instrs = instructions(alloc, &draft.labels, lines)?;
    Ok(CodeLines {
        instrs,
        lines: numbers,
    })
}

/// The code of these parts.
pub fn code_of(head: CodeHead, body: CodeLines, children: Items<Code>) -> Code
    ensures { IsCodeOf head body children result }
{
    Code {
        name: head.name,
        args: head.args,
        defaults: head.defaults,
        n_state: head.n_state,
        n_exc: head.n_exc,
        instrs: body.instrs,
        lines: body.lines,
        children,
    }
}

/// A code of a finished draft has one body, whose lines the machine reads as those of the draft.
pub fn body_law()
    ensures body { (draft : DraftOf) (head : Head) (made : Lines) (children : List CodeTree) (code : CodeTree) → IsFinished draft made
        → IsCodeOf head made children code → IsBodyOf code (body_of head made) }
    ensures reads { (draft : DraftOf) (head : Head) (made : Lines) (children : List CodeTree) (code : CodeTree) (body : Body)
        → IsFinished draft made → IsCodeOf head made children code → IsBodyOf code body
        → map (line_of (length body.lines)) body.lines ≡ map (line_at draft.labels.items) draft.lines }
{}
