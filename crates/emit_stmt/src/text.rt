//! The whole code of a module or a function.

ghost use Rattle.std.specs.Prelude.{◌^◌, ◌<◌, IfOk};
ghost use Rattle.emit_stmt.specs.Parts.{plain_block};
ghost use Rattle.emit_stmt.specs.Text.{EmitsText};

use crate::blocks::emit_block;
use crate::jumps::Loop;
use crate::steps::put_behind;
use bc_ops::{Instr, Op};
use emit_draft::{Draft, DraftItem, Scope};
use mpy_base::NoMemory;
use py_tree::Stmt;
use std::alloc::Global;

/// The code of a text: that of its statements, and behind it a return of None.
pub fn emit_text(alloc: Global, level: u8, scope: &Scope, body: &[Stmt]) -> Result<Draft, NoMemory>
    requires { (plain_block body.now).defs < 2 ^ 32 }
    ensures { IfOk result (λ draft. EmitsText draft level scope.now (plain_block body.now)) }
{
    let mut draft = Draft::new(alloc, level);
    let end = draft.new_label()?;
    let around = Loop {
        end,
        next: end,
        entries: 0,
        iterator: false,
    };
    emit_block(alloc, &mut draft, scope, &around, 0, body)?;
    draft.bind(end);
    put_behind(
        &mut draft,
        DraftItem::Plain(Instr::Plain(Op::LoadConstNone)),
    )?;
    put_behind(&mut draft, DraftItem::Plain(Instr::Plain(Op::ReturnValue)))?;
    Ok(draft)
}
