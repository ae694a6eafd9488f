//! The code of one text: what the walk over functions puts together.

ghost use Rattle.std.specs.Prelude.{◌≡◌, ◌^◌, ◌<◌, ◌≤◌, length, map, IfOk};
ghost use Rattle.py_tree.specs.declared.stmt.Param.{Param as ParamOf};
ghost use Rattle.tr_source.specs.py_meaning.Tree.{count};
ghost use Rattle.tr_source.specs.py_meaning.Plain.{defaults_of};
ghost use Rattle.tr_source.specs.py_meaning.Program.{Text as TextOf};
ghost use Rattle.emit_stmt.specs.Parts.{plain_block};
ghost use Rattle.emit_module.specs.Own.{IsTextOf};
ghost use Rattle.emit_module.specs.Walk.{CodesText, IsHeadOf};

use crate::own::{OwnCode, Place, own_code};
use emit_draft::{CodeHead, Scope};
use emit_stmt::emit_text;
use mpy_base::{Items, NoMemory, Refused, SourceFault, Text};
use py_tree::{Param, Stmt};
use std::alloc::Global;

/// The code of a text's own statements.
pub(crate) fn text_code(
    alloc: Global,
    place: &Place,
    scope: Scope,
    body: &[Stmt],
) -> Result<OwnCode, Refused<SourceFault>>
    requires { (plain_block body.now).defs < 2 ^ 32 }
    ensures { (text : TextOf) → IsTextOf place.now scope body.now text → CodesText place.now scope.is_module body.now text result }
{
    let draft = emit_text(alloc, place.level, &scope, body)?;
    own_code(alloc, place, &scope, body, &draft)
}

/// The names of the parameters, in order.
fn names(alloc: Global, params: &[Param]) -> Result<Items<Text>, NoMemory>
    ensures { IfOk result (λ names. names ≡ map (λ (param : ParamOf). param.name) params.now) }
{
    let mut names = Items::new(alloc);
    for param in params {
        names.push(Text::new(alloc, param.name.bytes())?)?;
    }
    Ok(names)
}

/// How many parameters have defaults.
fn default_count(params: &[Param]) -> usize
    ensures number { result ≡ count (defaults_of params.now) }
    ensures few { result ≤ length params.now }
{
    params
        .iter()
        .filter(|param| param.default.is_some())
        .count()
}

/// What a function's code has beside its instructions and its children.
pub(crate) fn head_of(
    alloc: Global,
    name: &[u8],
    params: &[Param],
    n_state: u32,
    n_exc: u32,
) -> Result<CodeHead, NoMemory>
    requires { length params.now ≤ 255 }
    ensures { IfOk result (λ head. IsHeadOf name.now params.now n_state n_exc head) }
{
    let name = Text::new(alloc, name)?;
    let args = names(alloc, params)?;
    Ok(CodeHead {
        name,
        args,
        defaults: default_count(params) as u32,
        n_state,
        n_exc,
    })
}
