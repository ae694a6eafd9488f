//! What is counted of a text, and its own code or its fault.

ghost use Rattle.std.specs.Prelude.{◌≡◌, ◌+◌, ℕ, max, map, true, false, None, IfOk, IfErr};
ghost use Rattle.tr_source.specs.py_meaning.Program.{Text as TextOf};
ghost use Rattle.emit_measures.specs.Lengths.{text_length as length_of_text};
ghost use Rattle.emit_stmt.specs.emit_draft.Draft.{Labels};
ghost use Rattle.emit_stmt.specs.emit_draft.Emits.{line_at};
ghost use Rattle.emit_measures.specs.Limits.{saturated};
ghost use Rattle.emit_measures.specs.Faults.{fault_of};
ghost use Rattle.emit_stmt.specs.emit_draft.Wide.{wide_length as wide_of};
ghost use Rattle.emit_stmt.specs.Parts.{plain_block};
ghost use Rattle.emit_stmt.specs.emit_draft.Finished.{IsFinished};
ghost use Rattle.emit_module.specs.Own.{HasLength, IsTextOf, IsCounted, IsOwn, IsRefused};

use emit_draft::{CodeLines, Draft, Scope, finish, wide_length};
use emit_measures::{Measures, block_entries, block_height, text_length, within_law};
use mpy_base::{NoMemory, Refused, SourceFault, Text};
use py_tree::Stmt;
use std::alloc::Global;

/// Where a text stands.
#[derive(Drop)]
pub struct Place {
    /// The level of its source.
    pub level: u8,
    /// The line of its `def`; 1 for a module's own.
    pub line: u32,
    /// How many functions stand around it, itself among them: 0 for a module's own.
    pub depth: usize,
    /// How many parameters it has.
    pub params: usize,
}

/// The instructions of a text with their lines, and what they need.
#[derive(Drop)]
pub struct OwnCode {
    /// The slots for locals and the stack.
    pub n_state: u32,
    /// The handler entries.
    pub n_exc: u32,
    pub lines: CodeLines,
}

/// The wide length of a draft, and where it is crowded that of its text's tree.
fn length_of(place: &Place, scope: &Scope, body: &[Stmt], draft: &Draft) -> usize
    ensures roomy { draft.now.crowded ≡ false → (labels : Labels) → result ≡ saturated (wide_of (map (line_at labels) draft.now.lines)) }
    ensures full { draft.now.crowded ≡ true → (n : ℕ) → result ≡ saturated (length_of_text scope.now.locals place.now.level ((plain_block body.now).make n)) }
{
    if draft.crowded {
        return text_length(place.level, scope.locals.as_slice(), body);
    }
    wide_length(draft)
}

/// What a text's code is measured by, from its tree and its draft.
fn measures(place: &Place, scope: &Scope, body: &[Stmt], draft: &Draft) -> Measures
    ensures counted { (text : TextOf) → IsTextOf place.now scope.now body.now text → IsCounted place.now draft.now text result }
    ensures crowded { result.crowded ≡ draft.now.crowded }
    ensures length { draft.now.crowded ≡ false → HasLength draft.now.lines result }
{
    Measures {
        length: length_of(place, scope, body, draft),
        locals: scope.locals.len(),
        params: place.params,
        height: block_height(place.level, body),
        entries: block_entries(body),
        depth: place.depth,
        crowded: draft.crowded,
    }
}

/// The slots of a text without a fault.
fn slots(measures: &Measures) -> u32
    requires { fault_of measures.now ≡ None }
    ensures { result ≡ measures.now.locals + max 1 measures.now.height }
{
    (measures.locals + measures.height.max(1)) as u32
}

/// The handler entries of a text without a fault.
fn entries(measures: &Measures) -> u32
    requires { fault_of measures.now ≡ None }
    ensures { result ≡ measures.now.entries }
{
    measures.entries as u32
}

/// The instructions of a text without a fault, of which each has a byte at least.
#[tactic(auto, using(crate::proofs::Few::few_lines))]
fn finished(alloc: Global, measures: &Measures, draft: &Draft) -> Result<CodeLines, NoMemory>
    requires fault { fault_of measures.now ≡ None }
    requires crowded { measures.now.crowded ≡ draft.now.crowded }
    requires length { draft.now.crowded ≡ false → HasLength draft.now.lines measures.now }
    ensures { IfOk result (λ lines. IsFinished draft.now lines) }
{
    finish(alloc, draft)
}

/// The own code of a text, by its draft. The text is refused where it passes a limit. It takes two walks over the
/// statements, and one over the draft.
pub fn own_code(
    alloc: Global,
    place: &Place,
    scope: &Scope,
    body: &[Stmt],
    draft: &Draft,
) -> Result<OwnCode, Refused<SourceFault>>
    ensures lines { IfOk result (λ code. IsFinished draft.now code.lines) }
    ensures within { IfOk result (λ code. (text : TextOf) → IsTextOf place.now scope.now body.now text → IsOwn place.now draft.now text code) }
    ensures refused { IfErr result (λ refused. (text : TextOf) → IsTextOf place.now scope.now body.now text → IsRefused place.now draft.now text refused) }
{
    within_law();
    let measures = measures(place, scope, body, draft);
    if let Some(code) = measures.fault() {
        return Err(Refused::Fault(SourceFault {
            code,
            line: place.line,
            word: Text::empty(alloc),
        }));
    }
    let lines = finished(alloc, &measures, draft)?;
    Ok(OwnCode {
        n_state: slots(&measures),
        n_exc: entries(&measures),
        lines,
    })
}
