//! What is counted of a text.

ghost use Rattle.std.specs.Prelude.{◌≡◌, ℕ, ◌-◌, ◌^◌, min, length, map};
ghost use Rattle.emit_measures.specs.bc_scheme.py_meaning.Plain.{plain_stmt, block};
ghost use Rattle.emit_measures.specs.bc_scheme.py_meaning.Program.{Text};
ghost use Rattle.emit_draft.specs.Draft.{Labels};
ghost use Rattle.emit_draft.specs.Emits.{line_at};
ghost use Rattle.emit_measures.specs.Faults.{IsMeasured};
ghost use Rattle.emit_draft.specs.Wide.{wide_length as wide_all};

use crate::draft::Draft;
use crate::scope::Scope;
use crate::wide::wide_length;
use emit_measures::{Measures, block_entries, block_height};
use py_tree::Stmt;

/// Counts a text, of which this is the draft, in `depth` functions around it.
pub fn measure(
    level: u8,
    scope: &Scope,
    params: usize,
    body: &[Stmt],
    draft: &Draft,
    depth: usize,
) -> Measures
    ensures text { (text : Text) (n : ℕ) → text.level ≡ level → text.locals ≡ scope.now.locals → length text.params ≡ params
        → text.body ≡ (block (map plain_stmt body.now)).make n → IsMeasured text result }
    ensures length { (labels : Labels) → result.length ≡ min (wide_all (map (line_at labels) draft.now.lines)) (2 ^ 64 - 1) }
    ensures depth { result.depth ≡ depth }
    ensures crowded { result.crowded ≡ draft.now.crowded }
{
    Measures {
        length: wide_length(draft),
        locals: scope.locals.len(),
        params,
        height: block_height(level, body),
        entries: block_entries(body),
        depth,
        crowded: draft.crowded,
    }
}
