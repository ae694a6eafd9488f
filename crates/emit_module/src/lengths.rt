//! How long the code of a text is.

ghost use Rattle.std.specs.Prelude.{◌≡◌, ℕ, false, map};
ghost use Rattle.tr_source.specs.py_meaning.Tree.{Block};
ghost use Rattle.tr_source.specs.py_meaning.Plain.{Part};
ghost use Rattle.emit_measures.specs.bc_scheme.Translation.{own};
ghost use Rattle.emit_measures.specs.Lengths.{text_length};
ghost use Rattle.emit_measures.specs.Wide.{wide_length};
ghost use Rattle.emit_stmt.specs.emit_draft.declared.draft.Draft.{Draft};
ghost use Rattle.emit_stmt.specs.emit_draft.declared.scope.Scope.{Scope};
ghost use Rattle.emit_stmt.specs.emit_draft.Draft.{Labels};
ghost use Rattle.emit_stmt.specs.emit_draft.Emits.{line_at};
ghost use Rattle.emit_stmt.specs.emit_draft.Children.{starts, sizes};
ghost use Rattle.emit_stmt.specs.Text.{EmitsText};

use emit_measures::lengths_law;
use emit_stmt::children_law;

/// The draft of a text has the wide length that is counted on the text's tree, where it isn't crowded. The numbers of
/// the text's own functions are those of a formed tree.
pub fn draft_length_law()
    ensures { (draft : Draft) (level : ℕ) (scope : Scope) (text : Part Block) (n first : ℕ) → EmitsText draft level scope text → draft.crowded ≡ false
        → own (text.make n) ≡ starts first (sizes (text.make n)) → (labels : Labels)
        → wide_length (map (line_at labels) draft.lines) ≡ text_length scope.locals level (text.make n) }
{
    children_law();
    lengths_law();
}
