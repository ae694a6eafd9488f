//! Which locals the code of a text names.

ghost use Rattle.std.specs.Prelude.{ℕ, List};
ghost use Rattle.tr_source.specs.py_meaning.Program.{Text};
ghost use Rattle.tr_source.specs.bc_machine.Library.{Code, code_of as machine_code};
ghost use Rattle.emit_measures.specs.Named.{HasOwnLocals, TakesUndotted};
ghost use Rattle.emit_stmt.specs.emit_draft.declared.draft.Draft.{Draft};
ghost use Rattle.emit_stmt.specs.emit_draft.declared.scope.Scope.{Scope};
ghost use Rattle.emit_stmt.specs.emit_draft.declared.codes.CodeHead.{CodeHead};
ghost use Rattle.emit_stmt.specs.emit_draft.declared.codes.CodeLines.{CodeLines};
ghost use Rattle.emit_stmt.specs.emit_draft.Finished.{body_of};
ghost use Rattle.emit_module.specs.Own.{IsWritten, IsJoined};
ghost use Rattle.emit_module.specs.Joined.{HasChildren};

use emit_draft::tree_law;
use emit_measures::locals_law;
use emit_stmt::children_law;

/// The finished code of a text's draft names all locals of the text, where these are its parameters and names that it
/// binds itself, and its children are the codes of the text's own functions.
pub fn joined_law()
    ensures { (codes : List Code) (text : Text) (draft : Draft) (scope : Scope) (head : CodeHead) (lines : CodeLines) (children : List ℕ)
        → IsWritten text draft scope head lines
        → HasOwnLocals text → TakesUndotted text.body → HasChildren codes text (machine_code (body_of head lines) children)
        → IsJoined codes text (machine_code (body_of head lines) children) }
{
    children_law();
    tree_law();
    locals_law();
}
