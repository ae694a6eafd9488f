//! The code of a text is its translation.

ghost use Rattle.std.specs.Prelude.{◌≡◌, ℕ, List, Some, slice_get};
ghost use Rattle.mpy_base.specs.declared.source.SourceFault.{SourceFault};
ghost use Rattle.mpy_writer.specs.mpy_tree.declared.module.ModuleCode.{ModuleCode};
ghost use Rattle.mpy_writer.specs.mpy_tree.Resolved.{ResolvedModule};
ghost use Rattle.tr_source.specs.py_meaning.Tree.{Block, functions};
ghost use Rattle.tr_source.specs.py_meaning.Program.{Source, Text};
ghost use Rattle.tr_source.specs.bc_machine.Library.{Code, code_of as machine_code};
ghost use Rattle.emit_measures.specs.bc_scheme.Translation.{own, StandsCode};
ghost use Rattle.emit_stmt.specs.emit_draft.declared.draft.Draft.{Draft};
ghost use Rattle.emit_stmt.specs.emit_draft.declared.scope.Scope.{Scope};
ghost use Rattle.emit_stmt.specs.emit_draft.declared.codes.CodeHead.{CodeHead};
ghost use Rattle.emit_stmt.specs.emit_draft.declared.codes.CodeLines.{CodeLines};
ghost use Rattle.emit_stmt.specs.emit_draft.Finished.{body_of};
ghost use Rattle.emit_stmt.specs.emit_draft.Children.{starts, sizes};
ghost use Rattle.emit_stmt.specs.Children.{Made, made};
ghost use Rattle.emit_module.specs.First.{AreWithin, IsFirstFault};
ghost use Rattle.emit_module.specs.Found.{IsDefined, AllBegin};
ghost use Rattle.emit_module.specs.Module.{IsResolved};
ghost use Rattle.emit_module.specs.Own.{IsWritten, IsJoined};

use emit_draft::tree_law;
use emit_stmt::children_law;

/// The finished code of a text's draft stands for the text among all codes of its module, where its children are the
/// codes of the text's own functions.
pub fn stands_law()
    ensures { (codes : List Code) (text : Text) (draft : Draft) (scope : Scope) (head : CodeHead) (lines : CodeLines) (children : List ℕ)
        → IsWritten text draft scope head lines
        → IsJoined codes text (machine_code (body_of head lines) children)
        → StandsCode codes scope.is_module text (machine_code (body_of head lines) children) }
{
    children_law();
    tree_law();
}

/// A function that a text defines itself stands by its number among all functions of the text, and behind each function
/// stand first those in it.
pub fn functions_law()
    ensures own { (n : ℕ) (text : Block) → own text ≡ starts n (sizes text) → (i : ℕ) (function : Made)
        → slice_get (made text) i ≡ Some function → IsDefined (functions text) n function }
    ensures inner { (text : Block) → AllBegin (functions text) }
{
    children_law();
}

/// A module resolves to one tree.
pub fn resolved_law()
    ensures { (whole : ModuleCode) (m n : ResolvedModule) → IsResolved whole m → IsResolved whole n → m ≡ n }
{}

/// A source has one first fault at most, and none where no text of it passes a limit.
pub fn faults_law()
    ensures one { (source : Source) (f g : SourceFault) → IsFirstFault source f → IsFirstFault source g → f ≡ g }
    ensures not_both { (source : Source) (fault : SourceFault) → AreWithin source → IsFirstFault source fault → ⊥ }
{}
