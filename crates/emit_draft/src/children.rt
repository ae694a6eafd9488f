//! The numbers of a code's children.

ghost use Rattle.std.specs.Prelude.{◌≡◌, ℕ, suc, ◌+◌, List, map};
ghost use Rattle.py_tree.specs.declared.stmt.Module.{Module};
ghost use Rattle.py_tree.specs.Formed.{IsFormed};
ghost use Rattle.emit_measures.specs.bc_scheme.mpy_tree.declared.module.Code.{Code};
ghost use Rattle.emit_measures.specs.bc_scheme.mpy_tree.Resolved.{Trees, node, IsTreeOf, AreTreesOf};
ghost use Rattle.emit_measures.specs.bc_scheme.bc_machine.Library.{code_of, numbers_from};
ghost use Rattle.emit_measures.specs.bc_scheme.py_meaning.Tree.{Block, functions};
ghost use Rattle.emit_measures.specs.bc_scheme.py_meaning.Plain.{plain_tree};
ghost use Rattle.emit_measures.specs.bc_scheme.Translation.{own};
ghost use Rattle.emit_draft.specs.declared.draft.Draft.{Draft};
ghost use Rattle.emit_draft.specs.Emits.{line_at};
ghost use Rattle.emit_draft.specs.declared.codes.CodeHead.{CodeHead};
ghost use Rattle.emit_draft.specs.declared.codes.CodeLines.{CodeLines};
ghost use Rattle.emit_draft.specs.Finished.{IsFinished, IsCodeOf, body_of};
ghost use Rattle.emit_draft.specs.Children.{starts, sizes, AllCount, tree_sizes};

/// The functions of a formed tree have the numbers from 1 on in text order, each in front of those in it: those that a
/// text defines itself begin one behind another.
pub fn numbers_law()
    ensures outer { (tree : Module) → IsFormed tree → own (plain_tree tree) ≡ starts 1 (sizes (plain_tree tree)) }
    ensures functions { (tree : Module) → IsFormed tree → AllCount 1 (functions (plain_tree tree)) }
{}

/// A code of a finished draft with its children. The machine reads its lines as the draft's, and numbers the children
/// as their functions where each has as many codes as its function.
pub fn tree_law()
    ensures tree { (draft : Draft) (head : CodeHead) (made : CodeLines) (inner : List Code) (code : Code) (trees : Trees)
        → IsFinished draft made → IsCodeOf head made inner code
        → AreTreesOf trees inner → IsTreeOf (node (body_of head made) trees) code }
    ensures lines { (draft : Draft) (head : CodeHead) (made : CodeLines) (children : List ℕ) → IsFinished draft made
        → (code_of (body_of head made) children).lines ≡ map (line_at draft.labels.items) draft.lines }
    ensures children { (n : ℕ) (b : Block) (trees : Trees) → own b ≡ starts (suc n) (sizes b) → tree_sizes trees ≡ sizes b
        → numbers_from (suc n) trees ≡ map (λ m. 0 + m) (own b) }
{}
