//! What a formed tree spells.

ghost use Rattle.py_meaning.specs.py_tree.declared.stmt.Module.{Module};
ghost use Rattle.py_meaning.specs.py_tree.Formed.{IsFormed};
ghost use Rattle.emit_measures.specs.bc_scheme.py_meaning.Tree.{functions};
ghost use Rattle.emit_measures.specs.bc_scheme.py_meaning.Plain.{plain_tree};
ghost use Rattle.tr_source.specs.Spelled.{TreeSpelled};

/// In the plain tree of a formed one each name and each str is ASCII, each number is small, and lines never fall in text order, in
/// its own text and in each function.
pub fn spelled_law()
    ensures { (tree : Module) → IsFormed tree → TreeSpelled (plain_tree tree) (functions (plain_tree tree)) }
{}
