//! The names that the texts of a source take from modules.

ghost use Rattle.std.specs.Prelude.{◌≡◌, ℕ};
ghost use Rattle.py_meaning.specs.py_tree.declared.stmt.Module.{Module};
ghost use Rattle.emit_measures.specs.bc_scheme.py_meaning.Plain.{plain_tree};
ghost use Rattle.emit_measures.specs.bc_scheme.py_meaning.Program.{Source, source_texts};
ghost use Rattle.tr_source.specs.Names.{TakesUndotted};
ghost use Rattle.tr_source.specs.Texts.{AllTakeUndotted};

/// Where no name that a tree takes by `from` has a dot, none has that a text of its source takes.
pub fn texts_law()
    ensures { (tree : Module) → TakesUndotted tree → (source : Source) (base : ℕ) → source.body ≡ plain_tree tree
        → AllTakeUndotted (source_texts source.file source base) }
{}
