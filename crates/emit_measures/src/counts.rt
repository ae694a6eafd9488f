//! What the instructions of a text come to: their bytes, and the locals that they name.

ghost use Rattle.std.specs.Prelude.{◌≡◌, ℕ, length};
ghost use Rattle.py_tree.specs.declared.stmt.Module.{Module};
ghost use Rattle.py_tree.specs.Formed.{IsFormed};
ghost use Rattle.bc_scheme.specs.py_scopes.Scopes.{slots_of, IsFaultless};
ghost use Rattle.bc_scheme.specs.py_meaning.Plain.{plain_tree};
ghost use Rattle.bc_scheme.specs.py_meaning.Program.{Source, Text, source_texts};
ghost use Rattle.bc_scheme.specs.Context.{Context};
ghost use Rattle.emit_measures.specs.Lengths.{text_length};
ghost use Rattle.emit_measures.specs.Named.{locals_in, HasOwnLocals, AllHaveOwnLocals, TakesUndotted};
ghost use Rattle.emit_measures.specs.Stands.{IsCodeOf};
ghost use Rattle.emit_measures.specs.Wide.{wide_length};

use bc_scheme::{params_law, slots_law};

/// In a faultless tree each local of a function is a parameter or is bound by the function itself.
pub fn own_locals_law()
    ensures { (tree : Module) → IsFormed tree → IsFaultless tree → (source : Source) (base : ℕ) → source.body ≡ plain_tree tree → source.locals ≡ slots_of tree
        → AllHaveOwnLocals (source_texts source.file source base) }
{
    slots_law();
    params_law();
}

/// The instructions of a text name each local that is no parameter, and no others.
pub fn locals_law()
    ensures { (c : Context) (text : Text) → IsCodeOf c text → HasOwnLocals text → TakesUndotted text.body
        → locals_in (length text.params) c.lines ≡ length text.locals }
{}

/// The wide length of a text's code is counted on its tree.
pub fn lengths_law()
    ensures { (c : Context) (text : Text) → IsCodeOf c text → wide_length c.lines ≡ text_length text.locals text.level text.body }
{}
