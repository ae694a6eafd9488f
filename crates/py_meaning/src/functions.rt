//! The functions of a source in the words of its tree: their locals, their numbers, and the words that leave them.

ghost use Rattle.std.specs.Prelude.{◌≡◌, ℕ, true, false, List, ◌∷◌, length};
ghost use Rattle.std.specs.List.{list_all};
ghost use Rattle.py_scopes.specs.py_tree.declared.stmt.Module.{Module};
ghost use Rattle.py_scopes.specs.py_tree.Formed.{IsFormed};
ghost use Rattle.py_scopes.specs.Scopes.{slots_of, IsFaultless};
ghost use Rattle.py_scopes.specs.Events.{first_part};
ghost use Rattle.py_meaning.specs.Tree.{Name, functions};
ghost use Rattle.py_meaning.specs.Plain.{plain_tree};
ghost use Rattle.py_meaning.specs.Program.{Source, source_texts};
ghost use Rattle.py_meaning.specs.Globals.{globals_of};
ghost use Rattle.py_meaning.specs.Imported.{parts_of, spelled, is_undotted};
ghost use Rattle.py_meaning.specs.Locals.{locals_of};
ghost use Rattle.py_meaning.specs.Numbers.{AllNumbered};
ghost use Rattle.py_meaning.specs.Params.{AllBeginWithParams, AllHaveSlots};
ghost use Rattle.py_meaning.specs.Words.{WellPlaced};

/// The slots of a formed tree are the locals of its functions, one list for each function in text order.
pub fn slots_law()
    ensures locals { (tree : Module) → IsFormed tree → slots_of tree ≡ locals_of (functions (plain_tree tree)) (globals_of tree) }
    ensures count { (tree : Module) → IsFormed tree → length (slots_of tree) ≡ length (functions (plain_tree tree)) }
    ensures globals { (tree : Module) → IsFormed tree → length (globals_of tree) ≡ length (functions (plain_tree tree)) }
{}

/// In a faultless tree each word that leaves a loop or a function stands in one.
pub fn words_law()
    ensures { (tree : Module) → IsFormed tree → IsFaultless tree → WellPlaced false false (plain_tree tree) }
{}

/// No two functions of a text have the same number, wherever the numbers of its source begin.
pub fn numbers_law()
    ensures { (tree : Module) → IsFormed tree → (source : Source) (base : ℕ) → source.body ≡ plain_tree tree
        → AllNumbered (source_texts source.file source base) }
{}

/// In a faultless tree the first slots of a function are those of its parameters.
pub fn params_law()
    ensures first { (tree : Module) → IsFormed tree → IsFaultless tree → (source : Source) (base : ℕ) → source.body ≡ plain_tree tree
        → source.locals ≡ slots_of tree
        → AllBeginWithParams (source_texts source.file source base) }
    ensures slots { (tree : Module) → IsFormed tree → IsFaultless tree → (source : Source) (base : ℕ) → source.body ≡ plain_tree tree
        → source.locals ≡ slots_of tree
        → AllHaveSlots (source_texts source.file source base) }
{}

/// A dotted name is spelled by its parts, of which the first is the one that an import binds.
pub fn parts_law()
    ensures spelled { (name : Name) → spelled (parts_of name) ≡ name }
    ensures undotted { (name : Name) → list_all is_undotted (parts_of name) ≡ true }
    ensures first { (name : Name) → (others : List Name) × (parts_of name ≡ first_part name ∷ others) }
{}
