//! The names that a source takes from modules.

ghost use Rattle.std.specs.Prelude.{◌≡◌, ℕ, List, true};
ghost use Rattle.py_source.specs.py_tokens.declared.token.Token.{Token};
ghost use Rattle.py_source.specs.py_tokens.Formed.{AreFormed};
ghost use Rattle.py_source.specs.py_tokens.Tokens.{IsTokens};
ghost use Rattle.py_meaning.specs.py_tree.declared.stmt.Module.{Module as Tree};
ghost use Rattle.py_source.specs.py_parser.Grammar.{IsTree};
ghost use Rattle.py_source.specs.declared.source.Accepted.{Accepted as Found};
ghost use Rattle.py_source.specs.Source.{IsAccepted};
ghost use Rattle.tr_source.specs.Names.{tokens_undotted, TakesUndotted};

/// No name among the tokens of a source has a dot, and so none has that its tree takes from a module by `from`.
pub fn undotted_law()
    ensures tokens { (level : ℕ) (source : List ℕ) (list : List Token) → IsTokens level source list → tokens_undotted list ≡ true }
    ensures tree { (list : List Token) (tree : Tree) → AreFormed list → tokens_undotted list ≡ true → IsTree list tree → TakesUndotted tree }
    ensures source { (level : ℕ) (source : List ℕ) (accepted : Found) → IsAccepted level source accepted → TakesUndotted accepted.tree }
{}
