//! The compound statements as productions.

ghost use Rattle.py_parser.specs.Clauses.{first_stage};
ghost use Rattle.py_parser.specs.Grammar.{First, first_tree, Suite, Clauses};
ghost use Rattle.py_parser.specs.Productions.{Production, IsProduced, IsCompound};

/// The compound statements of the grammar, whose clauses follow by stages, are the productions.
pub fn productions_law()
    ensures produced { (first : First) (body : Suite) (clauses : Clauses (first_stage (first_tree first))) → IsProduced first body clauses }
    ensures compound { (production : Production) → IsCompound production }
{}
