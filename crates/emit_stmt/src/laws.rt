//! The functions of a text, by their numbers and as children.

ghost use Rattle.std.specs.Prelude.{◌≡◌, ℕ, ◌+◌, List, map, Some, slice_get};
ghost use Rattle.emit_expr.specs.py_meaning.Tree.{Block};
ghost use Rattle.emit_expr.specs.bc_scheme.Context.{Context, IsChild};
ghost use Rattle.emit_expr.specs.bc_scheme.Translation.{own as own_numbers};
ghost use Rattle.emit_stmt.specs.Children.{Made, number_of, made, AreChildren};

/// The functions that a block's code asks for are those of its own numbers. They are a code's children where these have
/// those numbers behind the source's base, and each is the code of its function.
pub fn children_law()
    ensures numbers { (block : Block) → own_numbers block ≡ map number_of (made block) }
    ensures children { (code : Context) (functions : List Made) → code.children ≡ map (λ function. code.base + function.number) functions
        → ((i : ℕ) (function : Made) → slice_get functions i ≡ Some function → IsChild code (code.base + function.number) function.name function.given)
        → AreChildren code 0 functions }
{}
