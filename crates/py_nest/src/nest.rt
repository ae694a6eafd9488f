//! How deep tokens nest.

ghost use Rattle.std.specs.Prelude.{◌≡◌, ℕ, ◌↔◌, List, Some, None};
ghost use Rattle.py_tokens.specs.declared.token.Token.{Token};
ghost use Rattle.py_nest.specs.Nest.{Nests, IsTooDeep};

use crate::effect::effect_of;
use crate::levels::Levels;
use py_tokens::Token;

/// How deep tokens may nest.
pub const MAX_NEST: u8 = 200;

/// The line in which tokens nest too deep.
pub fn nest_fault(tokens: &[Token]) -> Option<u32>
    // It is the line of the last token of the shortest front that nests too deep.
    ensures fault { (line : ℕ) → (result ≡ Some line) ↔ IsTooDeep tokens.now line }
    ensures none { (result ≡ None) ↔ Nests tokens.now }
{
    let mut levels = Levels::new();
    for token in tokens {
        levels.step(effect_of(&token.kind));
        if levels.is_too_deep() {
            return Some(token.line);
        }
    }
    None
}

/// Tokens nest too deep in one line at most.
pub fn nest_law()
    ensures { (tokens : List Token) (first second : ℕ) → IsTooDeep tokens first → IsTooDeep tokens second → first ≡ second }
{}
