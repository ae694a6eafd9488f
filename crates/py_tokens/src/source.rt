//! The tokens of a source.

ghost use Rattle.std.specs.Prelude.{◌≡◌, ◌⊎◌, ◌+◌, ℕ, ◌≤◌, ◌<◌, List, [], ◌∷◌, ◌++◌, length, Err, IfOk, MatchResult};
ghost use Rattle.mpy_base.specs.declared.limits.TheConstants.{MAX_SOURCE_BYTES};
ghost use Rattle.mpy_base.specs.declared.refused.Refused.TheVariants as refused;
ghost use Rattle.mpy_base.specs.declared.source.SourceFault.{SourceFault};
ghost use Rattle.py_tokens.specs.declared.token.Tok.TheVariants as toks;
ghost use Rattle.py_tokens.specs.declared.token.Token.{Token};
ghost use Rattle.py_tokens.specs.declared.lexeme.LexemeFault.{LexemeFault};
ghost use Rattle.py_tokens.specs.Formed.{AreFormed};
ghost use Rattle.py_tokens.specs.Going.{fault_from};
ghost use Rattle.py_tokens.specs.Lines.{Place, empty_token};
ghost use Rattle.py_tokens.specs.Tokens.{IsTokens, IsFirstFault, Says};

use crate::lexeme::{LexemeFault, lexeme_at};
use crate::lines::{Lines, count_line_ends};
use crate::token::Token;
use mpy_base::limits::MAX_SOURCE_BYTES;
use mpy_base::{Refused, SourceFault};
use std::alloc::Global;

/// The fault as one of the source, of which these bytes are left from that line on.
fn placed(fault: LexemeFault, rest: &[u8], line: u32) -> SourceFault
    requires within { fault.at ≤ length rest.now }
    requires short { length rest.now ≤ MAX_SOURCE_BYTES }
    requires early { line ≤ MAX_SOURCE_BYTES + 1 }
    ensures { result ≡ fault_from line rest.now fault }
{
    let LexemeFault { code, at, word } = fault;
    let line = line + count_line_ends(&rest[..at]);
    SourceFault { code, line, word }
}

/// The bytes of a source that usually give a token, for which room is made.
const BYTES_A_TOKEN: usize = 4;

fn read(alloc: Global, source: &[u8], opt: u8) -> Result<Vec<Token>, Refused<SourceFault>>
    requires level { opt ≤ 3 }
    requires short { length source.now ≤ MAX_SOURCE_BYTES }
    ensures { Says opt source.now result }
{
    let mut lines = Lines::new(alloc, source.len() / BYTES_A_TOKEN)?;
    let mut rest = source;
    while !rest.is_empty() {
        match lexeme_at(alloc, rest, opt) {
            Ok((lexeme, len)) => {
                let (text, behind) = rest.split_at(len);
                lines.add(lexeme, text)?;
                rest = behind;
            }
            Err(Refused::Fault(fault)) => {
                let fault = placed(fault, rest, lines.line);
                return Err(Refused::Fault(lines.fault(fault)));
            }
            Err(Refused::NoMemory) => return Err(Refused::NoMemory),
        }
    }
    Ok(lines.finish()?)
}

/// The tokens of a source at a level of optimization, up to its end.
pub fn tokens(alloc: Global, source: &[u8], opt: u8) -> Result<Vec<Token>, Refused<SourceFault>>
    requires { opt ≤ 3 }

    // What is answered are the source's tokens, and they are answered where there are any, unless memory isn't found.
    ensures found { IfOk result (λ tokens. IsTokens opt source.now tokens.items) }
    ensures only { (list : List Token) → IsTokens opt source.now list
        → MatchResult result (λ tokens. tokens.items ≡ list) (λ error. error ≡ refused.NoMemory) }

    ensures fault { (fault : SourceFault) → result ≡ Err (refused.Fault fault) → IsFirstFault opt source.now fault }
    ensures fault_only { (fault : SourceFault) → IsFirstFault opt source.now fault
        → (result ≡ Err (refused.Fault fault)) ⊎ (result ≡ Err refused.NoMemory) }
{
    if source.len() > MAX_SOURCE_BYTES {
        return Err(Refused::Fault(SourceFault::too_long(alloc)));
    }
    read(alloc, source, opt)
}

/// A source has one list of tokens or one first fault, and never both.
pub fn tokens_law()
    ensures one_list { (opt : ℕ) (source : List ℕ) (first second : List Token)
        → IsTokens opt source first → IsTokens opt source second → first ≡ second }
    ensures one_fault { (opt : ℕ) (source : List ℕ) (first second : SourceFault)
        → IsFirstFault opt source first → IsFirstFault opt source second → first ≡ second }
    ensures apart { (opt : ℕ) (source : List ℕ) (list : List Token) (fault : SourceFault)
        → IsTokens opt source list → ¬ IsFirstFault opt source fault }
    ensures always { (opt : ℕ) (source : List ℕ)
        → ((list : List Token) × IsTokens opt source list) ⊎ ((fault : SourceFault) × IsFirstFault opt source fault) }

    // The tokens of a source are formed, and an End is the last of them.
    ensures formed { (opt : ℕ) (source : List ℕ) (list : List Token) → IsTokens opt source list → AreFormed list }
    ensures ends { (opt : ℕ) (source : List ℕ) (list : List Token) → IsTokens opt source list
        → (front : List Token) × (place : Place) × (list ≡ front ++ empty_token toks.End place ∷ []) }
{}
