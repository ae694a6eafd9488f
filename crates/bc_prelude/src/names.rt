//! Indexes of names.

ghost use Rattle.std.specs.Prelude.{◌≡◌, ◌≢◌, ℕ, ◌+◌, ◌<◌, ◌≤◌, ◌^◌, ◌↔◌, List, ◌++◌, All, length, take, drop, IfOk, IsErrOf, Ok, Err};
ghost use Rattle.mpy_base.specs.Vuint.{Spells, EndsInside, PassesForm};
ghost use Rattle.bc_prelude.specs.Names.{AreNames, NamesEnd, NamesPass, spelling};

use crate::fault::PreludeFault;
use mpy_base::{VuintFault, read_vuint};

/// Reads the index at `at`, of bytes up to `end`, and gives the place behind it.
pub fn read_name_at(code: &[u8], at: usize, end: usize) -> Result<(u32, usize), PreludeFault>
    requires at_in { at ≤ end }
    requires end_in { end ≤ length code.now }
    ensures found { IfOk result (λ found. (text rest : List ℕ) × Spells text found.0
        × (drop at (take end code.now) ≡ text ++ rest) × (found.1 ≡ at + length text)) }
    ensures only { (text rest : List ℕ) (index : ℕ) → Spells text index
        → drop at (take end code.now) ≡ text ++ rest → result ≡ Ok (index, at + length text) }
    ensures truncated { IsErrOf result PreludeFault.Truncated ↔ EndsInside (drop at (take end code.now)) }
    ensures too_big { IsErrOf result PreludeFault.TooBig ↔ PassesForm (drop at (take end code.now)) }
    ensures inside { result ≢ Err PreludeFault.Outside }
{
    match read_vuint(&code[..end], at) {
        Ok(found) => Ok(found),
        Err(VuintFault::Truncated) => Err(PreludeFault::Truncated),
        Err(VuintFault::TooBig) => Err(PreludeFault::TooBig),
    }
}

/// Passes `count` indexes from `at` on, of bytes up to `end`, and gives the place behind them.
pub fn read_names(code: &[u8], at: usize, end: usize, count: u32) -> Result<usize, PreludeFault>
    requires at_in { at ≤ end }
    requires end_in { end ≤ length code.now }
    ensures found { IfOk result (λ behind. (indexes text rest : List ℕ) × AreNames indexes text
        × (length indexes ≡ count) × (drop at (take end code.now) ≡ text ++ rest) × (behind ≡ at + length text)) }
    ensures only { (indexes text rest : List ℕ) → AreNames indexes text → length indexes ≡ count
        → drop at (take end code.now) ≡ text ++ rest → result ≡ Ok (at + length text) }
    ensures truncated { IsErrOf result PreludeFault.Truncated ↔ NamesEnd count (drop at (take end code.now)) }
    ensures too_big { IsErrOf result PreludeFault.TooBig ↔ NamesPass count (drop at (take end code.now)) }
    ensures inside { result ≢ Err PreludeFault.Outside }
{
    let mut behind = at;
    for _ in 0..count {
        let (_, next) = read_name_at(code, behind, end)?;
        behind = next;
    }
    Ok(behind)
}

/// Indexes that are written one after another are names, and as many names in front of bytes are the same ones.
pub fn names_law()
    ensures spells { (indexes : List ℕ) → All (λ index. index < 2 ^ 31) indexes → AreNames indexes (spelling indexes) }
    ensures one_text { (m n a b x y : List ℕ) → AreNames m a → AreNames n b → length m ≡ length n
        → a ++ x ≡ b ++ y → (m ≡ n) × (a ≡ b) }
{}
