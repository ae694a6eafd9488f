//! Numbers.

ghost use Rattle.std.specs.Prelude.{◌≡◌, ℕ, ◌<◌, ◌≤◌, ◌↔◌, pos, List, ◌++◌, All, IsTrue, length, take, slice_index, min, Ok};
ghost use Rattle.std.specs.Prelude.{IfOk, Err, IfSome, IsSome, IsErrOf, MatchOption};
ghost use Rattle.py_tokens.specs.Digits.{IsDigits, value_of};
ghost use Rattle.py_tokens.specs.Number.{IsRunPart, IsRun, HasPrefix, LooksFloat, LooksComplex, IsZeros, IsDecimal, Spells};
ghost use Rattle.py_tokens.specs.Number.{IsNumber, IsBadToken, IsFloat, IsComplex, IsTooBig, Says};

use crate::digits::{TOO_BIG, value_of_digits};

/// Why a run is no number of this language.
#[derive(Clone, Copy, Debug, PartialEq, Eq)]
pub enum NumberFault {
    /// No number can be read so.
    BadToken,
    Float,
    Complex,
    /// A number past the small integers.
    TooBig,
}

/// How many letters, digits, underscores and dots stand in front.
fn run_len(bytes: &[u8]) -> usize
    ensures within { result ≤ length bytes.now }
    ensures all { All IsRunPart (take result bytes.now) }
    ensures ends { result < length bytes.now → ¬ IsRunPart (slice_index bytes.now result) }
{
    for (i, byte) in bytes.iter().enumerate() {
        if !byte.is_ascii_alphanumeric() && *byte != b'_' && *byte != b'.' {
            return i;
        }
    }
    bytes.len()
}

/// The length of the run in front that is read as a number, and 0 where there is none.
pub fn number_len(bytes: &[u8]) -> usize
    ensures within { result ≤ length bytes.now }
    ensures run { 0 < result → IsRun (take result bytes.now) }

    // No run in front is longer, so that 0 says that there is none.
    ensures longest { (text rest : List ℕ) → IsRun text → bytes.now ≡ text ++ rest
        → length text ≤ result }
    ensures ends { 0 < result → result < length bytes.now
        → ¬ IsRunPart (slice_index bytes.now result) }
{
    match bytes {
        [b'0'..=b'9', ..] | [b'.', b'0'..=b'9', ..] => run_len(bytes),
        _ => 0,
    }
}

/// The base that a letter behind a zero gives, and what follows the letter.
fn prefixed(run: &[u8]) -> Option<(u64, &[u8])>
    ensures { MatchOption result ((base : ℕ) (digits : List ℕ) → ¬ HasPrefix run.now base digits)
        (λ found. HasPrefix run.now found.0 found.1.now) }
{
    match run {
        [b'0', b'x' | b'X', digits @ ..] => Some((16, digits)),
        [b'0', b'o' | b'O', digits @ ..] => Some((8, digits)),
        [b'0', b'b' | b'B', digits @ ..] => Some((2, digits)),
        _ => None,
    }
}

/// Has it a dot or an `e`, as floats have?
fn looks_float(run: &[u8]) -> bool
    ensures { IsTrue result ↔ LooksFloat run.now }
{
    run.contains(&b'.') || run.contains(&b'e') || run.contains(&b'E')
}

/// Does it end in a `j`, as imaginary numbers do?
fn looks_complex(run: &[u8]) -> bool
    ensures { IsTrue result ↔ LooksComplex run.now }
{
    matches!(run, [.., b'j' | b'J'])
}

/// Whether no digit is other than 0, and so a zero may stand first.
fn is_zeros(run: &[u8]) -> bool
    ensures { IsTrue result ↔ IsZeros run.now }
{
    run.iter().all(|byte| *byte == b'0' || *byte == b'_')
}

/// The value of decimal digits. One that is too big is given as the least such.
fn decimal(run: &[u8]) -> Option<u64>
    ensures decimal { IsSome result ↔ IsDecimal run.now }
    ensures value { IfSome result (λ value. value ≡ min (value_of 10 run.now) TOO_BIG) }
{
    match run {
        [b'0', ..] if !is_zeros(run) => None,
        _ => value_of_digits(run, 10),
    }
}

/// The number of a value, where there is one and it is small.
fn small(value: Option<u64>) -> Result<i32, NumberFault>
    ensures { MatchOption value (result ≡ Err NumberFault.BadToken)
        (λ n. (n < TOO_BIG → result ≡ Ok (pos n)) × (TOO_BIG ≤ n → result ≡ Err NumberFault.TooBig)) }
{
    match value {
        Some(n) if n < TOO_BIG => Ok(n as i32),
        Some(_) => Err(NumberFault::TooBig),
        None => Err(NumberFault::BadToken),
    }
}

/// The number that a run of letters, digits and `_` is, or why it is none.
pub(crate) fn read_number(run: &[u8]) -> Result<i32, NumberFault>
    ensures { Says run.now result }
{
    if let Some((base, digits)) = prefixed(run) {
        small(value_of_digits(digits, base))
    } else if looks_float(run) {
        Err(NumberFault::Float)
    } else if looks_complex(run) {
        Err(NumberFault::Complex)
    } else {
        small(decimal(run))
    }
}

/// The number that a run is.
pub fn number_of(run: &[u8]) -> Result<i32, NumberFault>
    requires { IsRun run.now }
    ensures found { IfOk result (λ number. (n : ℕ) × (number ≡ pos n) × IsNumber run.now n) }
    ensures only { (n : ℕ) → IsNumber run.now n → result ≡ Ok (pos n) }

    ensures bad_token { IsErrOf result NumberFault.BadToken ↔ IsBadToken run.now }
    ensures float { IsErrOf result NumberFault.Float ↔ IsFloat run.now }
    ensures complex { IsErrOf result NumberFault.Complex ↔ IsComplex run.now }
    ensures too_big { IsErrOf result NumberFault.TooBig ↔ IsTooBig run.now }
{
    read_number(run)
}

/// A run spells one number at most.
pub fn number_law()
    ensures { (run : List ℕ) (m n : ℕ) → Spells run m → Spells run n → m ≡ n }
{}
