//! Numbers of the file format: seven bits a byte, the most significant group first.

ghost use Rattle.std.specs.Prelude.{◌≡◌, ℕ, ◌+◌, ◌<◌, ◌≤◌, ◌^◌, ◌↔◌, List, ◌++◌, length, drop, IfOk, OnOk, OnErr, IsErrOf, Ok};
ghost use Rattle.mpy_base.specs.Vuint.{Spells, EndsInside, PassesForm, vuint};

use crate::NoMemory;
use thiserror::Error;

/// Why no number could be read.
#[derive(Clone, Copy, Debug, PartialEq, Eq, Error)]
pub enum VuintFault {
    /// The bytes end inside the number.
    #[error("the bytes end inside a number")]
    Truncated,
    /// The number has a sixth byte, or reaches 2^31.
    #[error("a number is too big")]
    TooBig,
}

/// The bytes of a number at most.
const MAX_BYTES: usize = 5;

/// The first number that is too big.
const LIMIT: u64 = 1 << 31;

/// Reads the number in front, and gives how many bytes it takes.
fn read_front(bytes: &[u8]) -> Result<(u32, usize), VuintFault>
    ensures found { IfOk result (λ found. (text rest : List ℕ) × Spells text found.0
        × (bytes.now ≡ text ++ rest) × (found.1 ≡ length text)) }
    ensures only { (text rest : List ℕ) (n : ℕ) → Spells text n
        → bytes.now ≡ text ++ rest → result ≡ Ok (n, length text) }
    ensures truncated { IsErrOf result VuintFault.Truncated ↔ EndsInside bytes.now }
    ensures too_big { IsErrOf result VuintFault.TooBig ↔ PassesForm bytes.now }
{
    let mut value = 0u64;
    for (i, byte) in bytes.iter().enumerate() {
        if i == MAX_BYTES {
            return Err(VuintFault::TooBig);
        }
        value = 128 * value + u64::from(*byte % 128);
        if *byte < 128 {
            return if value < LIMIT {
                Ok((value as u32, i + 1))
            } else {
                Err(VuintFault::TooBig)
            };
        }
    }
    if bytes.len() < MAX_BYTES {
        Err(VuintFault::Truncated)
    } else {
        Err(VuintFault::TooBig)
    }
}

/// Reads the number at `at`, and gives the place behind it.
pub fn read_vuint(bytes: &[u8], at: usize) -> Result<(u32, usize), VuintFault>
    requires { at ≤ length bytes.now }

    // What is read is spelled there, and what is spelled there is read, whatever follows it.
    ensures found { IfOk result (λ found. (text rest : List ℕ) × Spells text found.0
        × (drop at bytes.now ≡ text ++ rest) × (found.1 ≡ at + length text)) }
    ensures only { (text rest : List ℕ) (n : ℕ) → Spells text n
        → drop at bytes.now ≡ text ++ rest → result ≡ Ok (n, at + length text) }

    ensures truncated { IsErrOf result VuintFault.Truncated ↔ EndsInside (drop at bytes.now) }
    ensures too_big { IsErrOf result VuintFault.TooBig ↔ PassesForm (drop at bytes.now) }
{
    let (_, rest) = bytes.split_at(at);
    match read_front(rest) {
        Ok((n, len)) => Ok((n, at + len)),
        Err(fault) => Err(fault),
    }
}

/// Adds the shortest spelling of the number. An `Err` leaves `out` as it was.
pub fn write_vuint(out: &mut Vec<u8>, n: u32) -> Result<(), NoMemory>
    requires { n < 2 ^ 31 }
    ensures ok { OnOk result (out.new.items ≡ out.old.items ++ vuint n) }
    ensures err { OnErr result (out.new.items ≡ out.old.items) }
{
    if n < 128 {
        out.push(n as u8)?;
        return Ok(());
    }
    let mut groups = [0u8; MAX_BYTES];
    let mut first = MAX_BYTES - 1;
    groups[first] = (n % 128) as u8;
    let mut high = n / 128;
    while high > 0 {
        first -= 1;
        groups[first] = 128 + (high % 128) as u8;
        high /= 128;
    }
    out.extend_from_slice(&groups[first..])?;
    Ok(())
}

/// What is written is a spelling, and the shortest; and bytes begin with one number at most.
pub fn vuint_law()
    ensures spells { (n : ℕ) → n < 2 ^ 31 → Spells (vuint n) n }
    ensures shortest { (text : List ℕ) (n : ℕ) → Spells text n → length (vuint n) ≤ length text }
    ensures one_number { (a b x y : List ℕ) (m n : ℕ) → Spells a m → Spells b n
        → a ++ x ≡ b ++ y → (a ≡ b) × (m ≡ n) }
{}
