//! Bytes of which each but the last says that another follows, and numbers in their other bits.

ghost use Rattle.std.specs.Prelude.{◌≡◌, ℕ, ◌+◌, ◌-◌, ◌*◌, ◌<◌, ◌≤◌, ◌^◌, ◌↔◌, List, ◌++◌, length, take, min, IfSome, IsNone};
ghost use Rattle.bc_prelude.specs.Chain.{IsChain, HasNoEnd, number_of};

/// The place behind the first byte that says that no other follows.
pub(crate) fn chain_end(bytes: &[u8]) -> Option<usize>
    ensures found { IfSome result (λ end. (end ≤ length bytes.now) × IsChain (take end bytes.now)) }
    ensures no_end { IsNone result ↔ HasNoEnd bytes.now }
{
    for (i, byte) in bytes.iter().enumerate() {
        if *byte < 128 {
            return Some(i + 1);
        }
    }
    None
}

/// A number and a digit below it, or the greatest number where they pass it.
pub(crate) fn joined(digit: u8, base: u8, high: u64) -> u64
    ensures { result ≡ min (digit + base * high) (2 ^ 64 - 1) }
{
    high.saturating_mul(u64::from(base))
        .saturating_add(u64::from(digit))
}

/// The number of which each byte has a digit, low digits first, or the greatest number where it passes that.
pub(crate) fn number(bytes: &[u8], place: u8, base: u8) -> u64
    requires place { 0 < place }
    requires base { 0 < base }
    ensures { result ≡ min (number_of place base bytes.now) (2 ^ 64 - 1) }
{
    let mut at = bytes.len();
    let mut value = 0;
    while at > 0 {
        at -= 1;
        value = joined(bytes[at] / place % base, base, value);
    }
    value
}
