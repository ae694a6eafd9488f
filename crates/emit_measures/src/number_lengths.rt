//! Sums, in which a number past the greatest one is told as that one.

ghost use Rattle.std.specs.Prelude.{◌≡◌, ℕ, ◌+◌};
ghost use Rattle.emit_measures.specs.Limits.{saturated};

/// The sum, or 2^64 - 1 where it is greater.
pub(crate) fn plus(first: usize, more: usize) -> usize
    ensures { (a : ℕ) → first ≡ saturated a → result ≡ saturated (a + more) }
{
    first.saturating_add(more)
}

/// The sum of three, or 2^64 - 1 where it is greater.
pub(crate) fn both(first: usize, second: usize, more: usize) -> usize
    ensures { (a b : ℕ) → first ≡ saturated a → second ≡ saturated b → result ≡ saturated (a + b + more) }
{
    first.saturating_add(second).saturating_add(more)
}

/// The sum of four, or 2^64 - 1 where it is greater.
pub(crate) fn three(first: usize, second: usize, third: usize, more: usize) -> usize
    ensures { (a b d : ℕ) → first ≡ saturated a → second ≡ saturated b → third ≡ saturated d → result ≡ saturated (a + b + d + more) }
{
    first
        .saturating_add(second)
        .saturating_add(third)
        .saturating_add(more)
}
