//! Slots by their numbers from the bottom.

ghost use Rattle.std.specs.Prelude.{ℕ, ◌+◌, ◌-◌, ◌^◌, ◌<◌, ◌≤◌, suc};
ghost use Rattle.std.specs.Bool.{OnTrue};
ghost use Rattle.bc_shapes.specs.Spans.{In, Among};

/// Slots by their numbers from the bottom, from one up to another.
#[derive(Clone, Copy, Debug)]
pub struct Span {
    pub from: usize,
    pub to: usize,
}

/// A span that has the slots of both.
#[inline(always)]
pub fn union(a: Span, b: Span) -> Span
    ensures one { (n : ℕ) → In a n → In result n }
    ensures other { (n : ℕ) → In b n → In result n }
{
    if a.from >= a.to {
        return b;
    }
    if b.from >= b.to {
        return a;
    }
    Span {
        from: a.from.min(b.from),
        to: a.to.max(b.to),
    }
}

/// Adds a slot to those that changed, if it did.
pub(crate) fn note(span: &mut Span, n: usize, changed: bool)
    requires { n + 1 < 2 ^ 64 }
    ensures old { (m : ℕ) → In span.old m → In span.new m }
    ensures new { OnTrue changed (In span.new n) }
{
    if changed {
        *span = union(*span, Span { from: n, to: n + 1 });
    }
}

/// The places of the slots from the top, where there are `count` slots.
pub(crate) fn places(among: Option<Span>, count: usize) -> Span
    ensures from { result.from ≤ count }
    ensures to { result.to ≤ count }
    ensures before { (k : ℕ) → k < result.from → Among among (count - suc k) → ⊥ }
    ensures after { (k : ℕ) → result.to ≤ k → k < count → Among among (count - suc k) → ⊥ }
{
    match among {
        None => Span { from: 0, to: count },
        Some(span) => Span {
            from: count - span.to.min(count),
            to: count - span.from.min(count),
        },
    }
}
