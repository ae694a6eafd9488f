//! Steps that are paid for visits.

ghost use Rattle.std.specs.Prelude.{◌≡◌, ◌<◌, ◌≤◌, ◌+◌, ◌-◌, IfSome, IfNone};

/// How many of `most` steps pay what is still due, if one is left behind them. `due` are the visits up to `paid + most`.
pub(crate) fn steps_before(paid: u64, due: u64, most: u64) -> Option<u64>
    requires some { 0 < most }
    requires due { due ≤ paid + most }
    ensures before { IfSome result (λ before. (before ≡ due - paid) × (before < most)) }
    ensures none { IfNone result (due ≡ paid + most) }
{
    let before = due.saturating_sub(paid);
    if before < most { Some(before) } else { None }
}
