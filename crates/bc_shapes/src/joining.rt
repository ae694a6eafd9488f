//! Slots that meet others in their places.

ghost use Rattle.std.specs.Prelude.{◌≡◌, ◌<◌, ◌≤◌, ◌||◌, not, IfSome, IfNone, OnSome, None, Bool, List, ℕ, length, slice_index_or};
ghost use Rattle.std.specs.Bool.{OnTrue};
ghost use Rattle.bc_shapes.specs.Shape as specs;
ghost use Rattle.bc_shapes.specs.Joins.{JoinsAt, Joins};
ghost use Rattle.bc_shapes.specs.Partly.{Partly};
ghost use Rattle.bc_shapes.specs.Spans.{SameOutside, BelowOutside};
ghost use Rattle.bc_shapes.specs.declared.kinds.Kind.{Kind as SpecKind};
ghost use Rattle.bc_shapes.specs.declared.kinds.Kind.TheVariants.{Either};
ghost use Rattle.bc_shapes.specs.Views.{gives_of, slots_of_rust};

use crate::kinds::Kind;
use crate::slots::{Slots, below};
use crate::span::{Span, note, places};

/// How many slots are compared at a time.
const RUN: usize = 64;

/// The kind of a slot where two kinds meet.
fn join_kind(one: Kind, other: Kind) -> Option<Kind>
    ensures { result ≡ specs.join_kind one other }
{
    match one {
        Kind::Value => match other {
            Kind::Value | Kind::Either => Some(Kind::Value),
            _ => None,
        },
        Kind::Cause => match other {
            Kind::Cause | Kind::Either => Some(Kind::Cause),
            _ => None,
        },
        Kind::Either => match other {
            Kind::Value | Kind::Cause | Kind::Either => Some(other),
            _ => None,
        },
        Kind::Iter1 => only(other, matches!(other, Kind::Iter1)),
        Kind::Iter2 => only(other, matches!(other, Kind::Iter2)),
        Kind::Iter3 => only(other, matches!(other, Kind::Iter3)),
        Kind::Iter4 => only(other, matches!(other, Kind::Iter4)),
        Kind::Null => only(other, matches!(other, Kind::Null)),
        Kind::Method => only(other, matches!(other, Kind::Method)),
    }
}

/// The kind where the condition holds, and else none.
fn only(kind: Kind, same: bool) -> Option<Kind>
    ensures { result ≡ specs.only kind same }
{
    if same { Some(kind) } else { None }
}

/// May the slot still become a value or a cause?
fn is_open(kind: Kind) -> bool
    ensures { result ≡ specs.is_either kind }
{
    matches!(kind, Kind::Either)
}

/// Is the slot the same where it has met another kind?
fn stays(old: Kind, new: Kind) -> bool
    ensures { result ≡ (specs.is_either new || not (specs.is_either old)) }
{
    is_open(new) || !is_open(old)
}

/// Joins a slot with a kind that arrives, if they meet, and says whether it changed.
#[tactic(auto, using(crate::proofs::InPlace::slot_kept, crate::proofs::InPlace::slot_none))]
fn join_slot(slots: &mut Vec<Kind>, i: usize, kind: Kind) -> Option<bool>
    requires { i < length slots.now.items }
    ensures some { IfSome result (λ changed. JoinsAt slots.old.items i kind slots.new.items changed) }
    ensures none { IfNone result (specs.join_kind (slice_index_or slots.old.items i Either) kind ≡ None) }
{
    let old = slots[i];
    if old == kind {
        return Some(false);
    }
    let new = join_kind(old, kind)?;
    if stays(old, new) {
        return Some(false);
    }
    slots[i] = new;
    Some(true)
}

/// Whether one of the two holds.
fn either(a: bool, b: bool) -> bool
    ensures { result ≡ (a || b) }
{
    a | b
}

/// Joins the slots from one place up to another with those that arrive, if they meet, and says whether any changed.
fn join_run(
    slots: &mut Vec<Kind>,
    arriving: Slots,
    from: usize,
    to: usize,
    span: &mut Span,
) -> Option<bool>
    requires from { from ≤ to }
    requires within { to ≤ length slots.now.items }
    requires long { length slots.now.items ≡ length (slots_of_rust arriving) }
    ensures some { (ks : List SpecKind) (b : Bool) → Partly ks (slots_of_rust arriving.entry) (λ k. from ≤ k) slots.old.items b
        → IfSome result (λ c. Partly ks (slots_of_rust arriving.entry) (λ k. to ≤ k) slots.new.items (b || c)) }
    ensures none { (ks : List SpecKind) (b : Bool) → Partly ks (slots_of_rust arriving.entry) (λ k. from ≤ k) slots.old.items b
        → IfNone result (specs.join ks (slots_of_rust arriving.entry) ≡ None) }
    ensures len { OnSome result (length slots.new.items ≡ length slots.old.items) }
    ensures same { (ks : List SpecKind) → SameOutside span.old ks slots.old.items
        → IfSome result (λ c. SameOutside span.new ks slots.new.items) }
{
    let mut changed = false;
    for i in from..to {
        let number = slots.len() - 1 - i;
        let closed = join_slot(slots, i, arriving.at(i))?;
        note(span, number, closed);
        changed = either(changed, closed);
    }
    Some(changed)
}

/// Are these the same? All are looked at, which is fast where many are the same.
fn same_kinds(ks: &[Kind], ls: &[Kind]) -> bool
    requires { length ks.now ≡ length ls.now }
    ensures { OnTrue result ((k : ℕ) → k < length ks.now → slice_index_or ks.now k Either ≡ slice_index_or ls.now k Either) }
{
    let mut differ = false;
    for i in 0..ks.len() {
        differ = either(differ, ks[i] != ls[i]);
    }
    !differ
}

/// Joins slots from one place up to another with those that arrive, all of which were found.
fn join_each_found(
    slots: &mut Vec<Kind>,
    arriving: Slots,
    from: usize,
    to: usize,
    span: &mut Span,
) -> Option<bool>
    requires found { length (gives_of arriving.gives) ≤ from }
    requires from { from ≤ to }
    requires within { to ≤ length slots.now.items }
    requires long { length slots.now.items ≡ length (slots_of_rust arriving) }
    ensures some { (ks : List SpecKind) (b : Bool) → Partly ks (slots_of_rust arriving.entry) (λ k. from ≤ k) slots.old.items b
        → IfSome result (λ c. Partly ks (slots_of_rust arriving.entry) (λ k. to ≤ k) slots.new.items (b || c)) }
    ensures none { (ks : List SpecKind) (b : Bool) → Partly ks (slots_of_rust arriving.entry) (λ k. from ≤ k) slots.old.items b
        → IfNone result (specs.join ks (slots_of_rust arriving.entry) ≡ None) }
    ensures len { OnSome result (length slots.new.items ≡ length slots.old.items) }
    ensures same { (ks : List SpecKind) → SameOutside span.old ks slots.old.items
        → IfSome result (λ c. SameOutside span.new ks slots.new.items) }
{
    let mut changed = false;
    for i in from..to {
        let number = slots.len() - 1 - i;
        let closed = join_slot(slots, i, arriving.found_at(i))?;
        note(span, number, closed);
        changed = either(changed, closed);
    }
    Some(changed)
}

/// Joins slots that are found with those that arrive, where they aren't the same.
fn join_found(
    slots: &mut Vec<Kind>,
    arriving: Slots,
    from: usize,
    to: usize,
    span: &mut Span,
) -> Option<bool>
    requires found { length (gives_of arriving.gives) ≤ from }
    requires from { from ≤ to }
    requires within { to ≤ length slots.now.items }
    requires long { length slots.now.items ≡ length (slots_of_rust arriving) }
    ensures some { (ks : List SpecKind) (b : Bool) → Partly ks (slots_of_rust arriving.entry) (λ k. from ≤ k) slots.old.items b
        → IfSome result (λ c. Partly ks (slots_of_rust arriving.entry) (λ k. to ≤ k) slots.new.items (b || c)) }
    ensures none { (ks : List SpecKind) (b : Bool) → Partly ks (slots_of_rust arriving.entry) (λ k. from ≤ k) slots.old.items b
        → IfNone result (specs.join ks (slots_of_rust arriving.entry) ≡ None) }
    ensures len { OnSome result (length slots.new.items ≡ length slots.old.items) }
    ensures same { (ks : List SpecKind) → SameOutside span.old ks slots.old.items
        → IfSome result (λ c. SameOutside span.new ks slots.new.items) }
{
    let given = arriving.gives.len();
    let found = below(arriving.found, arriving.taken);
    if same_kinds(&slots[from..to], &found[from - given..to - given]) {
        return Some(false);
    }
    join_each_found(slots, arriving, from, to, span)
}

/// Joins slots that are found with those that arrive, one run after another.
fn join_runs(
    slots: &mut Vec<Kind>,
    arriving: Slots,
    from: usize,
    to: usize,
    span: &mut Span,
) -> Option<bool>
    requires found { length (gives_of arriving.gives) ≤ from }
    requires from { from ≤ to }
    requires within { to ≤ length slots.now.items }
    requires long { length slots.now.items ≡ length (slots_of_rust arriving) }
    ensures some { (ks : List SpecKind) (b : Bool) → Partly ks (slots_of_rust arriving.entry) (λ k. from ≤ k) slots.old.items b
        → IfSome result (λ c. Partly ks (slots_of_rust arriving.entry) (λ k. to ≤ k) slots.new.items (b || c)) }
    ensures none { (ks : List SpecKind) (b : Bool) → Partly ks (slots_of_rust arriving.entry) (λ k. from ≤ k) slots.old.items b
        → IfNone result (specs.join ks (slots_of_rust arriving.entry) ≡ None) }
    ensures len { OnSome result (length slots.new.items ≡ length slots.old.items) }
    ensures same { (ks : List SpecKind) → SameOutside span.old ks slots.old.items
        → IfSome result (λ c. SameOutside span.new ks slots.new.items) }
{
    let mut start = from;
    let mut changed = false;
    while start < to {
        let end = to.min(start + RUN);
        let closed = join_found(slots, arriving, start, end, span)?;
        changed = either(changed, closed);
        start = end;
    }
    Some(changed)
}

/// Joins slots with those that arrive, if they meet, and says whether any changed. Only those of `among` are looked at; those
/// that changed are added to `span`.
pub fn join(
    slots: &mut Vec<Kind>,
    arriving: Slots,
    among: Option<Span>,
    span: &mut Span,
) -> Option<bool>
    requires { BelowOutside among (slots_of_rust arriving) slots.now.items }
    ensures some { IfSome result (Joins slots.old.items (slots_of_rust arriving.entry) slots.new.items) }
    ensures none { IfNone result (specs.join slots.old.items (slots_of_rust arriving.entry) ≡ None) }
    ensures same { IfSome result (λ c. SameOutside span.new slots.old.items slots.new.items) }
{
    let count = arriving.len();
    if slots.len() != count {
        return None;
    }
    let given = arriving.gives.len();
    let places = places(among, count);
    let changed = join_run(slots, arriving, places.from.min(given), given, span)?;
    let from = places.from.max(given);
    let closed = join_runs(slots, arriving, from, places.to.max(from), span)?;
    Some(either(changed, closed))
}
