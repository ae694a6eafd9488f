//! The slots that are asked, and those that arrive.

ghost use Rattle.std.specs.Prelude.{◌≡◌, ◌&&◌, drop};
ghost use Rattle.bc_shapes.specs.Shape as specs;
ghost use Rattle.bc_shapes.specs.Spans as spans;
ghost use Rattle.bc_shapes.specs.Spans.{FitsBut};
ghost use Rattle.bc_shapes.specs.Views.{takes_of, gives_of};

use crate::kinds::{Give, Gives, Kind, Takes, Want};
use crate::span::{Span, places};
use mpy_base::NoMemory;
use std::alloc::Global;

/// Does a slot of the kind serve what is asked?
fn stands(want: Want, kind: Kind) -> bool
    ensures { result ≡ specs.stands want kind }
{
    match want {
        Want::Value => matches!(kind, Kind::Value | Kind::Either),
        Want::Cause => matches!(kind, Kind::Cause | Kind::Either),
        Want::Top => !matches!(kind, Kind::Cause | Kind::Null | Kind::Method),
        Want::ValueOrNull => matches!(kind, Kind::Value | Kind::Either | Kind::Null),
        Want::Iter1 => matches!(kind, Kind::Iter1),
        Want::Iter2 => matches!(kind, Kind::Iter2),
        Want::Iter3 => matches!(kind, Kind::Iter3),
        Want::Iter4 => matches!(kind, Kind::Iter4),
        Want::Null => matches!(kind, Kind::Null),
        Want::Method => matches!(kind, Kind::Method),
    }
}

/// Do the slots that are asked lie on top?
#[tactic(auto, using(crate::proofs::Loops::fits_step, crate::proofs::Loops::fits_short, crate::proofs::Loops::and_first))]
fn fit(wants: &[Want], slots: &[Kind]) -> bool
    ensures { result ≡ specs.fits wants.now slots.now }
{
    for (n, want) in wants.iter().enumerate() {
        if n >= slots.len() {
            return false;
        }
        if !stands(*want, slots[n]) {
            return false;
        }
    }
    true
}

/// Whether both hold. Both are evaluated, so that no branch lies between.
pub(crate) fn both(a: bool, b: bool) -> bool
    ensures { result ≡ (a && b) }
{
    a & b
}

/// Are these all values? All are looked at, which is fast where there are many.
fn are_values(slots: &[Kind]) -> bool
    ensures { result ≡ specs.are_values slots.now }
{
    let mut fine = true;
    for kind in slots {
        fine = both(fine, stands(Want::Value, *kind));
    }
    fine
}

/// Do the slots that are asked lie on top?
pub fn fits(takes: Takes, slots: &[Kind]) -> bool
    ensures { result ≡ specs.fits (takes_of takes) slots.now }
{
    let values = takes.values as usize;
    if slots.len() < values {
        return false;
    }
    are_values(&slots[..values]) && fit(takes.others, &slots[values..])
}

/// Do the slots that are asked lie on top, where they did before those of the span changed? Only these are looked at.
pub fn fits_again(takes: Takes, slots: &[Kind], span: Span) -> bool
    requires { FitsBut span (takes_of takes) slots.now }
    ensures { result ≡ specs.fits (takes_of takes) slots.now }
{
    let places = places(Some(span), slots.len());
    let values = takes.values as usize;
    let from = places.from.min(values);
    let to = places.to.min(values).max(from);
    are_values(&slots[from..to]) && fit(takes.others, below(slots, values))
}

/// The slot that is given, where these were found.
fn give_of(slots: &[Kind], give: Give) -> Kind
    ensures { result ≡ specs.give_of slots.now give }
{
    match give {
        Give::New(kind) => kind,
        Give::Again(n) if n < slots.len() => slots[n],
        Give::Again(_) => Kind::Either,
    }
}

/// Is it a new slot, or one of the topmost `n`?
fn keeps(give: Give, n: usize) -> bool
    ensures { result ≡ spans.keeps n give }
{
    match give {
        Give::New(_) => true,
        Give::Again(m) => m < n,
    }
}

/// Is each of these a new slot, or one of the topmost `n`?
#[tactic(auto, using(crate::proofs::Spans::keeps_step, crate::proofs::Loops::and_first))]
fn keep(gives: &[Give], n: usize) -> bool
    ensures { result ≡ spans.keeps_all n gives.now }
{
    for give in gives {
        if !keeps(*give, n) {
            return false;
        }
    }
    true
}

/// Is each a new slot, or one of the topmost `n`?
#[inline(always)]
#[tactic(auto, using(crate::proofs::Spans::keeps_values))]
pub fn keeps_all(gives: Gives, n: usize) -> bool
    ensures { result ≡ spans.keeps_all n (gives_of gives) }
{
    keep(gives.others, n)
}

/// All items but the first `n`, which are the topmost.
#[inline(always)]
pub fn below<T>(items: &[T], n: usize) -> &[T]
    ensures { result.now ≡ drop n items.now }
{
    if n < items.len() { &items[n..] } else { &[] }
}

/// Slots that arrive: those that are given, on those that were found but for the topmost `taken`.
#[derive(Clone, Copy)]
pub struct Slots<'a> {
    pub gives: Gives,
    pub taken: usize,
    pub found: &'a [Kind],
}

impl<'a> Slots<'a> {
    ghost use Rattle.std.specs.Prelude.{◌≡◌, ◌<◌, ◌≤◌, IfOk, OnOk, length, slice_index_or};
    ghost use Rattle.bc_shapes.specs.Views.{gives_of, slots_of_rust};
    ghost use Rattle.bc_shapes.specs.declared.kinds.Kind.TheVariants.{Either};

    /// How many slots arrive.
    #[tactic(auto, using(crate::proofs::Loops::slots_size))]
    pub(crate) fn len(self) -> usize
        ensures { result ≡ length (slots_of_rust self.entry) }
    {
        self.gives.len() + self.found.len().saturating_sub(self.taken)
    }

    /// The slot below `i` others.
    #[tactic(auto, using(crate::proofs::Loops::slots_size))]
    pub(crate) fn at(self, i: usize) -> Kind
        requires { i < length (slots_of_rust self) }
        ensures { result ≡ slice_index_or (slots_of_rust self.entry) i Either }
    {
        let values = self.gives.values as usize;
        let others = self.gives.others;
        if i < values {
            Kind::Value
        } else if i - values < others.len() {
            give_of(self.found, others[i - values])
        } else {
            self.found[self.taken + (i - values - others.len())]
        }
    }

    /// The slot below `i` others, which was found.
    pub(crate) fn found_at(self, i: usize) -> Kind
        requires found { length (gives_of self.gives) ≤ i }
        requires within { i < length (slots_of_rust self) }
        ensures { result ≡ slice_index_or (slots_of_rust self.entry) i Either }
    {
        self.found[self.taken + (i - self.gives.len())]
    }

    /// Makes the list that of these slots.
    #[tactic(auto, using(crate::proofs::Loops::replicate_more, crate::proofs::Loops::after_is))]
    pub fn write(self, list: &mut Vec<Kind>) -> Result<(), NoMemory>
        ensures { OnOk result (list.new.items ≡ slots_of_rust self.entry) }
    {
        list.clear();
        for _i in 0..self.gives.values {
            list.push(Kind::Value)?;
        }
        for give in self.gives.others {
            list.push(give_of(self.found, *give))?;
        }
        list.extend_from_slice(below(self.found, self.taken))?;
        Ok(())
    }

    /// The slots that arrive, as a list.
    pub fn list(self, alloc: Global) -> Result<Vec<Kind>, NoMemory>
        ensures { IfOk result (λ v. v.items ≡ slots_of_rust self.entry) }
    {
        let left = below(self.found, self.taken).len();
        let mut list = Vec::with_capacity(alloc, self.gives.len().saturating_add(left))?;
        self.write(&mut list)?;
        Ok(list)
    }
}
