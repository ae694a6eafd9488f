//! What the slots of a frame are, by the kinds that are asked.

ghost use Rattle.std.specs.Prelude.{◌≡◌, ◌↔◌, ◌++◌, ◌∷◌, ℕ, List, IsTrue, IfOk, IfSome, IfNone, OnOk, Some, true, drop, reverse};
ghost use Rattle.std.specs.Prelude.{take, slice_get, option_copied};
ghost use Rattle.bc_library.specs.bc_shapes.declared.kinds.Kind.{Kind as KindOf};
ghost use Rattle.bc_library.specs.bc_shapes.declared.kinds.Kind.TheVariants as kind_names;
ghost use Rattle.bc_library.specs.Shelf.{Shelf};
ghost use Rattle.snap_grammar.specs.declared.parts.SlotPart.{SlotPart as Part};
ghost use Rattle.snap_grammar.specs.declared.parts.SlotPart.TheVariants as parts;
ghost use Rattle.snap_grammar.specs.declared.parts.Snapshot.{Snapshot};
ghost use Rattle.snap_states.specs.Stacks.{slot_as, stack_as};
ghost use Rattle.snap_states.specs.Knowing.{IsKnown};
ghost use Rattle.snap_states.specs.Fronts.{AreNone, IsCaught, IsLookUp, IsLowest, IsNoSlot, IsSlot, IsTaken, StartOnce};
ghost use Rattle.snap_states.specs.Fronts.{begins_with_value, front_more, front_slots, is_iterating, is_open, is_single};
ghost use Rattle.snap_states.specs.Fronts.{iterator_in, left_of, over_of, top_in, value_in};

use crate::kinds::PartKind;
use crate::known::{Known, is_at};
use crate::slot::Slot;
use crate::values::{is_bound, is_over, is_plain};
use bc_shapes::{Kind, NoMemory};
use snap_grammar::{SlotPart, ValuePart};
use std::alloc::Global;

/// What the first of some parts are.
#[derive(Clone, Copy)]
pub(crate) enum Front {
    /// A slot.
    One(Slot),
    /// A whole iterator.
    Whole,
    /// The three lowest slots of one.
    Three,
    Two,
    Last,
    /// The two slots of a method that was looked up, of two parts.
    Method,
}

/// The position of the instruction that starts at the offset.
pub(crate) fn position_of(offsets: &[usize], offset: u32) -> Option<usize>
    ensures some { IfSome result (λ p. slice_get offsets.now p ≡ Some offset) }
    ensures none { IfNone result ((p : ℕ) → slice_get offsets.now p ≡ Some offset → ⊥) }
{
    let offset = offset as usize;
    offsets.iter().position(|start| *start == offset)
}

/// Is the value None or an exception?
fn is_caught(known: &Known<'_>, v: &ValuePart) -> bool
    requires { IsKnown known.now }
    ensures { IsTrue result ↔ IsCaught known.now.library.now known.now.snapshot.now v.now }
{
    match v {
        ValuePart::None => true,
        ValuePart::Object(number) => is_at(known.snapshot, PartKind::Exception, *number),
        ValuePart::False
        | ValuePart::True
        | ValuePart::Int(_)
        | ValuePart::Str(_)
        | ValuePart::Fixed(_, _)
        | ValuePart::Empty
        | ValuePart::Named(_) => false,
    }
}

/// The slot that a value is where a value is asked.
fn plain_slot(known: &Known<'_>, v: &ValuePart) -> Option<Slot>
    requires { IsKnown known.now }
    ensures some { IfSome result (λ slot. (offsets : List ℕ)
        → IsSlot known.now.library.now known.now.snapshot.now offsets (parts.Value v.now) kind_names.Value (slot_as slot)) }
    ensures none { IfNone result ((offsets : List ℕ) → IsNoSlot known.now.library.now known.now.snapshot.now offsets (parts.Value v.now) kind_names.Value) }
{
    if is_caught(known, v) {
        Some(Slot::NoneOrException)
    } else if is_plain(known, v) {
        Some(Slot::Value)
    } else {
        None
    }
}

/// The slot that a value is where None or an exception is asked.
fn caught_slot(known: &Known<'_>, v: &ValuePart, kind: Kind) -> Option<Slot>
    requires known { IsKnown known.now }
    requires asked { is_open kind ≡ true }
    ensures some { IfSome result (λ slot. (offsets : List ℕ)
        → IsSlot known.now.library.now known.now.snapshot.now offsets (parts.Value v.now) kind (slot_as slot)) }
    ensures none { IfNone result ((offsets : List ℕ) → IsNoSlot known.now.library.now known.now.snapshot.now offsets (parts.Value v.now) kind) }
{
    if is_caught(known, v) {
        Some(Slot::NoneOrException)
    } else {
        None
    }
}

/// The slot of the kind that a value is.
fn value_slot(known: &Known<'_>, v: &ValuePart, kind: Kind) -> Option<Slot>
    requires known { IsKnown known.now }
    requires asked { is_single kind ≡ true }
    ensures some { IfSome result (λ slot. (offsets : List ℕ)
        → IsSlot known.now.library.now known.now.snapshot.now offsets (parts.Value v.now) kind (slot_as slot)) }
    ensures none { IfNone result ((offsets : List ℕ) → IsNoSlot known.now.library.now known.now.snapshot.now offsets (parts.Value v.now) kind) }
{
    match kind {
        Kind::Value => plain_slot(known, v),
        Kind::Cause => caught_slot(known, v, Kind::Cause),
        Kind::Either => caught_slot(known, v, Kind::Either),
        _ => None,
    }
}

/// The slot of the kind that a kept return is.
fn return_slot(known: &Known<'_>, v: &ValuePart, kind: Kind) -> Option<Slot>
    requires known { IsKnown known.now }
    requires asked { is_single kind ≡ true }
    ensures some { IfSome result (λ slot. (offsets : List ℕ)
        → IsSlot known.now.library.now known.now.snapshot.now offsets (parts.Return v.now) kind (slot_as slot)) }
    ensures none { IfNone result ((offsets : List ℕ) → IsNoSlot known.now.library.now known.now.snapshot.now offsets (parts.Return v.now) kind) }
{
    match kind {
        Kind::Cause => {
            if is_plain(known, v) {
                Some(Slot::KeptReturn)
            } else {
                None
            }
        }
        _ => None,
    }
}

/// The slot of the kind that an empty one is.
fn empty_slot(kind: Kind) -> Option<Slot>
    requires { is_single kind ≡ true }
    ensures some { IfSome result (λ slot. (shelf : Shelf) (s : Snapshot) (offsets : List ℕ) → IsSlot shelf s offsets parts.Empty kind (slot_as slot)) }
    ensures none { IfNone result ((shelf : Shelf) (s : Snapshot) (offsets : List ℕ) → IsNoSlot shelf s offsets parts.Empty kind) }
{
    match kind {
        Kind::Null => Some(Slot::Null),
        _ => None,
    }
}

/// The slot of the kind that a kept jump is, out of `count` more entries to an offset.
fn jump_slot(offsets: &[usize], offset: u32, count: u32, iterator: bool, kind: Kind) -> Option<Slot>
    requires single { is_single kind ≡ true }
    requires once { StartOnce offsets.now }
    ensures some { IfSome result (λ slot. (shelf : Shelf) (s : Snapshot) → IsSlot shelf s offsets.now (parts.Jump offset count iterator) kind (slot_as slot)) }
    ensures none { IfNone result ((shelf : Shelf) (s : Snapshot) → IsNoSlot shelf s offsets.now (parts.Jump offset count iterator) kind) }
{
    match kind {
        Kind::Cause => match position_of(offsets, offset) {
            None => None,
            Some(target) => Some(Slot::KeptJump {
                target,
                count: count as usize,
                iterator,
            }),
        },
        _ => None,
    }
}

/// The slot of the kind that a part is.
fn slot_of(known: &Known<'_>, offsets: &[usize], part: &SlotPart, kind: Kind) -> Option<Slot>
    requires known { IsKnown known.now }
    requires single { is_single kind ≡ true }
    requires once { StartOnce offsets.now }
    ensures some { IfSome result (λ slot. IsSlot known.now.library.now known.now.snapshot.now offsets.now part.now kind (slot_as slot)) }
    ensures none { IfNone result (IsNoSlot known.now.library.now known.now.snapshot.now offsets.now part.now kind) }
{
    match part {
        SlotPart::Value(v) => value_slot(known, v, kind),
        SlotPart::Empty => empty_slot(kind),
        SlotPart::Return(v) => return_slot(known, v, kind),
        SlotPart::Jump {
            target,
            entries,
            iterator,
        } => jump_slot(offsets, *target, *entries, *iterator, kind),
        SlotPart::Iterator { .. } => None,
        SlotPart::Left { .. } => None,
    }
}

/// The iterator, whole or of the slots that are left of it, that kinds begin with, by the first and those behind it.
fn iterator_at(kind: Kind, kinds: &[Kind]) -> Option<Front>
    ensures { result ≡ iterator_in (kind ∷ kinds.now) }
{
    match kind {
        Kind::Iter4 => match kinds {
            [Kind::Iter3, Kind::Iter2, Kind::Iter1, ..] => Some(Front::Whole),
            _ => None,
        },
        Kind::Iter3 => match kinds {
            [Kind::Iter2, Kind::Iter1, ..] => Some(Front::Three),
            _ => None,
        },
        Kind::Iter2 => match kinds {
            [Kind::Iter1, ..] => Some(Front::Two),
            _ => None,
        },
        Kind::Iter1 => Some(Front::Last),
        _ => None,
    }
}

/// How many slots of an iterator a front has that isn't whole, or 0.
fn left_of(front: Front) -> u32
    ensures { result ≡ left_of front }
{
    match front {
        Front::Three => 3,
        Front::Two => 2,
        Front::Last => 1,
        Front::One(_) | Front::Whole | Front::Method => 0,
    }
}

/// What the iterator of a part goes over, if it is one with these slots.
fn over_of<'a>(front: Front, part: &'a SlotPart) -> Option<&'a ValuePart>
    ensures { option_copied result ≡ over_of front part.now }
{
    match part {
        SlotPart::Iterator { over, .. } => match front {
            Front::Whole => Some(over),
            _ => None,
        },
        SlotPart::Left { slots, over, .. } => {
            if left_of(front) > 0 && *slots == left_of(front) {
                Some(over)
            } else {
                None
            }
        }
        SlotPart::Value(_) | SlotPart::Empty | SlotPart::Return(_) | SlotPart::Jump { .. } => None,
    }
}

/// The iterator that a part is, where kinds of one are asked.
fn iterator_front(known: &Known<'_>, part: &SlotPart, kind: Kind, kinds: &[Kind]) -> Option<Front>
    requires known { IsKnown known.now }
    requires asked { is_iterating kind ≡ true }
    ensures some { IfSome result (λ f. (offsets : List ℕ) (ps : List Part)
        → IsTaken known.now.library.now known.now.snapshot.now offsets part.now ps (kind ∷ kinds.now) f) }
    ensures none { IfNone result ((offsets : List ℕ) (ps : List Part)
        → AreNone known.now.library.now known.now.snapshot.now offsets (part.now ∷ ps) (kind ∷ kinds.now)) }
{
    match iterator_at(kind, kinds) {
        None => None,
        Some(front) => match over_of(front, part) {
            None => None,
            Some(over) => {
                if is_over(known, over) {
                    Some(front)
                } else {
                    None
                }
            }
        },
    }
}

/// Are the part and the value below it a method that was looked up?
fn is_look_up(known: &Known<'_>, part: &SlotPart, below: &ValuePart) -> bool
    requires { IsKnown known.now }
    ensures { IsTrue result ↔ IsLookUp known.now.library.now known.now.snapshot.now part.now below.now }
{
    match part {
        SlotPart::Value(v) => match below {
            ValuePart::Named(name) => is_bound(known, name.bytes(), v),
            _ => false,
        },
        SlotPart::Empty => is_plain(known, below),
        _ => false,
    }
}

/// The value of a part, if it is one.
fn value_in(part: &SlotPart) -> Option<&ValuePart>
    ensures { option_copied result ≡ value_in part.now }
{
    match part {
        SlotPart::Value(v) => Some(v),
        SlotPart::Empty
        | SlotPart::Iterator { .. }
        | SlotPart::Left { .. }
        | SlotPart::Return(_)
        | SlotPart::Jump { .. } => None,
    }
}

/// The topmost of some parts.
fn topmost(parts: &[SlotPart]) -> Option<&SlotPart>
    ensures { option_copied result ≡ slice_get (reverse parts.now) 0 }
{
    parts.last()
}

/// The value that the topmost of some parts is, if it is one.
fn top_value(parts: &[SlotPart]) -> Option<&ValuePart>
    ensures { option_copied result ≡ top_in (reverse parts.now) }
{
    match topmost(parts) {
        None => None,
        Some(part) => value_in(part),
    }
}

/// Is the first of the kinds that of a value?
fn begins_with_value(kinds: &[Kind]) -> bool
    ensures { result ≡ begins_with_value kinds.now }
{
    match kinds {
        [Kind::Value, ..] => true,
        _ => false,
    }
}

/// The look-up that a part and the topmost below it are, where the kinds behind that of a method are these.
fn method_front(
    known: &Known<'_>,
    part: &SlotPart,
    below: &[SlotPart],
    kinds: &[Kind],
) -> Option<Front>
    requires { IsKnown known.now }
    ensures some { IfSome result (λ f. (offsets : List ℕ)
        → IsTaken known.now.library.now known.now.snapshot.now offsets part.now (reverse below.now) (kind_names.Method ∷ kinds.now) f) }
    ensures none { IfNone result ((offsets : List ℕ)
        → AreNone known.now.library.now known.now.snapshot.now offsets (part.now ∷ reverse below.now) (kind_names.Method ∷ kinds.now)) }
{
    if !begins_with_value(kinds) {
        return None;
    }
    match top_value(below) {
        None => None,
        Some(v) => {
            if is_look_up(known, part, v) {
                Some(Front::Method)
            } else {
                None
            }
        }
    }
}

/// The slot that a part is, as a front.
fn single_front(known: &Known<'_>, offsets: &[usize], part: &SlotPart, kind: Kind) -> Option<Front>
    requires known { IsKnown known.now }
    requires single { is_single kind ≡ true }
    requires once { StartOnce offsets.now }
    ensures some { IfSome result (λ f. (ps : List Part) (ks : List KindOf)
        → IsTaken known.now.library.now known.now.snapshot.now offsets.now part.now ps (kind ∷ ks) f) }
    ensures none { IfNone result ((ps : List Part) (ks : List KindOf)
        → AreNone known.now.library.now known.now.snapshot.now offsets.now (part.now ∷ ps) (kind ∷ ks)) }
{
    match slot_of(known, offsets, part, kind) {
        None => None,
        Some(slot) => Some(Front::One(slot)),
    }
}

/// What a part is on others, where these kinds are asked.
fn front_of(
    known: &Known<'_>,
    offsets: &[usize],
    part: &SlotPart,
    below: &[SlotPart],
    kinds: &[Kind],
) -> Option<Front>
    requires known { IsKnown known.now }
    requires asked { StartOnce offsets.now }
    ensures some { IfSome result (λ f. IsTaken known.now.library.now known.now.snapshot.now offsets.now part.now (reverse below.now) kinds.now f) }
    ensures none { IfNone result (AreNone known.now.library.now known.now.snapshot.now offsets.now (part.now ∷ reverse below.now) kinds.now) }
{
    match kinds {
        [] => None,
        [kind, rest @ ..] => match *kind {
            Kind::Method => method_front(known, part, below, rest),
            Kind::Iter1 => iterator_front(known, part, Kind::Iter1, rest),
            Kind::Iter2 => iterator_front(known, part, Kind::Iter2, rest),
            Kind::Iter3 => iterator_front(known, part, Kind::Iter3, rest),
            Kind::Iter4 => iterator_front(known, part, Kind::Iter4, rest),
            Kind::Value => single_front(known, offsets, part, Kind::Value),
            Kind::Cause => single_front(known, offsets, part, Kind::Cause),
            Kind::Either => single_front(known, offsets, part, Kind::Either),
            Kind::Null => single_front(known, offsets, part, Kind::Null),
        },
    }
}

/// How many parts a front has besides the first.
fn more_of(front: Front) -> usize
    ensures { result ≡ front_more front }
{
    match front {
        Front::Method => 1,
        Front::One(_) | Front::Whole | Front::Three | Front::Two | Front::Last => 0,
    }
}

/// Puts the slots of a front behind others, the topmost first.
fn push_front(stack: &mut Vec<Slot>, front: Front) -> Result<(), NoMemory>
    ensures { OnOk result (stack_as stack.new.items ≡ stack_as stack.old.items ++ front_slots front) }
{
    match front {
        Front::One(slot) => stack.push(slot)?,
        Front::Whole => {
            stack.extend_from_slice(&[Slot::Iter4, Slot::Iter3, Slot::Iter2, Slot::Iter1])?
        }
        Front::Three => stack.extend_from_slice(&[Slot::Iter3, Slot::Iter2, Slot::Iter1])?,
        Front::Two => stack.extend_from_slice(&[Slot::Iter2, Slot::Iter1])?,
        Front::Last => stack.push(Slot::Iter1)?,
        Front::Method => stack.extend_from_slice(&[Slot::Method, Slot::Value])?,
    }
    Ok(())
}

/// All but the first `taken` of the kinds.
pub(crate) fn behind(kinds: &[Kind], taken: usize) -> &[Kind]
    ensures { result.now ≡ drop taken kinds.now }
{
    if taken < kinds.len() {
        &kinds[taken..]
    } else {
        &[]
    }
}

/// The first `count` of the parts.
fn first_parts(parts: &[SlotPart], count: usize) -> &[SlotPart]
    ensures { result.now ≡ take count parts.now }
{
    if count < parts.len() {
        &parts[..count]
    } else {
        parts
    }
}

/// The slots that the parts are, the topmost first, where these kinds are asked, the topmost first: of those that they may be
/// taken for the ones that serve wherever any of them do.
pub(crate) fn stack_of(
    alloc: Global,
    known: &Known<'_>,
    offsets: &[usize],
    kinds: &[Kind],
    parts: &[SlotPart],
) -> Result<Option<Vec<Slot>>, NoMemory>
    requires known { IsKnown known.now }
    requires asked { StartOnce offsets.now }
    ensures some { IfOk result
        (λ o. IfSome o (λ v. IsLowest known.now.library.now known.now.snapshot.now offsets.now (reverse parts.now) kinds.now
        (stack_as v.items))) }
    ensures none { IfOk result (λ o. IfNone o (AreNone known.now.library.now known.now.snapshot.now offsets.now (reverse parts.now) kinds.now)) }
{
    let mut stack = Vec::new(alloc);
    let mut left = parts.len();
    while left > 0 {
        let part = &parts[left - 1];
        let below = first_parts(parts, left - 1);
        let asked = behind(kinds, stack.len());
        let Some(front) = front_of(known, offsets, part, below, asked) else {
            return Ok(None);
        };
        push_front(&mut stack, front)?;
        left = left - 1 - more_of(front);
    }
    if stack.len() == kinds.len() {
        Ok(Some(stack))
    } else {
        Ok(None)
    }
}
