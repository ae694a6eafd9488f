//! Reading objects by their tags, with the items of tuples, level by level.

ghost use Rattle.std.specs.Prelude.{◌≡◌, ◌+◌, ◌*◌, ◌^◌, ◌<◌, ℕ, List, ◌∷◌, ℤ, min, MatchOption};
ghost use Rattle.std.specs.Str.Parse.{IsNumeral, digits_value};
ghost use Rattle.mpy_tree.specs.File.{IsDecimal, IsSmall};
ghost use Rattle.mpy_reader.specs.Reading as reading;
ghost use Rattle.mpy_reader.specs.Reading.{Gives};

use crate::fault::FileFault;
use crate::field::{Field, byte, number, taken, text};
use mpy_base::limits::MAX_DEPTH;
use mpy_base::{Items, Refused};
use mpy_tree::Constant;
use std::alloc::Global;

/// The byte in front of `None`.
const TAG_NONE: u8 = 1;

/// The byte in front of `False`.
const TAG_FALSE: u8 = 2;

/// The byte in front of `True`.
const TAG_TRUE: u8 = 3;

/// The byte in front of a str.
const TAG_STR: u8 = 5;

/// The byte in front of an int.
const TAG_INT: u8 = 7;

/// The byte in front of a tuple.
const TAG_TUPLE: u8 = 10;

/// A number past all small integers and their opposites.
const PAST: u64 = (1 << 30) + 1;

/// Reads a text behind its tag.
#[tactic(auto, unfolding(crate::specs::Reading::str))]
fn str_object(alloc: Global, bytes: &[u8]) -> Field<'_, Constant>
    ensures { Gives (λ found. (found.0, found.1.now)) result (reading.str bytes.now) }
{
    let (len, rest) = number(bytes)?;
    let (own, rest) = text(alloc, rest, len, FileFault::BadObject(TAG_STR))?;
    Ok((Constant::Str(own), rest))
}

/// The number of the digits, or `PAST` where it reaches that.
fn numeral(digits: &[u8]) -> Option<u64>
    ensures { MatchOption result (IsNumeral 10 digits.now → ⊥) (λ n.
        IsNumeral 10 digits.now × (n ≡ min (digits_value 10 digits.now) PAST)) }
{
    if digits.is_empty() {
        return None;
    }
    let mut n = 0;
    for digit in digits {
        if *digit < b'0' || *digit > b'9' {
            return None;
        }
        n = (10 * n + u64::from(*digit - b'0')).min(PAST);
    }
    Some(n)
}

/// The text behind a minus sign, where it begins with one.
fn opposite(text: &[u8]) -> Option<&[u8]>
    ensures { MatchOption result ((digits : List ℕ) → text.now ≡ 45 ∷ digits → ⊥) (λ digits. text.now ≡ 45 ∷ digits.now) }
{
    match text {
        [b'-', digits @ ..] => Some(digits),
        _ => None,
    }
}

/// The small integer of a decimal text.
fn int_of(text: &[u8]) -> Option<i32>
    ensures { MatchOption result ((n : ℤ) → IsDecimal text.now n → IsSmall n → ⊥) (λ n.
        IsDecimal text.now n × IsSmall n) }
{
    match opposite(text) {
        Some(digits) => {
            let n = numeral(digits)?;
            if n < PAST { Some(-(n as i32)) } else { None }
        }
        None => {
            let n = numeral(text)?;
            if n < PAST - 1 { Some(n as i32) } else { None }
        }
    }
}

/// Reads an integer behind its tag.
#[tactic(auto, unfolding(crate::specs::Reading::int))]
fn int_object(bytes: &[u8]) -> Field<'_, Constant>
    ensures { Gives (λ found. (found.0, found.1.now)) result (reading.int bytes.now) }
{
    let (len, rest) = number(bytes)?;
    let (digits, rest) = taken(rest, len as usize)?;
    let Some(n) = int_of(digits) else {
        return Err(Refused::Fault(FileFault::BadObject(TAG_INT)));
    };
    Ok((Constant::Int(n), rest))
}

/// The first `count` objects, with `levels` levels of tuples in each at most.
#[cycle(object)]
fn items(alloc: Global, count: u32, bytes: &[u8], levels: usize) -> Field<'_, Items<Constant>>
    ensures { Gives (λ found. (found.0, found.1.now)) result (reading.many count (reading.object levels) bytes.now) }
{
    let mut items = Items::new(alloc);
    let mut rest = bytes;
    for _ in 0..count {
        let (item, behind) = object(alloc, rest, levels)?;
        items.push(item)?;
        rest = behind;
    }
    Ok((items, rest))
}

/// A tuple, with `levels` levels of tuples in it at most.
#[cycle(object)]
#[tactic(auto, unfolding(crate::specs::Reading::tuple))]
fn tuple(alloc: Global, bytes: &[u8], levels: usize) -> Field<'_, Constant>
    ensures { Gives (λ found. (found.0, found.1.now)) result (reading.tuple (reading.object levels) bytes.now) }
{
    let (count, rest) = number(bytes)?;
    let (items, rest) = items(alloc, count, rest, levels)?;
    Ok((Constant::Tuple(items), rest))
}

/// An object with `levels` levels of tuples at most.
#[cycle(object)]
fn object(alloc: Global, bytes: &[u8], levels: usize) -> Field<'_, Constant>
    ensures { Gives (λ found. (found.0, found.1.now)) result (reading.object levels bytes.now) }
{
    let (tag, rest) = byte(bytes)?;
    match tag {
        TAG_NONE => Ok((Constant::None, rest)),
        TAG_FALSE => Ok((Constant::False, rest)),
        TAG_TRUE => Ok((Constant::True, rest)),
        TAG_STR => str_object(alloc, rest),
        TAG_INT => int_object(rest),
        TAG_TUPLE if levels == 0 => Err(Refused::Fault(FileFault::TooBig)),
        TAG_TUPLE => tuple(alloc, rest, levels - 1),
        _ => Err(Refused::Fault(FileFault::BadObject(tag))),
    }
}

/// The first `count` objects.
pub(crate) fn objects(alloc: Global, count: u32, bytes: &[u8]) -> Field<'_, Items<Constant>>
    ensures { Gives (λ found. (found.0, found.1.now)) result (reading.many count (reading.object MAX_DEPTH) bytes.now) }
{
    items(alloc, count, bytes, MAX_DEPTH)
}
