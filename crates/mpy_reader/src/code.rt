//! Reading codes: own bytes behind a header, and the children behind these, level by level.

ghost use Rattle.std.specs.Prelude.{◌≡◌, ◌/◌, ◌%◌, ◌==◌};
ghost use Rattle.mpy_reader.specs.Reading as reading;
ghost use Rattle.mpy_reader.specs.Reading.{Gives};

use crate::fault::FileFault;
use crate::field::{Field, count, number, taken};
use crate::own::own_code;
use mpy_base::limits::MAX_CODE_BYTES;
use mpy_base::{Items, Refused, Text};
use mpy_tree::RawCode;
use std::alloc::Global;

/// A code's own bytes, and whether children follow them.
#[tactic(auto, unfolding(crate::specs::Reading::own))]
fn own(bytes: &[u8], texts: u32) -> Field<'_, (&[u8], bool)>
    ensures { Gives (λ found. ((found.0.0.now, found.0.1), found.1.now)) result (reading.own texts bytes.now) }
{
    let (header, rest) = number(bytes)?;
    let len = header as usize / 8;
    if len > MAX_CODE_BYTES {
        return Err(Refused::Fault(FileFault::TooBig));
    }
    let (own, rest) = taken(rest, len)?;
    if header % 4 != 0 {
        return Err(Refused::Fault(FileFault::BadCode));
    }
    own_code(own, texts)?;
    Ok(((own, header / 4 % 2 == 1), rest))
}

/// The children behind a code's own bytes, of which each has `levels` levels of codes at most.
#[cycle(code)]
fn children(
    alloc: Global,
    bytes: &[u8],
    texts: u32,
    levels: usize,
    has_some: bool,
) -> Field<'_, Items<RawCode>>
    ensures { Gives (λ found. (found.0, found.1.now)) result (reading.children (reading.code levels texts) has_some bytes.now) }
{
    if !has_some {
        return Ok((Items::new(alloc), bytes));
    }
    let (count, rest) = count(bytes)?;
    codes(alloc, count, rest, texts, levels)
}

/// The first `count` codes, of which each has `levels` levels of codes at most.
#[cycle(code)]
fn codes(
    alloc: Global,
    count: u32,
    bytes: &[u8],
    texts: u32,
    levels: usize,
) -> Field<'_, Items<RawCode>>
    ensures { Gives (λ found. (found.0, found.1.now)) result (reading.many count (reading.code levels texts) bytes.now) }
{
    let mut codes = Items::new(alloc);
    let mut rest = bytes;
    for _ in 0..count {
        let (code, behind) = code(alloc, rest, texts, levels)?;
        codes.push(code)?;
        rest = behind;
    }
    Ok((codes, rest))
}

/// A code in front, with `levels` levels of codes at most, itself among them.
#[cycle(code)]
pub(crate) fn code(alloc: Global, bytes: &[u8], texts: u32, levels: usize) -> Field<'_, RawCode>
    ensures { Gives (λ found. (found.0, found.1.now)) result (reading.code levels texts bytes.now) }
{
    if levels == 0 {
        return Err(Refused::Fault(FileFault::TooBig));
    }
    let ((own, has_children), rest) = own(bytes, texts)?;
    let (children, rest) = children(alloc, rest, texts, levels - 1, has_children)?;
    let bytes = Text::new(alloc, own)?;
    Ok((RawCode { bytes, children }, rest))
}
