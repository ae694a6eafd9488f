//! The fields of a file: each is read at the front of the bytes, and given with the bytes behind it.

ghost use Rattle.std.specs.Prelude.{◌≡◌, ◌+◌, ◌↔◌, ℕ, List, [], ◌∷◌, ◌++◌, MatchOption};
ghost use Rattle.mpy_reader.specs.Reading as reading;
ghost use Rattle.mpy_reader.specs.Reading.{Gives, IsText};

use crate::fault::FileFault;
use mpy_base::limits::MAX_TABLE;
use mpy_base::{Refused, Text, VuintFault, read_vuint};
use std::alloc::Global;

/// A value and the bytes behind it.
pub(crate) type Field<'a, T> = Result<(T, &'a [u8]), Refused<FileFault>>;

/// Reads one byte.
pub(crate) fn byte(bytes: &[u8]) -> Field<'_, u8>
    ensures { Gives (λ found. (found.0, found.1.now)) result (reading.byte bytes.now) }
{
    match bytes {
        [] => Err(Refused::Fault(FileFault::Truncated)),
        [first, rest @ ..] => Ok((*first, rest)),
    }
}

/// Reads a number that is written as a vuint.
pub(crate) fn number(bytes: &[u8]) -> Field<'_, u32>
    ensures { Gives (λ found. (found.0, found.1.now)) result (reading.number bytes.now) }
{
    match read_vuint(bytes, 0) {
        Ok((n, len)) => {
            let (_, rest) = bytes.split_at(len);
            Ok((n, rest))
        }
        Err(VuintFault::Truncated) => Err(Refused::Fault(FileFault::Truncated)),
        Err(VuintFault::TooBig) => Err(Refused::Fault(FileFault::TooBig)),
    }
}

/// Reads the first `count` bytes.
pub(crate) fn taken(bytes: &[u8], count: usize) -> Field<'_, &[u8]>
    ensures { Gives (λ found. (found.0.now, found.1.now)) result (reading.taken count bytes.now) }
{
    if bytes.len() < count {
        return Err(Refused::Fault(FileFault::Truncated));
    }
    Ok(bytes.split_at(count))
}

/// Reads how many entries a table has, which no table may pass.
#[tactic(auto, unfolding(crate::specs::Reading::count))]
pub(crate) fn count(bytes: &[u8]) -> Field<'_, u32>
    ensures { Gives (λ found. (found.0, found.1.now)) result (reading.count bytes.now) }
{
    let (n, rest) = number(bytes)?;
    if n as usize > MAX_TABLE {
        return Err(Refused::Fault(FileFault::TooBig));
    }
    Ok((n, rest))
}

/// The ASCII text that stands in front of a zero byte, where the bytes are these.
fn own_of(whole: &[u8]) -> Option<&[u8]>
    ensures { MatchOption result ((own : List ℕ) → IsText own whole.now → ⊥) (λ own. IsText own.now whole.now) }
{
    match whole {
        [own @ .., 0] if own.iter().all(|byte| *byte < 128) => Some(own),
        _ => None,
    }
}

/// A text of `len` bytes and its zero byte.
#[tactic(auto, unfolding(crate::specs::Reading::text))]
pub(crate) fn text(alloc: Global, bytes: &[u8], len: u32, fault: FileFault) -> Field<'_, Text>
    ensures { Gives (λ found. (found.0, found.1.now)) result (reading.text fault len bytes.now) }
{
    let (whole, rest) = taken(bytes, len as usize + 1)?;
    let Some(own) = own_of(whole) else {
        return Err(Refused::Fault(fault));
    };
    Ok((Text::new(alloc, own)?, rest))
}
