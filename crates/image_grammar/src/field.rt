//! The fields of an image: each is read at the front of the bytes, and given with the bytes behind it.

ghost use Rattle.std.specs.Prelude.{◌≡◌};
ghost use Rattle.mpy_reader.specs.Reading.{IsText};
ghost use Rattle.image_grammar.specs.Opening as opening;
ghost use Rattle.image_grammar.specs.Opening.{IsTaken};
ghost use Rattle.image_grammar.specs.Steps.{Gives, sought};
ghost use Rattle.image_grammar.specs.declared.fault.ImageFault.TheVariants as faults;

use crate::fault::ImageFault;
use mpy_base::{Refused, VuintFault, read_vuint};

/// A value and the bytes behind it.
pub type Field<'a, T> = Result<(T, &'a [u8]), Refused<ImageFault>>;

/// The number in front, and the bytes behind it.
pub fn number(bytes: &[u8]) -> Field<'_, u32>
    ensures { Gives (λ found. (found.0, found.1.now)) result (opening.number bytes.now) }
{
    match read_vuint(bytes, 0) {
        Ok((n, len)) => {
            let (_, rest) = bytes.split_at(len);
            Ok((n, rest))
        }
        Err(VuintFault::Truncated) => Err(Refused::Fault(ImageFault::Truncated)),
        Err(VuintFault::TooBig) => Err(Refused::Fault(ImageFault::TooBig)),
    }
}

/// A number of things, of which there may be `most`.
#[tactic(auto, unfolding(crate::specs::Opening::count))]
pub fn count(bytes: &[u8], most: usize) -> Field<'_, u32>
    ensures { Gives (λ found. (found.0, found.1.now)) result (opening.count most bytes.now) }
{
    let (n, rest) = number(bytes)?;
    if n as usize > most {
        return Err(Refused::Fault(ImageFault::TooBig));
    }
    Ok((n, rest))
}

/// The first `len` bytes.
pub(crate) fn taken(bytes: &[u8], len: usize) -> Field<'_, &[u8]>
    ensures { Gives (λ found. (found.0.now, found.1.now)) result (sought (IsTaken len bytes.now) faults.Truncated) }
{
    if bytes.len() < len {
        return Err(Refused::Fault(ImageFault::Truncated));
    }
    Ok(bytes.split_at(len))
}

/// The ASCII text that stands in front of a zero byte, where the bytes are these.
pub(crate) fn own_of(whole: &[u8]) -> Result<&[u8], Refused<ImageFault>>
    ensures { Gives (λ own. own.now) result (sought (λ own. IsText own whole.now) faults.BadNumber) }
{
    match whole {
        [own @ .., 0] if own.iter().all(|byte| *byte < 128) => Ok(own),
        _ => Err(Refused::Fault(ImageFault::BadNumber)),
    }
}
