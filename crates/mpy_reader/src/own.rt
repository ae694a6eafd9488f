//! A code's own bytes: its prelude and its instructions.

ghost use Rattle.std.specs.Prelude.{◌≡◌, ◌+◌};
ghost use Rattle.mpy_reader.specs.Reading as reading;
ghost use Rattle.mpy_reader.specs.Reading.{Gives, Holds};

use crate::fault::FileFault;
use crate::field::Field;
use bc_ops::decode_at;
use bc_prelude::{PreludeFault, Signature, read_signature, read_size};
use mpy_base::{Refused, VuintFault, read_vuint};

/// Reads the signature of a prelude.
fn signature(code: &[u8]) -> Field<'_, Signature>
    ensures { Gives (λ found. (found.0, found.1.now)) result (reading.signature code.now) }
{
    match read_signature(code) {
        Ok((signature, len)) => {
            let (_, rest) = code.split_at(len);
            Ok((signature, rest))
        }
        Err(PreludeFault::TooBig) => Err(Refused::Fault(FileFault::TooBig)),
        Err(_) => Err(Refused::Fault(FileFault::BadPrelude)),
    }
}

/// Reads the information of a prelude; the instructions stand behind it.
fn information(bytes: &[u8]) -> Field<'_, &[u8]>
    ensures { Gives (λ found. (found.0.now, found.1.now)) result (reading.information bytes.now) }
{
    match read_size(bytes, 0) {
        Ok((size, len)) => {
            let (_, rest) = bytes.split_at(len);
            Ok(rest.split_at(size))
        }
        Err(_) => Err(Refused::Fault(FileFault::BadPrelude)),
    }
}

/// Reads one number of the information.
fn index(bytes: &[u8]) -> Field<'_, u32>
    ensures { Gives (λ found. (found.0, found.1.now)) result (reading.index bytes.now) }
{
    match read_vuint(bytes, 0) {
        Ok((n, len)) => {
            let (_, rest) = bytes.split_at(len);
            Ok((n, rest))
        }
        Err(VuintFault::Truncated) => Err(Refused::Fault(FileFault::BadPrelude)),
        Err(VuintFault::TooBig) => Err(Refused::Fault(FileFault::TooBig)),
    }
}

/// The number of a text in a table of `texts` texts.
#[tactic(auto, unfolding(crate::specs::Reading::name))]
fn name(bytes: &[u8], texts: u32) -> Field<'_, u32>
    ensures { Gives (λ found. (found.0, found.1.now)) result (reading.name texts bytes.now) }
{
    let (n, rest) = index(bytes)?;
    if n >= texts {
        return Err(Refused::Fault(FileFault::BadPrelude));
    }
    Ok((n, rest))
}

/// Passes `count` names, each a number of a table of `texts` texts.
fn names(bytes: &[u8], count: u32, texts: u32) -> Result<(), Refused<FileFault>>
    ensures { Holds result (reading.many count (reading.name texts) bytes.now) }
{
    let mut rest = bytes;
    for _ in 0..count {
        let (_, behind) = name(rest, texts)?;
        rest = behind;
    }
    Ok(())
}

/// Refuses bytes that are no list of instructions.
fn instructions(bytes: &[u8]) -> Result<(), Refused<FileFault>>
    ensures { Gives (λ _. tt) result (reading.instructions bytes.now) }
{
    let mut at = 0;
    while at < bytes.len() {
        let Ok((_, behind)) = decode_at(bytes, at) else {
            return Err(Refused::Fault(FileFault::BadCode));
        };
        at = behind;
    }
    Ok(())
}

/// A code's own bytes, whose names stand in a table of `texts` texts.
#[tactic(auto, unfolding(crate::specs::Reading::own_code))]
pub(crate) fn own_code(code: &[u8], texts: u32) -> Result<(), Refused<FileFault>>
    ensures { Gives (λ _. tt) result (reading.own_code texts code.now) }
{
    let (numbers, rest) = signature(code)?;
    if numbers.defaults > numbers.args {
        return Err(Refused::Fault(FileFault::BadPrelude));
    }
    let (info, instrs) = information(rest)?;
    names(info, 1 + numbers.args, texts)?;
    instructions(instrs)
}
