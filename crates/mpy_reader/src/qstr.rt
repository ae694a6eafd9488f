//! The table of texts.

ghost use Rattle.std.specs.Prelude.{◌≡◌};
ghost use Rattle.mpy_reader.specs.Reading as reading;
ghost use Rattle.mpy_reader.specs.Reading.{Gives};

use crate::fault::FileFault;
use crate::field::{Field, number, text};
use mpy_base::{Items, Refused};
use mpy_tree::Qstr;
use qstr_pool::STATIC_COUNT;
use std::alloc::Global;

/// The entry that names a text by its number.
#[tactic(auto, unfolding(crate::specs::Reading::static_qstr))]
fn static_qstr(number: u32, rest: &[u8]) -> Field<'_, Qstr>
    ensures { Gives (λ found. (found.0, found.1.now)) result (reading.static_qstr number rest.now) }
{
    if number == 0 || number > u32::from(STATIC_COUNT) {
        return Err(Refused::Fault(FileFault::BadQstr));
    }
    Ok((Qstr::Static(number as u16), rest))
}

/// The entry that spells a text of `len` bytes.
#[tactic(auto, unfolding(crate::specs::Reading::own_qstr))]
fn own_qstr(alloc: Global, len: u32, rest: &[u8]) -> Field<'_, Qstr>
    ensures { Gives (λ found. (found.0, found.1.now)) result (reading.own_qstr len rest.now) }
{
    let (own, rest) = text(alloc, rest, len, FileFault::BadQstr)?;
    Ok((Qstr::Own(own), rest))
}

/// An entry.
#[tactic(auto, unfolding(crate::specs::Reading::qstr))]
fn qstr(alloc: Global, bytes: &[u8]) -> Field<'_, Qstr>
    ensures { Gives (λ found. (found.0, found.1.now)) result (reading.qstr bytes.now) }
{
    let (n, rest) = number(bytes)?;
    if n % 2 == 1 {
        static_qstr(n / 2, rest)
    } else {
        own_qstr(alloc, n / 2, rest)
    }
}

/// The first `count` entries.
pub(crate) fn qstrs(alloc: Global, count: u32, bytes: &[u8]) -> Field<'_, Items<Qstr>>
    ensures { Gives (λ found. (found.0, found.1.now)) result (reading.many count reading.qstr bytes.now) }
{
    let mut qstrs = Items::new(alloc);
    let mut rest = bytes;
    for _ in 0..count {
        let (entry, behind) = qstr(alloc, rest)?;
        qstrs.push(entry)?;
        rest = behind;
    }
    Ok((qstrs, rest))
}
