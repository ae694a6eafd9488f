//! The numbers of texts.

ghost use Rattle.std.specs.Prelude.{◌≡◌, [], Some, option_copied, IfOk, IfErr};
ghost use Rattle.mpy_base.specs.declared.refused.Refused.TheVariants as refused;
ghost use Rattle.bc_library.specs.Texts as library;
ghost use Rattle.bc_library.specs.Texts.{text_numbered};
ghost use Rattle.image_grammar.specs.Opening as opening;
ghost use Rattle.image_grammar.specs.Opening.{IsUse};
ghost use Rattle.image_grammar.specs.Steps.{Gives, sought, times};
ghost use Rattle.image_grammar.specs.declared.fault.ImageFault.TheVariants as faults;

use crate::fault::ImageFault;
use crate::field::{Field, count, number};
use mpy_base::limits::MAX_TABLE;
use mpy_base::{Items, Refused, Text};
use mpy_tree::Qstr;
use qstr_pool::{FIRST_OWN, Pool, static_number, static_text};
use std::alloc::Global;

/// A module's table of texts as far as it was read.
#[derive(Drop)]
pub struct Table {
    pub qstrs: Items<Qstr>,
    /// How many texts of the pool were used.
    pub used: u64,
}

/// The text of a number.
fn text_at(pool: &Pool, n: u32) -> Option<&[u8]>
    ensures { option_copied result ≡ text_numbered pool.now n }
{
    if n < FIRST_OWN {
        static_text(n as u16)
    } else {
        pool.text(n)
    }
}

/// The text of a number that may stand where `used` texts were used.
fn text_in_turn(pool: &Pool, used: u64, n: u32) -> Result<&[u8], Refused<ImageFault>>
    ensures { Gives (λ text. text.now) result (sought (IsUse pool.now used n) faults.BadNumber) }
{
    match text_at(pool, n) {
        Some(text) if u64::from(n.saturating_sub(FIRST_OWN)) <= used => Ok(text),
        _ => Err(Refused::Fault(ImageFault::BadNumber)),
    }
}

/// The text of a number that may stand where `used` texts of the pool were used, and how many are used behind it.
#[tactic(auto, unfolding(crate::specs::Opening::use_of))]
pub fn use_of(pool: &Pool, used: u64, n: u32) -> Result<(&[u8], u64), Refused<ImageFault>>
    ensures { Gives (λ found. (found.0.now, found.1)) result (opening.use_of pool.now used n) }
{
    let text = text_in_turn(pool, used, n)?;
    Ok((
        text,
        used.max((u64::from(n) + 1).saturating_sub(u64::from(FIRST_OWN))),
    ))
}

/// The text behind the last dot of a name.
fn last_part(name: &[u8]) -> Option<&[u8]>
    ensures { option_copied result ≡ library.last_part name.now }
{
    let mut part = None;
    for (at, byte) in name.iter().enumerate() {
        if *byte == b'.' {
            part = Some(&name[at + 1..]);
        }
    }
    part
}

/// The number of a text.
fn number_in(pool: &Pool, text: &[u8]) -> Option<u32>
    ensures { result ≡ opening.number_in pool.now text.now }
{
    match static_number(text) {
        Some(number) => Some(u32::from(number)),
        None => pool.find(text),
    }
}

/// How many texts are used behind one that is used, of which this is the number.
#[tactic(auto, unfolding(crate::specs::Opening::use_at))]
fn use_numbered(pool: &Pool, used: u64, n: u32) -> Result<u64, Refused<ImageFault>>
    ensures { Gives (λ used. used) result (opening.use_at pool.now used (Some n)) }
{
    let (_, used) = use_of(pool, used, n)?;
    Ok(used)
}

/// How many texts are used behind one that is used without its number.
#[tactic(auto, unfolding(crate::specs::Opening::use_at))]
fn use_at(pool: &Pool, used: u64, n: Option<u32>) -> Result<u64, Refused<ImageFault>>
    ensures { Gives (λ used. used) result (opening.use_at pool.now used n) }
{
    match n {
        None => Err(Refused::Fault(ImageFault::BadNumber)),
        Some(n) => use_numbered(pool, used, n),
    }
}

/// How many texts are used behind the last part of a name.
#[tactic(auto, unfolding(crate::specs::Opening::use_part))]
pub fn use_part(pool: &Pool, used: u64, name: &[u8]) -> Result<u64, Refused<ImageFault>>
    ensures { Gives (λ used. used) result (opening.use_part pool.now used (library.last_part name.now)) }
{
    match last_part(name) {
        None => Ok(used),
        Some(part) => use_at(pool, used, number_in(pool, part)),
    }
}

/// The entry of a table for a number and its text.
fn qstr_of(alloc: Global, n: u32, text: &[u8]) -> Result<Qstr, Refused<ImageFault>>
    ensures ok { IfOk result (λ q. q ≡ opening.qstr_of n text.now) }
    ensures err { IfErr result (λ e. e ≡ refused.NoMemory) }
{
    if n < FIRST_OWN {
        Ok(Qstr::Static(n as u16))
    } else {
        Ok(Qstr::Own(Text::new(alloc, text)?))
    }
}

/// Adds the entry in front to the table, and gives the bytes behind it.
#[tactic(auto, unfolding(crate::specs::Opening::qstr))]
fn qstr<'a>(
    alloc: Global,
    pool: &Pool,
    table: &mut Table,
    bytes: &'a [u8],
) -> Result<&'a [u8], Refused<ImageFault>>
    ensures { Gives (λ rest. (table.new, rest.now)) result (opening.qstr pool.now table.old bytes.now) }
{
    let (n, rest) = number(bytes)?;
    let (text, used) = use_of(pool, table.used, n)?;
    let entry = qstr_of(alloc, n, text)?;
    table.qstrs.push(entry)?;
    table.used = used;
    Ok(rest)
}

/// `count` entries.
fn qstrs<'a>(alloc: Global, pool: &Pool, count: u32, used: u64, bytes: &'a [u8]) -> Field<'a, Table>
    ensures { Gives (λ found. (found.0, found.1.now)) result
        (times count (opening.qstr pool.now) (record { qstrs = []; used = used }) bytes.now) }
{
    let mut table = Table {
        qstrs: Items::new(alloc),
        used,
    };
    let mut rest = bytes;
    for _ in 0..count {
        rest = qstr(alloc, pool, &mut table, rest)?;
    }
    Ok((table, rest))
}

/// A module's table of texts: its number of entries, and these.
#[tactic(auto, unfolding(crate::specs::Opening::qstr_table))]
pub fn qstr_table<'a>(alloc: Global, pool: &Pool, used: u64, bytes: &'a [u8]) -> Field<'a, Table>
    ensures { Gives (λ found. (found.0, found.1.now)) result (opening.qstr_table pool.now used bytes.now) }
{
    let (n, rest) = count(bytes, MAX_TABLE)?;
    qstrs(alloc, pool, n, used, rest)
}
