//! The texts of an image's own.

ghost use Rattle.std.specs.Prelude.{◌≡◌, ◌+◌, ◌<◌, ◌≤◌, length, IsTrue, ◌↔◌, OnOk};
ghost use Rattle.mpy_base.specs.declared.limits.TheConstants.{MAX_TABLE};
ghost use Rattle.image_grammar.specs.Opening as opening;
ghost use Rattle.image_grammar.specs.Opening.{IsNew, with_last};
ghost use Rattle.image_grammar.specs.Steps.{Gives, times};

use crate::fault::ImageFault;
use crate::field::{Field, count, number, own_of, taken};
use mpy_base::limits::MAX_TABLE;
use mpy_base::{NoMemory, Refused};
use qstr_pool::{Pool, pool_law, static_number};
use std::alloc::Global;

/// Whether the text has no number yet, neither a static one nor in the pool.
fn is_new(pool: &Pool, text: &[u8]) -> bool
    ensures { IsTrue result ↔ IsNew pool.now text.now }
{
    static_number(text).is_none() && pool.find(text).is_none()
}

/// Puts a text behind those of the pool.
fn add_text(alloc: Global, pool: &mut Pool, text: &[u8]) -> Result<(), NoMemory>
    requires new { IsNew pool.old text.now }
    requires room { length pool.old.texts < MAX_TABLE }
    ensures { OnOk result (pool.new ≡ with_last pool.old text.now) }
{
    match pool.intern(alloc, text) {
        Ok(_) => Ok(()),
        Err(_) => Err(NoMemory),
    }
}

/// Adds the text in front, and gives the bytes behind it.
#[tactic(auto, unfolding(crate::specs::Opening::own_text))]
fn own_text<'a>(
    alloc: Global,
    pool: &mut Pool,
    bytes: &'a [u8],
) -> Result<&'a [u8], Refused<ImageFault>>
    requires { length pool.old.texts < MAX_TABLE }
    ensures { Gives (λ rest. (pool.new, rest.now)) result (opening.own_text pool.old bytes.now) }
{
    let (len, rest) = number(bytes)?;
    let (whole, rest) = taken(rest, len as usize + 1)?;
    let own = own_of(whole)?;
    if !is_new(pool, own) {
        return Err(Refused::Fault(ImageFault::BadNumber));
    }
    add_text(alloc, pool, own)?;
    Ok(rest)
}

/// The pool with `count` texts in front behind its own.
fn own_texts(alloc: Global, pool: Pool, count: u32, bytes: &[u8]) -> Field<'_, Pool>
    requires { length pool.texts + count ≤ MAX_TABLE }
    ensures { Gives (λ found. (found.0, found.1.now)) result (times count opening.own_text pool bytes.now) }
{
    let mut pool = pool;
    let mut rest = bytes;
    for _ in 0..count {
        rest = own_text(alloc, &mut pool, rest)?;
    }
    Ok((pool, rest))
}

/// The pool of an image over the texts of the pool: its number of texts, and these, which go behind them.
#[tactic(auto, unfolding(crate::specs::Opening::table))]
pub fn table(alloc: Global, pool: Pool, bytes: &[u8]) -> Field<'_, Pool>
    ensures { Gives (λ found. (found.0, found.1.now)) result (opening.table pool bytes.now) }
{
    pool_law(&pool);
    let (n, rest) = count(bytes, MAX_TABLE - pool.len())?;
    own_texts(alloc, pool, n, rest)
}
