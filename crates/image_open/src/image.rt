//! The modules of an image over a library, read from its first byte on and verified one after another.

ghost use Rattle.std.specs.Prelude.{◌≡◌, ◌↔◌, ◌⊎◌, ◌≤◌, [], length, Err, IfOk, IsTrue};
ghost use Rattle.mpy_base.specs.declared.limits.TheConstants.{MAX_IMAGE_BYTES};
ghost use Rattle.image_grammar.specs.Opening as opening;
ghost use Rattle.image_grammar.specs.Opening.{pool_below};
ghost use Rattle.qstr_pool.specs.Pool.{all_differ};
ghost use Rattle.image_grammar.specs.bc_library.Own.{IsOwnPool};
ghost use Rattle.image_grammar.specs.Fine.{IsFinePool};
ghost use Rattle.image_grammar.specs.Base.{IsOpened, base_of};
ghost use Rattle.image_open.specs.Counts.{AreCounts};
ghost use Rattle.image_grammar.specs.Steps.{Gives};

use crate::entry::modules;
use image_grammar::{Entry, Field, ImageFault, Library, copy_texts, count_modules, number, table};
use mpy_base::limits::MAX_IMAGE_BYTES;
use mpy_base::{Items, NoMemory, Refused};
use qstr_pool::{Pool, pool_law};
use std::alloc::Global;

/// The version, in the bytes in front.
fn header(bytes: &[u8]) -> Field<'_, u8>
    ensures { Gives (λ found. (found.0, found.1.now)) result (opening.header bytes.now) }
{
    match bytes {
        [b'M', b'I', version, 0x1f, rest @ ..] if *version == 1 || *version == 2 => {
            Ok((*version, rest))
        }
        _ => Err(Refused::Fault(ImageFault::BadHeader)),
    }
}

/// Whether these are the numbers of the library's texts and modules.
fn are_counts(below: &Library, texts_below: usize, texts: u32, modules: u32) -> bool
    requires { texts_below ≡ length below.now.pool.texts }
    ensures { IsTrue result ↔ AreCounts (base_of below.now) texts modules }
{
    let modules_below = count_modules(below);
    texts as usize == texts_below && modules as usize == modules_below
}

/// The bytes behind the numbers of texts and modules below, where these are the library's.
#[tactic(auto, unfolding(image_grammar::specs::Opening::counts_below))]
fn counts_below<'a>(
    below: &Library,
    texts_below: usize,
    bytes: &'a [u8],
) -> Result<&'a [u8], Refused<ImageFault>>
    requires { texts_below ≡ length below.now.pool.texts }
    ensures { Gives (λ rest. rest.now) result (opening.counts_below (base_of below.now) bytes.now) }
{
    let (texts, rest) = number(bytes)?;
    let (names, rest) = number(rest)?;
    if !are_counts(below, texts_below, texts, names) {
        return Err(Refused::Fault(ImageFault::BadBase));
    }
    Ok(rest)
}

/// These bytes, where the library has no texts and no modules.
#[tactic(auto, unfolding(image_grammar::specs::Opening::nothing_is_below))]
fn nothing_is_below<'a>(
    below: &Library,
    texts_below: usize,
    bytes: &'a [u8],
) -> Result<&'a [u8], Refused<ImageFault>>
    requires { texts_below ≡ length below.now.pool.texts }
    ensures { Gives (λ rest. rest.now) result (opening.nothing_is_below (base_of below.now) bytes.now) }
{
    if !are_counts(below, texts_below, 0, 0) {
        return Err(Refused::Fault(ImageFault::BadBase));
    }
    Ok(bytes)
}

/// The bytes behind what an image of this version tells of what it lies over.
fn base<'a>(
    below: &Library,
    texts_below: usize,
    version: u8,
    bytes: &'a [u8],
) -> Result<&'a [u8], Refused<ImageFault>>
    requires { texts_below ≡ length below.now.pool.texts }
    ensures { Gives (λ rest. rest.now) result (opening.base (base_of below.now) version bytes.now) }
{
    if version == 1 {
        return nothing_is_below(below, texts_below, bytes);
    }
    counts_below(below, texts_below, bytes)
}

/// The modules of the parts behind that. The pool has the library's texts.
#[tactic(auto, unfolding(image_grammar::specs::Opening::parts))]
fn parts(
    alloc: Global,
    below: &Library,
    pool: Pool,
    bytes: &[u8],
) -> Result<Items<Entry>, Refused<ImageFault>>
    requires alone { below.now.refused ≡ [] }
    requires pool { pool ≡ pool_below (base_of below.now) }
    requires fine { IsFinePool pool }
    requires short { length bytes.now ≤ MAX_IMAGE_BYTES }
    ensures { Gives (λ entries. entries) result (opening.parts (base_of below.now) bytes.now) }
{
    let used = pool.len() as u64;
    let (pool, rest) = table(alloc, pool, bytes)?;
    let (opened, rest) = modules(alloc, below, &pool, used, rest)?;
    if opened.used != pool.len() as u64 {
        return Err(Refused::Fault(ImageFault::BadNumber));
    }
    if !rest.is_empty() {
        return Err(Refused::Fault(ImageFault::Trailing));
    }
    Ok(opened.entries)
}

/// The modules of the image. The pool has the library's texts.
#[tactic(auto, unfolding(image_grammar::specs::Opening::image))]
fn image(
    alloc: Global,
    below: &Library,
    pool: Pool,
    bytes: &[u8],
) -> Result<Items<Entry>, Refused<ImageFault>>
    requires alone { below.now.refused ≡ [] }
    requires pool { pool ≡ pool_below (base_of below.now) }
    requires fine { IsFinePool pool }
    ensures { Gives (λ entries. entries) result (opening.image (base_of below.now) bytes.now) }
{
    if bytes.len() > MAX_IMAGE_BYTES {
        return Err(Refused::Fault(ImageFault::TooBig));
    }
    let (version, rest) = header(bytes)?;
    let rest = base(below, pool.len(), version, rest)?;
    parts(alloc, below, pool, rest)
}

/// A pool of the texts of the library.
fn texts_below(alloc: Global, below: &Library) -> Result<Pool, NoMemory>
    requires { IsOpened below.now }
    ensures pool { IfOk result (λ pool. pool ≡ pool_below (base_of below.now)) }
    ensures fine { IfOk result IsFinePool }
    ensures proper { IfOk result (λ pool. IsOwnPool pool × IsTrue (all_differ pool.texts)) }
{
    match copy_texts(alloc, below) {
        Ok(pool) => {
            pool_law(&pool);
            Ok(pool)
        }
        Err(Refused::NoMemory) => Err(NoMemory),
        Err(Refused::Fault(_)) => unreachable!(),
    }
}

/// Reads an image over the library, of version 1 or 2: its modules in order, each with its name and verified, or the first
/// fault in the order of its bytes.
pub fn read_image(
    alloc: Global,
    below: &Library,
    bytes: &[u8],
) -> Result<Items<Entry>, Refused<ImageFault>>
    requires { IsOpened below.now }
    ensures read { Gives (λ entries. entries) result (opening.image (base_of below.now) bytes.now) }
    ensures proper { (IsOwnPool (pool_below (base_of below.now)) × IsTrue (all_differ below.now.pool.texts))
        ⊎ (result ≡ Err Refused.NoMemory) }
{
    let pool = texts_below(alloc, below)?;
    image(alloc, below, pool, bytes)
}
