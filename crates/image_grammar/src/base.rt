//! The texts and the modules of a library.

ghost use Rattle.std.specs.Prelude.{◌≡◌, ◌↔◌, ◌<◌, ◌≤◌, [], length, Contains, Some, Err, false, IsTrue, IfOk, IfSome};
ghost use Rattle.std.specs.Prelude.{option_copied, option_and_then, slice_get};
ghost use Rattle.mpy_base.specs.declared.limits.TheConstants.{MAX_TABLE};
ghost use Rattle.mpy_base.specs.declared.refused.Refused.TheVariants as refused;
ghost use Rattle.qstr_pool.specs.Full.{pool_full};
ghost use Rattle.bc_library.specs.Own.{IsOwnPool};
ghost use Rattle.bc_library.specs.Shelf.{names, no_entries};
ghost use Rattle.bc_library.specs.Texts.{IsPlain};

use arena_heap::{Constants, StrNo};
use bc_library::{Library, library_law};
use mpy_base::limits::{MAX_MODULES, MAX_TABLE};
use mpy_base::{NoMemory, Refused};
use qstr_pool::{FIRST_OWN, Full, Pool};
use std::alloc::Global;

/// How many modules the library has.
pub fn count_modules(lib: &Library) -> usize
    ensures { result ≡ length lib.now.modules }
{
    library_law(lib);
    for number in 0..MAX_MODULES {
        match lib.module(number as u32) {
            Some(_) => {}
            None => return number,
        }
    }
    MAX_MODULES
}

/// Whether a module of a library, which has no refused entry, has the name.
pub fn has_name(lib: &Library, name: &[u8]) -> bool
    requires { lib.now.refused ≡ [] }
    ensures { IsTrue result ↔ Contains (names lib.now) name.now }
{
    match lib.find(name) {
        Some(_) => true,
        None => false,
    }
}

/// The name of a module.
pub fn name_of(lib: &Library, number: u32) -> Option<&[u8]>
    ensures name { option_copied result ≡ option_and_then (λ n. Some n.name) (slice_get lib.now.modules number) }
    ensures plain { IfSome result (λ name. IsPlain name.now) }
{
    let title = lib.title(number)?;
    lib.text(StrNo::Pool(title.name))
}

/// Whether the library has more texts than a pool holds.
fn has_many_texts(lib: &Library) -> bool
    ensures many { IsTrue result → MAX_TABLE < length lib.now.pool.texts }
    ensures few { result ≡ false → length lib.now.pool.texts ≤ MAX_TABLE }
{
    library_law(lib);
    match lib.text(StrNo::Pool(FIRST_OWN + MAX_TABLE as u32)) {
        Some(_) => true,
        None => false,
    }
}

/// The pool of no texts.
fn no_texts(alloc: Global) -> Result<Pool, NoMemory>
    ensures { IfOk result (λ pool. pool ≡ no_entries.pool) }
{
    Pool::new(alloc, FIRST_OWN)
}

/// A pool of the library's texts, or Full where they are more than a pool holds.
pub fn copy_texts(alloc: Global, lib: &Library) -> Result<Pool, Refused<Full>>
    ensures copied { IfOk result (λ pool. pool ≡ lib.now.pool) }
    ensures own { IfOk result IsOwnPool }
    ensures full { result ≡ Err (refused.Fault pool_full) → MAX_TABLE < length lib.now.pool.texts }
{
    library_law(lib);
    if has_many_texts(lib) {
        return Err(Refused::Fault(Full));
    }
    let mut pool = no_texts(alloc)?;
    for place in 0..MAX_TABLE {
        let Some(text) = lib.text(StrNo::Pool(FIRST_OWN + place as u32)) else {
            return Ok(pool);
        };
        match pool.intern(alloc, text) {
            Ok(_) => {}
            Err(_) => return Err(Refused::NoMemory),
        }
    }
    Ok(pool)
}
