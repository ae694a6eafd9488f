//! Images of modules, made over a library.

ghost use Rattle.std.specs.Prelude.{◌≡◌, ◌⊎◌, ◌+◌, ◌<◌, ◌≤◌, ◌^◌, ◌++◌, [], length, drop, map, All, IfOk, OnOk, Err};
ghost use Rattle.mpy_base.specs.declared.limits.TheConstants.{MAX_IMAGE_BYTES, MAX_MODULES, MAX_TABLE};
ghost use Rattle.mpy_base.specs.Vuint.{vuint};
ghost use Rattle.qstr_pool.specs.declared.table.TheConstants.{FIRST_OWN};
ghost use Rattle.mpy_writer.specs.mpy_tree.File.{IsAscii, IsModule};
ghost use Rattle.mpy_writer.specs.Writable.{IsFine};
ghost use Rattle.image_open.specs.bc_verify.Verified.{IsVerified};
ghost use Rattle.image_open.specs.bc_library.Shelf.{names};
ghost use Rattle.image_open.specs.image_grammar.Base.{base_of};
ghost use Rattle.image_open.specs.image_grammar.Image.{Differ, IsImage};
ghost use Rattle.image_open.specs.Opens.{Opens, with_entries};
ghost use Rattle.image_freeze.specs.Ends.{Ends};
ghost use Rattle.image_freeze.specs.Fronts.{MayLieOver, front_of};
ghost use Rattle.image_freeze.specs.Frozen.{FreezeFault, entries_of, image_bytes, parts_of};

use crate::modules::{modules_law, write_modules};
use crate::named::Named;
use crate::names::{first_twice, twice};
use crate::objects::objects_are_short;
use crate::texts::{make_pool, texts_are_short, texts_below, write_texts};
use bc_library::{Library, library_law};
use image_grammar::{ImageFault, count_modules};
use mpy_base::limits::{MAX_DEPTH, MAX_IMAGE_BYTES, MAX_MODULES};
use mpy_base::{NoMemory, Refused, write_vuint};
use qstr_pool::{Pool, pool_law};
use std::alloc::Global;

/// The front with the numbers of texts and modules behind it.
fn with_counts(front: Vec<u8>, texts: u32, modules: u32) -> Result<Vec<u8>, NoMemory>
    requires texts { texts < 2 ^ 31 }
    requires modules { modules < 2 ^ 31 }
    ensures { IfOk result (λ out. out.items ≡ front.items ++ (vuint texts ++ vuint modules)) }
{
    let mut out = front;
    write_vuint(&mut out, texts)?;
    write_vuint(&mut out, modules)?;
    Ok(out)
}

/// The front of an image over the library.
fn front(alloc: Global, version: u8, below: &Library, texts: usize) -> Result<Vec<u8>, NoMemory>
    requires version { MayLieOver (base_of below.now) version }
    requires texts { texts ≡ length below.now.pool.texts }
    requires few { texts ≤ MAX_TABLE }
    ensures { IfOk result (λ out. out.items ≡ front_of version (base_of below.now)) }
{
    library_law(below);
    let start = Vec::from_slice(alloc, &[b'M', b'I', version, 0x1f])?;
    if version == 1 {
        return Ok(start);
    }
    with_counts(start, texts as u32, count_modules(below) as u32)
}

/// Adds what stands behind the front. The first texts of the pool lie below.
fn write_parts(
    alloc: Global,
    out: &mut Vec<u8>,
    pool: &Pool,
    texts_below: usize,
    modules: &[Named],
) -> Result<(), NoMemory>
    requires first { pool.now.first ≡ FIRST_OWN }
    requires within { texts_below ≤ length pool.now.texts }
    requires short { All (λ text. length text ≤ MAX_IMAGE_BYTES) (drop texts_below pool.now.texts) }
    requires few { length modules.now ≤ MAX_MODULES }
    requires read { All (λ m. IsModule m.held) modules.now }
    requires fine { All (λ m. All (IsFine MAX_DEPTH) m.held.objects) modules.now }
    ensures { OnOk result (out.new.items
        ≡ out.old.items ++ parts_of pool.now (drop texts_below pool.now.texts) (entries_of modules.now)) }
{
    pool_law(pool);
    write_vuint(out, (pool.len() - texts_below) as u32)?;
    write_texts(out, pool, texts_below)?;
    write_vuint(out, modules.len() as u32)?;
    write_modules(alloc, out, pool, modules)
}

/// The image over the library of modules whose names differ, or TooBig.
fn image(
    alloc: Global,
    version: u8,
    below: &Library,
    modules: &[Named],
) -> Result<Vec<u8>, Refused<ImageFault>>
    requires version { MayLieOver (base_of below.now) version }
    requires differ { Differ (names below.now) (map (λ m. m.name) modules.now) }
    requires few { length (names below.now) + length modules.now ≤ MAX_MODULES }
    requires ascii { All (λ m. IsAscii m.name) modules.now }
    requires read { All (λ m. IsModule m.held) modules.now }
    ensures ends { Ends (front_of version (base_of below.now)) (base_of below.now) (entries_of modules.now) (λ bytes. bytes.items) result }
    ensures image { IfOk result (λ bytes. IsImage (base_of below.now) (entries_of modules.now) bytes.items) }
{
    let start = texts_below(alloc, below)?;
    pool_law(&start);
    let count = start.len();
    let pool = make_pool(alloc, start, modules)?;
    pool_law(&pool);
    if !texts_are_short(&pool, count) {
        return Err(Refused::Fault(ImageFault::TooBig));
    }
    if !objects_are_short(modules) {
        return Err(Refused::Fault(ImageFault::TooBig));
    }
    let mut out = front(alloc, version, below, count)?;
    write_parts(alloc, &mut out, &pool, count, modules)?;
    if out.len() > MAX_IMAGE_BYTES {
        return Err(Refused::Fault(ImageFault::TooBig));
    }
    Ok(out)
}

/// The image of modules whose names differ, or TooBig where they are too many or it is too long.
fn image_of_few(
    alloc: Global,
    version: u8,
    below: &Library,
    modules: &[Named],
) -> Result<Vec<u8>, Refused<ImageFault>>
    requires version { MayLieOver (base_of below.now) version }
    requires differ { Differ (names below.now) (map (λ m. m.name) modules.now) }
    requires ascii { All (λ m. IsAscii m.name) modules.now }
    requires read { All (λ m. IsModule m.held) modules.now }
    ensures ends { Ends (front_of version (base_of below.now)) (base_of below.now) (entries_of modules.now) (λ bytes. bytes.items) result }
    ensures image { IfOk result (λ bytes. IsImage (base_of below.now) (entries_of modules.now) bytes.items) }
{
    library_law(below);
    if modules.len() > MAX_MODULES - count_modules(below) {
        return Err(Refused::Fault(ImageFault::TooBig));
    }
    image(alloc, version, below, modules)
}

/// The image of modules over the library, or its fault.
fn image_or_fault(
    alloc: Global,
    version: u8,
    below: &Library,
    modules: &[Named],
) -> Result<Vec<u8>, Refused<ImageFault>>
    requires version { MayLieOver (base_of below.now) version }
    requires alone { below.now.refused ≡ [] }
    requires ascii { All (λ m. IsAscii m.name) modules.now }
    requires read { All (λ m. IsModule m.held) modules.now }
    ensures ends { Ends (front_of version (base_of below.now)) (base_of below.now) (entries_of modules.now) (λ bytes. bytes.items) result }
    ensures image { IfOk result (λ bytes. IsImage (base_of below.now) (entries_of modules.now) bytes.items) }
{
    match first_twice(below, modules) {
        Some(name) => Err(twice(alloc, name)),
        None => image_of_few(alloc, version, below, modules),
    }
}

/// Writes modules as an image over the library, of whose texts they use the numbers: of version 1 over a library of no texts and
/// modules, or of version 2. They needn't be verified.
pub fn freeze(
    alloc: Global,
    version: u8,
    below: &Library,
    modules: &[Named],
) -> Result<Vec<u8>, Refused<ImageFault>>
    requires version { MayLieOver (base_of below.now) version }
    requires alone { below.now.refused ≡ [] }
    requires ascii { All (λ m. IsAscii m.name) modules.now }

    // The bytes are an image of the modules over the library, where each text that every file may name has its number, and are
    // opened over it as the library of its modules and these if they are verified.
    ensures written { IfOk result (λ bytes. bytes.items
        ≡ image_bytes (front_of version (base_of below.now)) (base_of below.now) (entries_of modules.now)) }
    ensures image { IfOk result (λ bytes. IsImage (base_of below.now) (entries_of modules.now) bytes.items) }
    ensures opens { All (λ m. IsVerified m.held) modules.now
        → IfOk result (λ bytes. Opens below.now bytes.items (with_entries below.now (entries_of modules.now))) }

    // A fault comes exactly where there is one, unless memory runs out.
    ensures first { (fault : ImageFault) → result ≡ Err (Refused.Fault fault)
        → FreezeFault (front_of version (base_of below.now)) (base_of below.now) (entries_of modules.now) fault }
    ensures fault { (fault : ImageFault)
        → FreezeFault (front_of version (base_of below.now)) (base_of below.now) (entries_of modules.now) fault
        → (result ≡ Err (Refused.Fault fault)) ⊎ (result ≡ Err Refused.NoMemory) }
{
    modules_law(modules);
    image_or_fault(alloc, version, below, modules)
}
