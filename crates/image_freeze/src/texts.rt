//! The texts of modules, in the order of their first use.

ghost use Rattle.std.specs.Prelude.{◌≡◌, ◌<◌, ◌≤◌, ◌++◌, [], ◌∷◌, length, drop, All, None, false, IsTrue, IfOk, OnOk, option_copied};
ghost use Rattle.std.specs.List.{filter_map, flat_map};
ghost use Rattle.std.specs.Option.{option_to_list};
ghost use Rattle.mpy_base.specs.declared.limits.TheConstants.{MAX_TABLE};
ghost use Rattle.qstr_pool.specs.Static.{static_number_of};
ghost use Rattle.mpy_writer.specs.mpy_tree.Raw as raw;
ghost use Rattle.image_open.specs.bc_library.Texts as library;
ghost use Rattle.image_open.specs.bc_library.Texts.{texts_of, with_text, with_texts};
ghost use Rattle.image_open.specs.image_grammar.Image.{texts_used};
ghost use Rattle.image_open.specs.image_grammar.declared.fault.ImageFault.TheVariants.{TooBig};
ghost use Rattle.image_open.specs.image_grammar.Opening.{pool_below};
ghost use Rattle.image_open.specs.bc_library.Own.{IsOwnPool};
ghost use Rattle.image_open.specs.image_grammar.Base.{base_of};
ghost use Rattle.image_freeze.specs.Frozen.{entries_of, own_bytes};
ghost use Rattle.image_freeze.specs.Uses.{IfFault, PassesTable};

use crate::named::Named;
use bc_library::Library;
use image_grammar::{ImageFault, copy_texts};
use mpy_base::limits::MAX_IMAGE_BYTES;
use mpy_base::{NoMemory, Refused, write_vuint};
use mpy_tree::Qstr;
use qstr_pool::{FIRST_OWN, Pool, pool_law, static_number, static_text};
use std::alloc::Global;

/// The text behind the last dot of a name.
fn last_part(name: &[u8]) -> Option<&[u8]>
    ensures { option_copied result ≡ library.last_part name.now }
{
    let mut part = None;
    for (at, byte) in name.iter().enumerate() {
        if *byte == b'.' {
            part = Some(&name[at + 1..]);
        }
    }
    part
}

/// The text of an entry of a module's table.
fn qstr_text(qstr: &Qstr) -> Option<&[u8]>
    ensures { option_copied result ≡ raw.text_of qstr.now }
{
    match qstr {
        Qstr::Static(number) => static_text(*number),
        Qstr::Own(text) => Some(text.bytes()),
    }
}

/// Uses a text that no file may name by a static number: it goes last, unless it is there.
fn use_own(alloc: Global, pool: &mut Pool, text: &[u8]) -> Result<(), Refused<ImageFault>>
    requires { static_number_of text.now ≡ None }
    ensures ok { OnOk result (pool.new ≡ with_text pool.old text.now) }
    ensures fault { IfFault result (PassesTable pool.old (text.now ∷ [])) }
{
    match pool.intern(alloc, text) {
        Ok(_) => Ok(()),
        Err(Refused::Fault(_)) => Err(Refused::Fault(ImageFault::TooBig)),
        Err(Refused::NoMemory) => Err(Refused::NoMemory),
    }
}

/// Uses a text: it goes last, unless every file may name it or it is there.
fn use_text(alloc: Global, pool: &mut Pool, text: &[u8]) -> Result<(), Refused<ImageFault>>
    ensures ok { OnOk result (pool.new ≡ with_text pool.old text.now) }
    ensures fault { IfFault result (PassesTable pool.old (text.now ∷ [])) }
{
    match static_number(text) {
        Some(_) => Ok(()),
        None => use_own(alloc, pool, text),
    }
}

/// Uses a text where there is one.
fn use_some(alloc: Global, pool: &mut Pool, text: Option<&[u8]>) -> Result<(), Refused<ImageFault>>
    ensures ok { OnOk result (pool.new ≡ with_texts pool.old (option_to_list (option_copied text.entry))) }
    ensures fault { IfFault result (PassesTable pool.old (option_to_list (option_copied text.entry))) }
{
    match text {
        Some(text) => use_text(alloc, pool, text),
        None => Ok(()),
    }
}

/// Uses the texts of a table.
fn use_table(alloc: Global, pool: &mut Pool, qstrs: &[Qstr]) -> Result<(), Refused<ImageFault>>
    ensures ok { OnOk result (pool.new ≡ with_texts pool.old (filter_map raw.text_of qstrs.now)) }
    ensures fault { IfFault result (PassesTable pool.old (filter_map raw.text_of qstrs.now)) }
{
    for qstr in qstrs {
        use_some(alloc, pool, qstr_text(qstr))?;
    }
    Ok(())
}

/// Uses the texts of a module: its name, the last part of a name with a dot, and those of its table.
fn use_module(alloc: Global, pool: &mut Pool, module: &Named) -> Result<(), Refused<ImageFault>>
    ensures ok { OnOk result (pool.new ≡ with_texts pool.old (texts_of module.now.name module.now.held)) }
    ensures fault { IfFault result (PassesTable pool.old (texts_of module.now.name module.now.held)) }
{
    let name = module.name.bytes();
    use_text(alloc, pool, name)?;
    use_some(alloc, pool, last_part(name))?;
    use_table(alloc, pool, module.held.qstrs())
}

/// Uses the texts of the modules.
fn use_modules(alloc: Global, pool: &mut Pool, modules: &[Named]) -> Result<(), Refused<ImageFault>>
    ensures ok { OnOk result (pool.new ≡ with_texts pool.old (flat_map (λ m. texts_of m.name m.held) modules.now)) }
    ensures fault { IfFault result (PassesTable pool.old (flat_map (λ m. texts_of m.name m.held) modules.now)) }
{
    for module in modules {
        use_module(alloc, pool, module)?;
    }
    Ok(())
}

/// A pool of the texts of the library.
pub(crate) fn texts_below(alloc: Global, below: &Library) -> Result<Pool, Refused<ImageFault>>
    ensures ok { IfOk result (λ pool. pool ≡ pool_below (base_of below.now)) }
    ensures own { IfOk result IsOwnPool }
    ensures fault { IfFault result (λ fault. (fault ≡ TooBig) × (MAX_TABLE < length below.now.pool.texts)) }
{
    match copy_texts(alloc, below) {
        Ok(pool) => Ok(pool),
        Err(Refused::Fault(_)) => Err(Refused::Fault(ImageFault::TooBig)),
        Err(Refused::NoMemory) => Err(Refused::NoMemory),
    }
}

/// The pool with the texts that the modules use.
pub(crate) fn make_pool(
    alloc: Global,
    below: Pool,
    modules: &[Named],
) -> Result<Pool, Refused<ImageFault>>
    ensures ok { IfOk result (λ pool. pool ≡ with_texts below (texts_used (entries_of modules.now))) }
    ensures fault { IfFault result (PassesTable below (texts_used (entries_of modules.now))) }
{
    let mut pool = below;
    use_modules(alloc, &mut pool, modules)?;
    Ok(pool)
}

/// Whether no text of the pool behind those below is longer than an image may be.
pub(crate) fn texts_are_short(pool: &Pool, texts_below: usize) -> bool
    requires first { pool.now.first ≡ FIRST_OWN }
    requires within { texts_below ≤ length pool.now.texts }
    ensures short { IsTrue result → All (λ text. length text ≤ MAX_IMAGE_BYTES) (drop texts_below pool.now.texts) }
    ensures long { result ≡ false → MAX_IMAGE_BYTES < length (flat_map own_bytes (drop texts_below pool.now.texts)) }
{
    pool_law(pool);
    for place in 0..pool.len() - texts_below {
        let number = FIRST_OWN + (texts_below + place) as u32;
        if pool.text(number).unwrap().len() > MAX_IMAGE_BYTES {
            return false;
        }
    }
    true
}

/// Adds a text of the image's own.
fn write_text(out: &mut Vec<u8>, text: &[u8]) -> Result<(), NoMemory>
    requires { length text.now ≤ MAX_IMAGE_BYTES }
    ensures { OnOk result (out.new.items ≡ out.old.items ++ own_bytes text.now) }
{
    write_vuint(out, text.len() as u32)?;
    out.extend_from_slice(text)?;
    out.push(0)?;
    Ok(())
}

/// Adds the texts of the pool behind those below.
pub(crate) fn write_texts(
    out: &mut Vec<u8>,
    pool: &Pool,
    texts_below: usize,
) -> Result<(), NoMemory>
    requires first { pool.now.first ≡ FIRST_OWN }
    requires within { texts_below ≤ length pool.now.texts }
    requires short { All (λ text. length text ≤ MAX_IMAGE_BYTES) (drop texts_below pool.now.texts) }
    ensures { OnOk result (out.new.items ≡ out.old.items ++ flat_map own_bytes (drop texts_below pool.now.texts)) }
{
    pool_law(pool);
    for place in 0..pool.len() - texts_below {
        let number = FIRST_OWN + (texts_below + place) as u32;
        write_text(out, pool.text(number).unwrap())?;
    }
    Ok(())
}
