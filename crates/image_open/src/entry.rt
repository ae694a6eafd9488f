//! The modules of an image.

ghost use Rattle.std.specs.Prelude.{◌≡◌, ◌↔◌, ◌⊎◌, ◌<◌, ◌≤◌, [], ◌++◌, length, Contains, IsTrue, IfOk};
ghost use Rattle.std.specs.List.{list_any};
ghost use Rattle.std.specs.Str.{bytes_eq};
ghost use Rattle.mpy_base.specs.declared.limits.TheConstants.{MAX_MODULES};
ghost use Rattle.mpy_base.specs.declared.refused.Refused.TheVariants as refused;
ghost use Rattle.image_grammar.specs.bc_library.Shelf.{names};
ghost use Rattle.image_grammar.specs.bc_verify.Verified.{IsVerified};
ghost use Rattle.image_grammar.specs.Base.{base_of};
ghost use Rattle.image_grammar.specs.Opening as opening;
ghost use Rattle.image_grammar.specs.Opening.{names_of};
ghost use Rattle.image_grammar.specs.Fine.{IsFinePool};
ghost use Rattle.image_grammar.specs.Steps.{Gives, judge, times};
ghost use Rattle.image_grammar.specs.declared.fault.ImageFault.TheVariants as faults;

use bc_verify::{Verified, verify};
use image_grammar::{
    Entry, Field, ImageFault, Library, Opened, Table, count, count_modules, has_name, library_law,
    number, qstr_table, use_of, use_part,
};
use mpy_base::limits::MAX_MODULES;
use mpy_base::{Items, Refused, Text};
use mpy_reader::{FileFault, ModuleBody, read_body};
use mpy_tree::RawModule;
use qstr_pool::Pool;
use std::alloc::Global;

/// Whether one of the modules has the name.
fn is_among(entries: &[Entry], name: &[u8]) -> bool
    ensures { result ≡ list_any (λ entry. bytes_eq name.now entry.name) entries.now }
{
    entries.iter().any(|entry| name == entry.name.bytes())
}

/// Whether a module below or one of these has the name.
fn is_named(below: &Library, entries: &[Entry], name: &[u8]) -> bool
    requires { below.now.refused ≡ [] }
    ensures { IsTrue result ↔ Contains (names below.now ++ names_of entries.now) name.now }
{
    if has_name(below, name) {
        return true;
    }
    is_among(entries, name)
}

/// The fault of a second module of the name.
fn twice(alloc: Global, name: &[u8]) -> Refused<ImageFault>
    ensures { (result ≡ refused.Fault (faults.Twice name.now)) ⊎ (result ≡ refused.NoMemory) }
{
    match Text::new(alloc, name) {
        Ok(name) => Refused::Fault(ImageFault::Twice(name)),
        Err(_) => Refused::NoMemory,
    }
}

/// The name of a module, and how many texts are used behind it.
#[tactic(auto, unfolding(image_grammar::specs::Opening::name))]
fn title<'a>(
    alloc: Global,
    below: &Library,
    pool: &Pool,
    opened: &Opened,
    bytes: &'a [u8],
) -> Field<'a, (Text, u64)>
    requires { below.now.refused ≡ [] }
    ensures { Gives (λ found. (found.0, found.1.now)) result
        (opening.name (base_of below.now) pool.now opened.now bytes.now) }
{
    let (n, rest) = number(bytes)?;
    let (name, used) = use_of(pool, opened.used, n)?;
    if is_named(below, opened.entries.as_slice(), name) {
        return Err(twice(alloc, name));
    }
    let used = use_part(pool, used, name)?;
    Ok(((Text::new(alloc, name)?, used), rest))
}

/// The objects and the code of the module at the place.
fn body(alloc: Global, index: u32, texts: u32, bytes: &[u8]) -> Field<'_, ModuleBody>
    ensures { Gives (λ found. ((found.0.objects, found.0.code), found.1.now)) result (opening.body index texts bytes.now) }
{
    match read_body(alloc, bytes, texts) {
        Ok(found) => Ok(found),
        Err(Refused::NoMemory) => Err(Refused::NoMemory),
        Err(Refused::Fault(FileFault::Truncated)) => Err(Refused::Fault(ImageFault::Truncated)),
        Err(Refused::Fault(_)) => Err(Refused::Fault(ImageFault::BadModule(index))),
    }
}

/// The module at the place where it is verified.
fn verified(alloc: Global, index: u32, raw: RawModule) -> Result<Verified, Refused<ImageFault>>
    ensures same { IfOk result (λ v. v ≡ raw) }
    ensures verified { Gives (λ _. tt) result (judge (IsVerified raw) (faults.BadModule index)) }
{
    match verify(alloc, raw) {
        Ok(verified) => Ok(verified),
        Err((Refused::NoMemory, _)) => Err(Refused::NoMemory),
        Err((Refused::Fault(_), _)) => Err(Refused::Fault(ImageFault::BadModule(index))),
    }
}

/// The module at the place behind its name, and how many texts are used behind it.
#[tactic(auto, unfolding(image_grammar::specs::Opening::raw))]
fn raw<'a>(
    alloc: Global,
    pool: &Pool,
    index: u32,
    used: u64,
    bytes: &'a [u8],
) -> Field<'a, (RawModule, u64)>
    requires { IsFinePool pool.now }
    ensures { Gives (λ found. (found.0, found.1.now)) result (opening.raw pool.now index used bytes.now) }
{
    let (table, rest) = qstr_table(alloc, pool, used, bytes)?;
    let Table { qstrs, used } = table;
    let texts = qstrs.len() as u32;
    let (found, rest) = body(alloc, index, texts, rest)?;
    let ModuleBody { objects, code } = found;
    Ok(((RawModule::new(31, qstrs, objects, code), used), rest))
}

/// The verified module at the place behind its name, and how many texts are used behind it.
#[tactic(auto, unfolding(image_grammar::specs::Opening::held))]
fn held<'a>(
    alloc: Global,
    pool: &Pool,
    index: u32,
    used: u64,
    bytes: &'a [u8],
) -> Field<'a, (Verified, u64)>
    requires { IsFinePool pool.now }
    ensures { Gives (λ found. (found.0, found.1.now)) result (opening.held pool.now index used bytes.now) }
{
    let ((raw, used), rest) = raw(alloc, pool, index, used, bytes)?;
    Ok(((verified(alloc, index, raw)?, used), rest))
}

/// Adds the module in front to those that were read, and gives the bytes behind it.
#[tactic(auto, unfolding(image_grammar::specs::Opening::entry))]
fn add_entry<'a>(
    alloc: Global,
    below: &Library,
    pool: &Pool,
    opened: &mut Opened,
    bytes: &'a [u8],
) -> Result<&'a [u8], Refused<ImageFault>>
    requires alone { below.now.refused ≡ [] }
    requires fine { IsFinePool pool.now }
    requires few { length opened.old.entries < MAX_MODULES }
    ensures { Gives (λ rest. (opened.new, rest.now)) result
        (opening.entry (base_of below.now) pool.now opened.old bytes.now) }
{
    let index = opened.entries.len() as u32;
    let ((name, used), rest) = title(alloc, below, pool, opened, bytes)?;
    let ((held, used), rest) = held(alloc, pool, index, used, rest)?;
    opened.entries.push(Entry { name, held })?;
    opened.used = used;
    Ok(rest)
}

/// `count` modules, of which the first stands where `used` texts are used.
fn entries<'a>(
    alloc: Global,
    below: &Library,
    pool: &Pool,
    used: u64,
    count: u32,
    bytes: &'a [u8],
) -> Field<'a, Opened>
    requires alone { below.now.refused ≡ [] }
    requires used { used ≡ length below.now.pool.texts }
    requires fine { IsFinePool pool.now }
    requires few { count ≤ MAX_MODULES }
    ensures { Gives (λ found. (found.0, found.1.now)) result
        (times count (opening.entry (base_of below.now) pool.now) (opening.none_opened (base_of below.now)) bytes.now) }
{
    let mut opened = Opened {
        entries: Items::new(alloc),
        used,
    };
    let mut rest = bytes;
    for _ in 0..count {
        rest = add_entry(alloc, below, pool, &mut opened, rest)?;
    }
    Ok((opened, rest))
}

/// The modules of an image over the library, whose pool has `used` texts: their number, and these.
#[tactic(auto, unfolding(image_grammar::specs::Opening::modules))]
pub(crate) fn modules<'a>(
    alloc: Global,
    below: &Library,
    pool: &Pool,
    used: u64,
    bytes: &'a [u8],
) -> Field<'a, Opened>
    requires alone { below.now.refused ≡ [] }
    requires used { used ≡ length below.now.pool.texts }
    requires fine { IsFinePool pool.now }
    ensures { Gives (λ found. (found.0, found.1.now)) result (opening.modules (base_of below.now) pool.now bytes.now) }
{
    library_law(below);
    let (n, rest) = count(bytes, MAX_MODULES - count_modules(below))?;
    entries(alloc, below, pool, used, n, rest)
}
