//! Modules as an image has them.

ghost use Rattle.std.specs.Prelude.{◌≡◌, ◌<◌, ◌≤◌, ◌^◌, ◌++◌, length, All, OnOk};
ghost use Rattle.std.specs.List.{flat_map};
ghost use Rattle.qstr_pool.specs.declared.table.TheConstants.{FIRST_OWN};
ghost use Rattle.mpy_base.specs.declared.limits.TheConstants.{MAX_TABLE};
ghost use Rattle.mpy_base.specs.Vuint.{vuint};
ghost use Rattle.mpy_writer.specs.mpy_tree.Canonical.{object_bytes};
ghost use Rattle.mpy_writer.specs.mpy_tree.File.{IsModule};
ghost use Rattle.mpy_writer.specs.Writable.{IsFine};
ghost use Rattle.image_open.specs.image_grammar.Opening.{entry_of};
ghost use Rattle.image_freeze.specs.Frozen as frozen;
ghost use Rattle.image_freeze.specs.Frozen.{body_bytes, entries_of, entry_bytes, number_bytes};

use crate::codes::write_tree;
use crate::named::Named;
use mpy_base::limits::MAX_DEPTH;
use mpy_base::{NoMemory, write_vuint};
use mpy_tree::{Constant, Qstr, RawModule, module_law};
use mpy_writer::write_constants;
use qstr_pool::{Pool, static_number};
use std::alloc::Global;

/// What holds of each of the modules.
pub(crate) fn modules_law(modules: &[Named])
    ensures { All (λ m. IsModule m.held) modules.now }
{
    for module in modules {
        module_law(&module.held);
    }
}

/// The number of a text, and 0 of one that has none.
fn text_number(pool: &Pool, text: &[u8]) -> u32
    requires { pool.now.first ≡ FIRST_OWN }
    ensures number { result ≡ frozen.text_number pool.now text.now }
    ensures small { result < 2 ^ 31 }
{
    match static_number(text) {
        Some(number) => u32::from(number),
        None => pool.find(text).unwrap_or(0),
    }
}

/// The number of an entry's text.
fn qstr_number(pool: &Pool, qstr: &Qstr) -> u32
    requires { pool.now.first ≡ FIRST_OWN }
    ensures number { result ≡ frozen.qstr_number pool.now qstr.now }
    ensures small { result < 2 ^ 31 }
{
    match qstr {
        Qstr::Static(number) => u32::from(*number),
        Qstr::Own(text) => text_number(pool, text.bytes()),
    }
}

/// Adds the numbers of texts.
fn write_numbers(out: &mut Vec<u8>, pool: &Pool, qstrs: &[Qstr]) -> Result<(), NoMemory>
    requires { pool.now.first ≡ FIRST_OWN }
    ensures { OnOk result (out.new.items ≡ out.old.items ++ flat_map (number_bytes pool.now) qstrs.now) }
{
    for qstr in qstrs {
        write_vuint(out, qstr_number(pool, qstr))?;
    }
    Ok(())
}

/// Adds a table of texts by their numbers.
fn write_table(out: &mut Vec<u8>, pool: &Pool, qstrs: &[Qstr]) -> Result<(), NoMemory>
    requires first { pool.now.first ≡ FIRST_OWN }
    requires few { length qstrs.now ≤ MAX_TABLE }
    ensures { OnOk result (out.new.items ≡ out.old.items ++ (vuint (length qstrs.now) ++ flat_map (number_bytes pool.now) qstrs.now)) }
{
    write_vuint(out, qstrs.len() as u32)?;
    write_numbers(out, pool, qstrs)
}

/// Adds a table of objects.
fn write_objects(alloc: Global, out: &mut Vec<u8>, objects: &[Constant]) -> Result<(), NoMemory>
    requires few { length objects.now ≤ MAX_TABLE }
    requires fine { All (IsFine MAX_DEPTH) objects.now }
    ensures { OnOk result (out.new.items ≡ out.old.items ++ (vuint (length objects.now) ++ flat_map (object_bytes MAX_DEPTH) objects.now)) }
{
    write_vuint(out, objects.len() as u32)?;
    write_constants(alloc, out, objects)
}

/// Adds the objects and the code of a module.
fn write_body(alloc: Global, out: &mut Vec<u8>, raw: &RawModule) -> Result<(), NoMemory>
    requires read { IsModule raw.now }
    requires fine { All (IsFine MAX_DEPTH) raw.now.objects }
    ensures { OnOk result (out.new.items ≡ out.old.items ++ body_bytes raw.now) }
{
    write_objects(alloc, out, raw.objects())?;
    write_tree(out, raw.code(), MAX_DEPTH)
}

/// Adds a module.
fn write_module(
    alloc: Global,
    out: &mut Vec<u8>,
    pool: &Pool,
    module: &Named,
) -> Result<(), NoMemory>
    requires first { pool.now.first ≡ FIRST_OWN }
    requires read { IsModule module.now.held }
    requires fine { All (IsFine MAX_DEPTH) module.now.held.objects }
    ensures { OnOk result (out.new.items
        ≡ out.old.items ++ entry_bytes pool.now (entry_of module.now.name (frozen.frozen module.now.held))) }
{
    write_vuint(out, text_number(pool, module.name.bytes()))?;
    write_table(out, pool, module.held.qstrs())?;
    write_body(alloc, out, &module.held)
}

/// Adds the modules.
pub(crate) fn write_modules(
    alloc: Global,
    out: &mut Vec<u8>,
    pool: &Pool,
    modules: &[Named],
) -> Result<(), NoMemory>
    requires first { pool.now.first ≡ FIRST_OWN }
    requires read { All (λ m. IsModule m.held) modules.now }
    requires fine { All (λ m. All (IsFine MAX_DEPTH) m.held.objects) modules.now }
    ensures { OnOk result (out.new.items ≡ out.old.items ++ flat_map (entry_bytes pool.now) (entries_of modules.now)) }
{
    for module in modules {
        write_module(alloc, out, pool, module)?;
    }
    Ok(())
}
