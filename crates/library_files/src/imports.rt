//! The names that a module imports.

ghost use Rattle.std.specs.Prelude.{◌≡◌, ◌≤◌, ℕ, List, ◌++◌, length, IfOk, OnOk};
ghost use Rattle.std.specs.List.{filter_map};
ghost use Rattle.std.specs.Option.{option_copied};
ghost use Rattle.bc_ops.specs.Listing.{IsListOf};
ghost use Rattle.mpy_base.specs.declared.limits.TheConstants.{MAX_CODE_BYTES};
ghost use Rattle.mpy_reader.specs.mpy_tree.declared.raw.RawCode.{out-RawCode};
ghost use Rattle.mpy_reader.specs.mpy_tree.File.{IsCode};
ghost use Rattle.mpy_reader.specs.mpy_tree.Raw as raw;
ghost use Rattle.mpy_reader.specs.mpy_tree.Raw.{Module};
ghost use Rattle.mpy_reader.specs.mpy_tree.Resolved as resolved;
ghost use Rattle.mpy_reader.specs.mpy_tree.Resolved.{Body, Tree, IsBody, ResolvesCode};
ghost use Rattle.library_files.specs.Imports.{Imports, import_of, own_imports, imports_of};

use bc_ops::{Instr, Item, Op, items_of};
use bc_prelude::parts_of;
use bc_resolved::resolves_law;
use mpy_base::{NoMemory, Text};
use mpy_tree::{Qstr, RawCode, RawModule, module_law};
use qstr_pool::static_text;
use std::alloc::Global;

/// The text of an entry.
fn text_of(qstr: &Qstr) -> Option<&[u8]>
    ensures { option_copied result ≡ raw.text_of qstr.now }
{
    match qstr {
        Qstr::Static(number) => static_text(*number),
        Qstr::Own(text) => Some(text.bytes()),
    }
}

/// The text that a number of the module leads to.
fn name_at(module: &RawModule, n: u32) -> Option<&[u8]>
    ensures { option_copied result ≡ resolved.name_at module.now n }
{
    text_of(module.qstrs().get(n as usize)?)
}

/// The name that an instruction of the module imports, if it is an import.
fn import_in<'a>(module: &'a RawModule, item: &Item) -> Option<&'a [u8]>
    ensures { option_copied result ≡ import_of (resolved.resolved module.now item.now) }
{
    match item {
        Item::Plain(Instr::Name(Op::ImportName, n)) => name_at(module, *n),
        _ => None,
    }
}

/// Puts the names that instructions of the module import behind those that are there.
fn add_items(
    alloc: Global,
    module: &RawModule,
    items: &[Item],
    names: &mut Vec<Text>,
) -> Result<(), NoMemory>
    ensures { OnOk result (names.new.items ≡ names.old.items
        ++ filter_map (λ item. import_of (resolved.resolved module.now item)) items.now) }
{
    for item in items {
        if let Some(name) = import_in(module, item) {
            names.push(Text::new(alloc, name)?)?;
        }
    }
    Ok(())
}

/// Puts the names that a code of the module imports by itself behind those that are there.
fn add_own(
    alloc: Global,
    module: &RawModule,
    bytes: &[u8],
    names: &mut Vec<Text>,
) -> Result<(), NoMemory>
    requires resolves { (body : Body) × IsBody module.now bytes.now body }
    requires short { length bytes.now ≤ MAX_CODE_BYTES }
    ensures { OnOk result ((body : Body) → IsBody module.now bytes.now body
        → names.new.items ≡ names.old.items ++ own_imports body) }
{
    let listed = items_of(alloc, parts_of(bytes).instructions)?;
    add_items(alloc, module, &listed.items, names)
}

/// Puts the names that a code of the module and those in it import behind those that are there.
fn add_imports(
    alloc: Global,
    module: &RawModule,
    code: &RawCode,
    names: &mut Vec<Text>,
) -> Result<(), NoMemory>
    requires resolves { (tree : Tree) × ResolvesCode module.now tree code.now }
    requires nests { (levels : ℕ) × (texts : ℕ) × (text : List ℕ) × IsCode levels texts text code.now }
    ensures { OnOk result ((tree : Tree) → ResolvesCode module.now tree code.now
        → names.new.items ≡ names.old.items ++ imports_of tree) }
{
    add_own(alloc, module, code.bytes.bytes(), names)?;
    for child in code.children.as_slice() {
        add_imports(alloc, module, child, names)?;
    }
    Ok(())
}

/// Puts the names that a module imports behind those that are there.
pub(crate) fn add_names(
    alloc: Global,
    module: &RawModule,
    names: &mut Vec<Text>,
) -> Result<(), NoMemory>
    ensures { OnOk result ((imports : List (List ℕ)) × Imports module.now imports × (names.new.items ≡ names.old.items ++ imports)) }
{
    module_law(module);
    resolves_law();
    add_imports(alloc, module, module.code(), names)
}

/// The names that a module imports: those of its codes in preorder, and in a code those of its instructions in their
/// order. A name stands there as often as it is imported.
pub fn imported_names(alloc: Global, module: &RawModule) -> Result<Vec<Text>, NoMemory>
    ensures { IfOk result (λ names. Imports module.now names.items) }
{
    let mut names = Vec::new(alloc);
    add_names(alloc, module, &mut names)?;
    Ok(names)
}

/// A module imports one list of names.
pub fn imports_law()
    ensures { (m : Module) (some others : List (List ℕ)) → Imports m some → Imports m others → some ≡ others }
{
    resolves_law();
}
