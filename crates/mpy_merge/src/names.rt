//! The joined tables of modules.

ghost use Rattle.std.specs.Prelude.{◌≡◌, ◌<◌, ◌≤◌, length, map, nat_le, All, OnOk, IfOk};
ghost use Rattle.std.specs.List.{flat_map};
ghost use Rattle.mpy_writer.specs.mpy_tree.File.{IsModule};
ghost use Rattle.mpy_writer.specs.Outcome.{IfFault, all_interned, PassesTable, no_texts};
ghost use Rattle.mpy_writer.specs.Tables.{TablesFit};
ghost use Rattle.mpy_writer.specs.Writable.{IsText};
ghost use Rattle.mpy_merge.specs.Ends as ends;
ghost use Rattle.mpy_merge.specs.Faults.{HasManyNames};
ghost use Rattle.mpy_merge.specs.Merged.{texts_of, texts_used, all_objects, AreTables};
ghost use Rattle.mpy_merge.specs.Moved as specs;

use crate::fault::MergeFault;
use crate::moved::{entry_text, text_at};
use bc_verify::Verified;
use mpy_base::Refused;
use mpy_base::limits::MAX_TABLE;
use mpy_tree::Qstr;
use mpy_writer::{Tables, WriteFault, use_text};
use qstr_pool::{Pool, pool_law};
use std::alloc::Global;

/// Uses the texts of a table.
fn use_entries(alloc: Global, pool: &mut Pool, entries: &[Qstr]) -> Result<(), Refused<WriteFault>>
    ensures ok { OnOk result (pool.new ≡ all_interned pool.old (map specs.entry_text entries.now)) }
    ensures fault { IfFault result (PassesTable pool.old (map specs.entry_text entries.now)) }
{
    for entry in entries {
        use_text(alloc, pool, entry_text(entry))?;
    }
    Ok(())
}

/// Uses the texts of the modules' tables.
fn use_tables(
    alloc: Global,
    pool: &mut Pool,
    modules: &[Verified],
) -> Result<(), Refused<WriteFault>>
    ensures ok { OnOk result (pool.new ≡ all_interned pool.old (flat_map texts_of modules.now)) }
    ensures fault { IfFault result (PassesTable pool.old (flat_map texts_of modules.now)) }
{
    for module in modules {
        use_entries(alloc, pool, module.module().qstrs())?;
    }
    Ok(())
}

/// The texts that the merged file names.
fn make_texts(alloc: Global, modules: &[Verified]) -> Result<Pool, Refused<WriteFault>>
    requires { 0 < length modules.now }
    ensures ok { IfOk result (λ texts. texts ≡ all_interned no_texts (texts_used modules.now)) }
    ensures fault { IfFault result (PassesTable no_texts (texts_used modules.now)) }
{
    let mut texts = Pool::new(alloc, 0)?;
    use_text(alloc, &mut texts, text_at(modules[0].module(), 0))?;
    use_text(alloc, &mut texts, b"<module>")?;
    use_tables(alloc, &mut texts, modules)?;
    Ok(texts)
}

/// Tells whether the objects of the modules are as few as a file may have.
fn are_few(modules: &[Verified]) -> bool
    ensures { result ≡ nat_le (length (all_objects modules.now)) MAX_TABLE }
{
    let mut left = MAX_TABLE;
    for module in modules {
        match left.checked_sub(module.module().objects().len()) {
            Some(less) => left = less,
            None => return false,
        }
    }
    true
}

/// The tables of the merged file, of which that of objects gives no numbers.
pub(crate) fn make_tables(
    alloc: Global,
    modules: &[Verified],
) -> Result<Tables, Refused<MergeFault>>
    requires some { 0 < length modules.now }
    requires read { All IsModule modules.now }
    ensures are { IfOk result (AreTables modules.now) }
    ensures fit { IfOk result TablesFit }
    ensures fine { IfOk result (λ tables. All IsText tables.texts.texts) }
    ensures few { OnOk result (length (all_objects modules.now) ≤ MAX_TABLE) }
    ensures fault { ends.IfFault result (λ fault. (fault ≡ MergeFault.TooManyNames) × HasManyNames modules.now) }
{
    let texts = match make_texts(alloc, modules) {
        Ok(texts) => texts,
        Err(Refused::Fault(_)) => return Err(Refused::Fault(MergeFault::TooManyNames)),
        Err(Refused::NoMemory) => return Err(Refused::NoMemory),
    };
    if !are_few(modules) {
        return Err(Refused::Fault(MergeFault::TooManyNames));
    }
    pool_law(&texts);
    let objects = Pool::new(alloc, 0)?;
    Ok(Tables { texts, objects })
}
