//! The tables of a file.

ghost use Rattle.std.specs.Prelude.{◌≡◌, ◌⊎◌, [], ◌∷◌, map, All, IfOk, OnOk};
ghost use Rattle.std.specs.List.{flat_map};
ghost use Rattle.mpy_writer.specs.Codes.{text_in, object_in, texts_in, objects_in};
ghost use Rattle.mpy_writer.specs.Outcome.{IfFault, all_interned, PassesTable, no_texts};
ghost use Rattle.mpy_writer.specs.Tables.{spelled, TablesFit};
ghost use Rattle.mpy_writer.specs.Writable.{IsNumberedCode};

use crate::fault::WriteFault;
use crate::object::object_text;
use mpy_base::{Refused, Text};
use mpy_tree::{Code, Item};
use qstr_pool::{Pool, pool_law};
use std::alloc::Global;

/// The texts of a file, and its objects as they are written, each with its number.
#[derive(Drop)]
pub struct Tables {
    pub texts: Pool,
    pub objects: Pool,
}

impl Tables {
    ghost use Rattle.std.specs.Prelude.{◌≡◌};
    ghost use Rattle.mpy_writer.specs.Tables as numbers;

    /// The number of the text, and 0 of one that has none.
    pub(crate) fn text_number(&self, text: &Text) -> u32
        ensures { result ≡ numbers.text_number self.now text.now }
    {
        self.texts.find(text.bytes()).unwrap_or(0)
    }
}

/// Uses a text: where it is new it goes last.
pub fn use_text(alloc: Global, pool: &mut Pool, text: &[u8]) -> Result<(), Refused<WriteFault>>
    ensures ok { OnOk result (pool.new ≡ all_interned pool.old (text.now ∷ [])) }
    ensures fault { IfFault result (PassesTable pool.old (text.now ∷ [])) }
{
    match pool.intern(alloc, text) {
        Ok(_) => Ok(()),
        Err(Refused::Fault(_)) => Err(Refused::Fault(WriteFault::TooManyNames)),
        Err(Refused::NoMemory) => Err(Refused::NoMemory),
    }
}

/// Puts each of the texts into the table, where it isn't in it.
fn use_texts(alloc: Global, pool: &mut Pool, texts: &[Text]) -> Result<(), Refused<WriteFault>>
    ensures ok { OnOk result (pool.new ≡ all_interned pool.old texts.now) }
    ensures fault { IfFault result (PassesTable pool.old texts.now) }
{
    for text in texts {
        use_text(alloc, pool, text.bytes())?;
    }
    Ok(())
}

/// Uses the texts that instructions name.
fn use_named(alloc: Global, pool: &mut Pool, items: &[Item]) -> Result<(), Refused<WriteFault>>
    ensures ok { OnOk result (pool.new ≡ all_interned pool.old (flat_map text_in items.now)) }
    ensures fault { IfFault result (PassesTable pool.old (flat_map text_in items.now)) }
{
    for item in items {
        if let Item::Named(_, text) = item {
            use_text(alloc, pool, text.bytes())?;
        }
    }
    Ok(())
}

/// Uses the texts that the code names.
fn use_texts_in(alloc: Global, pool: &mut Pool, code: &Code) -> Result<(), Refused<WriteFault>>
    ensures ok { OnOk result (pool.new ≡ all_interned pool.old (texts_in code.now)) }
    ensures fault { IfFault result (PassesTable pool.old (texts_in code.now)) }
{
    use_text(alloc, pool, code.name.bytes())?;
    use_texts(alloc, pool, code.args.as_slice())?;
    use_named(alloc, pool, code.instrs.as_slice())
}

/// Uses the objects that the code names.
fn use_objects_in(alloc: Global, pool: &mut Pool, code: &Code) -> Result<(), Refused<WriteFault>>
    requires { IsNumberedCode code.now }
    ensures ok { OnOk result (pool.new ≡ all_interned pool.old (map spelled (objects_in code.now))) }
    ensures fault { IfFault result (PassesTable pool.old (map spelled (objects_in code.now))) }
{
    for item in code.instrs.as_slice() {
        if let Item::Object(object) = item {
            use_text(alloc, pool, &object_text(alloc, object)?)?;
        }
    }
    Ok(())
}

/// Uses the name of the source and the texts of the codes.
pub(crate) fn use_all_texts(
    alloc: Global,
    pool: &mut Pool,
    source: &Text,
    codes: &[&Code],
) -> Result<(), Refused<WriteFault>>
    ensures ok { OnOk result (pool.new ≡ all_interned pool.old (source.now ∷ flat_map texts_in (map (λ c. c.now) codes.now))) }
    ensures fault { IfFault result (PassesTable pool.old (source.now ∷ flat_map texts_in (map (λ c. c.now) codes.now))) }
{
    use_text(alloc, pool, source.bytes())?;
    for code in codes {
        use_texts_in(alloc, pool, code)?;
    }
    Ok(())
}

/// Uses the objects of the codes.
pub(crate) fn use_all_objects(
    alloc: Global,
    pool: &mut Pool,
    codes: &[&Code],
) -> Result<(), Refused<WriteFault>>
    requires { All IsNumberedCode (map (λ c. c.now) codes.now) }
    ensures ok { OnOk result (pool.new ≡ all_interned pool.old (map spelled (flat_map objects_in (map (λ c. c.now) codes.now)))) }
    ensures fault { IfFault result (PassesTable pool.old (map spelled (flat_map objects_in (map (λ c. c.now) codes.now)))) }
{
    for code in codes {
        use_objects_in(alloc, pool, code)?;
    }
    Ok(())
}

/// The tables of texts and of objects of these codes, the name of the source first.
pub(crate) fn make_tables(
    alloc: Global,
    source: &Text,
    codes: &[&Code],
) -> Result<Tables, Refused<WriteFault>>
    requires { All IsNumberedCode (map (λ c. c.now) codes.now) }
    ensures texts { IfOk result (λ t. t.texts ≡ all_interned no_texts (source.now ∷ flat_map texts_in (map (λ c. c.now) codes.now))) }
    ensures objects { IfOk result (λ t. t.objects ≡ all_interned no_texts (map spelled (flat_map objects_in (map (λ c. c.now) codes.now)))) }
    ensures fit { IfOk result TablesFit }
    ensures fault { IfFault result (λ fault.
        PassesTable no_texts (source.now ∷ flat_map texts_in (map (λ c. c.now) codes.now)) fault
        ⊎ PassesTable no_texts (map spelled (flat_map objects_in (map (λ c. c.now) codes.now))) fault) }
{
    let mut texts = Pool::new(alloc, 0)?;
    use_all_texts(alloc, &mut texts, source, codes)?;
    let mut objects = Pool::new(alloc, 0)?;
    use_all_objects(alloc, &mut objects, codes)?;
    pool_law(&texts);
    pool_law(&objects);
    Ok(Tables { texts, objects })
}
