//! The whole listing: a head, the texts, the objects, and the codes in preorder.

ghost use Rattle.std.specs.Prelude.{◌≡◌, ◌++◌, ℕ, List, [], codes, decimal, unwrap_or};
ghost use Rattle.mpy_tree.specs.File.{IsModule};
ghost use Rattle.mpy_tree.specs.Raw as raw;
ghost use Rattle.mpy_tree.specs.Raw.{Module};
ghost use Rattle.mpy_dump.specs.Listing as specs;
ghost use Rattle.mpy_dump.specs.Listing.{IsListing, head_line, qstr_line, object_line};
ghost use Rattle.mpy_dump.specs.Numbered.{numbered};
ghost use Rattle.mpy_dump.specs.Puts.{Puts};

use crate::codes::put_codes;
use crate::names::text_of;
use crate::objects::put_object;
use crate::path::Path;
use crate::put::{digits, put, put_all};
use crate::texts::put_name;
use itoa::Buffer;
use mpy_io::{Failed, Sink};
use mpy_tree::{Constant, Qstr, RawModule, module_law};

/// Puts the first line: the format's version and architecture, the bits of small ints, and how long both tables are.
fn put_head<S: Sink>(out: &mut S, module: &RawModule) -> Result<(), Failed>
    ensures { Puts S.told S.count out.old out.new (head_line module.now) result }
{
    let (mut first, mut second, mut third) = (Buffer::new(), Buffer::new(), Buffer::new());
    let bits = digits(&mut first, module.bits());
    let qstrs = digits(&mut second, module.qstrs().len());
    let objects = digits(&mut third, module.objects().len());
    put_all(
        out,
        &[
            b"mpy 6 0 ",
            bits,
            b" qstrs ",
            qstrs,
            b" objects ",
            objects,
            b"\n",
        ],
    )
}

/// Puts what a line begins with: a word and a number.
fn put_numbered<S: Sink>(out: &mut S, word: &[u8], n: usize) -> Result<(), Failed>
    ensures { Puts S.told S.count out.old out.new (word.now ++ (decimal n ++ codes " ")) result }
{
    let mut buffer = Buffer::new();
    put_all(out, &[word, digits(&mut buffer, n), b" "])
}

/// Puts how a text is spelled in its table.
fn put_spelling<S: Sink>(out: &mut S, qstr: &Qstr) -> Result<(), Failed>
    ensures { Puts S.told S.count out.old out.new (specs.spelling_text qstr.now) result }
{
    match qstr {
        Qstr::Static(number) => {
            let mut buffer = Buffer::new();
            put_all(out, &[b"static ", digits(&mut buffer, *number), b" "])
        }
        Qstr::Own(_) => put(out, b"own "),
    }
}

/// The text of an entry of the table of texts, and no bytes where it has none.
fn text_or_none(qstr: &Qstr) -> &[u8]
    ensures { result.now ≡ unwrap_or (raw.text_of qstr.now) [] }
{
    match text_of(qstr) {
        Some(text) => text,
        None => b"",
    }
}

/// Puts the line of text `n`.
fn put_qstr<S: Sink>(out: &mut S, n: usize, qstr: &Qstr) -> Result<(), Failed>
    ensures { Puts S.told S.count out.old out.new (qstr_line n qstr.now) result }
{
    put_numbered(out, b"qstr ", n)?;
    put_spelling(out, qstr)?;
    put_name(out, text_or_none(qstr))?;
    put(out, b"\n")
}

/// Puts a line for each text.
fn put_qstrs<S: Sink>(out: &mut S, qstrs: &[Qstr]) -> Result<(), Failed>
    ensures { Puts S.told S.count out.old out.new (numbered qstr_line 0 qstrs.now) result }
{
    for (n, qstr) in qstrs.iter().enumerate() {
        put_qstr(out, n, qstr)?;
    }
    Ok(())
}

/// Puts the line of object `n`.
fn put_object_line<S: Sink>(out: &mut S, n: usize, object: &Constant) -> Result<(), Failed>
    ensures { Puts S.told S.count out.old out.new (object_line n object.now) result }
{
    put_numbered(out, b"object ", n)?;
    put_object(out, object)?;
    put(out, b"\n")
}

/// Puts a line for each object.
fn put_objects<S: Sink>(out: &mut S, objects: &[Constant]) -> Result<(), Failed>
    ensures { Puts S.told S.count out.old out.new (numbered object_line 0 objects.now) result }
{
    for (n, object) in objects.iter().enumerate() {
        put_object_line(out, n, object)?;
    }
    Ok(())
}

/// Puts the listing of a module. After an `Err` a front of it went out.
pub fn listing<S: Sink>(module: &RawModule, out: &mut S) -> Result<(), Failed>
    ensures { (text : List ℕ) × IsListing module.now text × Puts S.told S.count out.old out.new text result }
{
    module_law(module);
    put_head(out, module)?;
    put_qstrs(out, module.qstrs())?;
    put_objects(out, module.objects())?;
    put_codes(out, module, &Path::Outermost, module.code())
}

/// A module has one listing.
pub fn listing_law()
    ensures some { (m : Module) → IsModule m → (text : List ℕ) × IsListing m text }
    ensures one { (m : Module) (a b : List ℕ) → IsListing m a → IsListing m b → a ≡ b }
{}
