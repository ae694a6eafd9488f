//! The codes of a module in preorder.

ghost use Rattle.std.specs.Prelude.{◌≤◌, ℕ, List, length};
ghost use Rattle.mpy_tree.specs.File.{IsOwnCode, IsCode};
ghost use Rattle.mpy_dump.specs.Codes as specs;
ghost use Rattle.mpy_dump.specs.Codes.{places, IsOwnText, AreCodesText};
ghost use Rattle.mpy_dump.specs.Puts.{Puts};
ghost use Rattle.mpy_dump.specs.Short.{AreTails};

use crate::instructions::put_instrs;
use crate::names::put_name_at;
use crate::path::{Path, put_path};
use crate::pen::Pen;
use crate::put::{digits, put, put_all};
use crate::tails::{Tails, tails_of};
use bc_prelude::{Prelude, first_index, parts_of};
use itoa::Buffer;
use mpy_base::limits::{MAX_CODE_BYTES, MAX_DEPTH};
use mpy_io::{Failed, Sink};
use mpy_tree::{RawCode, RawModule};

/// Puts the numbers of a code of `size` bytes.
fn put_numbers<S: Sink>(out: &mut S, prelude: &Prelude, size: usize) -> Result<(), Failed>
    ensures { Puts S.told S.count out.old out.new (specs.numbers_text prelude.now size) result }
{
    let (mut first, mut second, mut third) = (Buffer::new(), Buffer::new(), Buffer::new());
    let (mut fourth, mut fifth) = (Buffer::new(), Buffer::new());
    let args = digits(&mut first, prelude.args);
    let defaults = digits(&mut second, prelude.defaults);
    let state = digits(&mut third, prelude.n_state);
    let handlers = digits(&mut fourth, prelude.n_exc);
    let size = digits(&mut fifth, size);
    put_all(
        out,
        &[
            b" args ",
            args,
            b" defaults ",
            defaults,
            b" state ",
            state,
            b" handlers ",
            handlers,
            b" bytes ",
            size,
            b"\n",
        ],
    )
}

/// Puts the line of a code of `size` bytes, whose name has the number `name`.
fn put_line<S: Sink>(
    out: &mut S,
    module: &RawModule,
    path: &Path<'_>,
    name: u32,
    prelude: &Prelude,
    size: usize,
) -> Result<(), Failed>
    ensures { Puts S.told S.count out.old out.new
        (specs.code_line module.now (places path.now) name prelude.now size) result }
{
    put(out, b"code ")?;
    put_path(out, path)?;
    put(out, b" ")?;
    put_name_at(out, module, name)?;
    put_numbers(out, prelude, size)
}

/// Puts the lines of a code without those in it.
fn put_code<S: Sink>(
    out: &mut S,
    pen: &mut Pen,
    module: &RawModule,
    tails: &Tails,
    path: &Path<'_>,
    bytes: &[u8],
) -> Result<(), Failed>
    requires tails { AreTails module.now tails.now }
    requires own { (texts : ℕ) × IsOwnCode texts bytes.now }
    requires short { length bytes.now ≤ MAX_CODE_BYTES }
    ensures { (text : List ℕ) × IsOwnText module.now (places path.now) bytes.now text
        × Puts S.told S.count out.old out.new text result }
{
    let parts = parts_of(bytes);
    let name = first_index(parts.names);
    put_line(out, module, path, name, &parts.prelude, bytes.len())?;
    put_instrs(out, pen, module, tails, parts.lines, parts.instructions)
}

/// Puts the lines of a code, and of those in it, which have at most `levels` levels together.
fn put_nest<'a, S: Sink>(
    out: &mut S,
    pen: &mut Pen,
    module: &'a RawModule,
    tails: &Tails,
    path: &'a Path<'a>,
    code: &'a RawCode,
    levels: usize,
) -> Result<(), Failed>
    requires tails { AreTails module.now tails.now }
    requires nests { (texts : ℕ) × (text : List ℕ) × IsCode levels texts text code.now }
    ensures { (text : List ℕ) × AreCodesText module.now levels (places path.now) code.now text
        × Puts S.told S.count out.old out.new text result }
{
    put_code(out, pen, module, tails, path, code.bytes.bytes())?;
    for (place, child) in code.children.as_slice().iter().enumerate() {
        let below = Path::Child(path, place);
        put_nest(out, pen, module, tails, &below, child, levels - 1)?;
    }
    Ok(())
}

/// Puts the lines of a code, and of those in it, by a pen and tails that are made for it.
pub(crate) fn put_codes<'a, S: Sink>(
    out: &mut S,
    module: &'a RawModule,
    path: &'a Path<'a>,
    code: &'a RawCode,
) -> Result<(), Failed>
    requires { (texts : ℕ) × (text : List ℕ) × IsCode MAX_DEPTH texts text code.now }
    ensures { (text : List ℕ) × AreCodesText module.now MAX_DEPTH (places path.now) code.now text
        × Puts S.told S.count out.old out.new text result }
{
    let mut pen = Pen::new();
    let tails = tails_of(&mut pen, module);
    put_nest(out, &mut pen, module, &tails, path, code, MAX_DEPTH)
}
